//! A share of the mutator, as a word has it. The program reads it and not `clap`, which takes any text here.
ghost use Rattle.std.specs.Prelude.{◌≡◌, option_map};
ghost use Rattle.mh_command_line.specs.Shares.{ReadsShare, asked_share, shared_of};

use mh_orders::promises::Share;
use mh_text::pieces::split_at_byte;
use mh_text::word::number;
use std::str::FromStr;

/// A share, as a word has it.
#[derive(Clone, Copy)]
pub(crate) struct AskedShare {
    pub(crate) share: Share,
}

/// A text that is no share.
#[derive(Clone, Copy)]
pub(crate) struct NotShare;

/// The share of `U:W`.
fn share_in(text: &[u8]) -> Option<Share>
    ensures { option_map shared_of result ≡ asked_share text.now }
{
    let (percent, from) = split_at_byte(text, b':')?;
    if split_at_byte(from, b':').is_some() {
        return None;
    }
    let percent = number(percent)?;
    let from = number(from)?;
    if percent > 100 {
        return None;
    }
    Some(Share { percent, from })
}

impl FromStr for AskedShare {
    type Err = NotShare;

    ghost from_str_gives = { ReadsShare };

    fn from_str(text: &str) -> Result<AskedShare, NotShare> {
        match share_in(text.as_bytes()) {
            Some(share) => Ok(AskedShare { share }),
            None => Err(NotShare),
        }
    }
}
