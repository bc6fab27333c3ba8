//! The texts of the first line of version 2 and of controls, for `Display`. They are the model's.
ghost use Rattle.std.specs.Prelude.{◌≡◌, Some};
ghost use Rattle.mh_model.specs.{Bytes.joined, Forms.{phrase_words, control_phrase}};
ghost use Rattle.mh_model.specs.HistoryTexts.{header_words, rules_number};

use mh_model::command::Control;
use mh_model::config::{Config, Rules};
use std::fmt;

/// The first line of a history of version 2, without its end.
#[derive(Clone, Copy)]
pub struct HeaderText(pub Config);

impl fmt::Display for HeaderText {
    ghost output = { λ text. Some (joined (header_words text.0)) };

    fn fmt<W: fmt::Write>(&self, f: &mut fmt::Formatter<W>) -> fmt::Result {
        let Config {
            pages,
            quantum,
            trigger,
            every,
            rules,
        } = self.0;
        let rules = rules_number(rules);
        write!(
            f,
            "history 2 rules {rules} {pages} {quantum} {trigger} {every}"
        )
    }
}

fn rules_number(rules: Rules) -> u8
    ensures { result ≡ rules_number rules }
{
    match rules {
        Rules::First => 1,
        Rules::Second => 2,
    }
}

#[derive(Clone, Copy)]
pub(crate) struct ControlText(pub(crate) Control);

impl fmt::Display for ControlText {
    ghost output = { λ text. Some (joined (phrase_words (control_phrase text.0))) };

    fn fmt<W: fmt::Write>(&self, f: &mut fmt::Formatter<W>) -> fmt::Result {
        match self.0 {
            Control::Quantum => write!(f, "quantum"),
            Control::Start => write!(f, "start"),
            Control::Stat => write!(f, "stat"),
            Control::Dump => write!(f, "dump"),
            Control::Left => write!(f, "left"),
            Control::Report { window } => write!(f, "report {window}"),
        }
    }
}
