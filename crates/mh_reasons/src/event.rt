//! What is wrong with the words of an event, which scripts and histories have alike.
ghost use Rattle.std.specs.Prelude.{◌≡◌, None, true, false, ◌∷◌, codes};
ghost use Rattle.mh_model.specs.{Bytes.{is_text, is_name}, Forms.{command_of, control_of}};
ghost use Rattle.mh_model.specs.declared.history.Version.{Version};
ghost use Rattle.mh_reasons.specs.Reasons.{IsWordsReason};

use crate::operands::operands_reason;
use crate::quoted::quote;
use crate::reason::LineReason;
use crate::verb::{command_verb, control_verb};
use mh_model::history::Version;
use mh_text::pieces::Words;
use mh_text::word::is_word;

/// What is wrong with the words after `*`.
#[tactic(auto, using(crate::proofs::WordLemmas::spread, crate::proofs::WordLemmas::control_usage))]
pub fn control_reason(version: Version, mut words: Words<'_>) -> LineReason
    requires { control_of version words ≡ None }
    ensures { IsWordsReason version true (codes "*" ∷ words.entry) result }
{
    let Some(word) = words.next_word() else {
        return LineReason::NoControl;
    };
    match control_verb(version, word) {
        Some(verb) => operands_reason(verb, words),
        None => LineReason::UnknownControl(quote(word)),
    }
}

/// What is wrong with the words after a name, in each version. `config` is a name too, so a second configuration is found
/// here.
#[tactic(auto, using(mh_model::proofs::TextLemmas::text_is, crate::proofs::WordLemmas::spread, crate::proofs::WordLemmas::command_usage))]
pub fn command_reason(name: &[u8], mut words: Words<'_>) -> LineReason
    requires session { is_text name.now (codes "*") ≡ false }
    requires named { is_name name.now ≡ true }
    requires wrong { command_of words ≡ None }
    ensures { (version : Version) → IsWordsReason version true (name.now ∷ words.entry) result }
{
    let is_config = is_word(name, b"config");
    let Some(word) = words.next_word() else {
        return if is_config {
            LineReason::SecondConfig
        } else {
            LineReason::NoCommand(quote(name))
        };
    };
    match command_verb(word) {
        Some(verb) => operands_reason(verb, words),
        None if is_config => LineReason::SecondConfig,
        None => LineReason::UnknownCommand(quote(word)),
    }
}
