//! The first line of a history of version 2: the rules by their number, and the configuration.
ghost use Rattle.std.specs.Prelude.{◌≡◌, ◌∷◌, [], option_and_then};
ghost use Rattle.mh_model.specs.HistoryTexts.{header_of, header_by};

use mh_model::config::Config;
use mh_text::pieces::Words;
use mh_text::word::{is_word, number, numbers, small};

/// The configuration that the words of a history's first line are, in version 2. None if they are none, or outside the
/// limits.
pub fn header_of(mut words: Words<'_>) -> Option<Config>
    ensures { result ≡ header_of words.entry }
{
    let first = words.next_word()?;
    let second = words.next_word()?;
    let third = words.next_word()?;
    if !is_word(first, b"history") || !is_word(second, b"2") || !is_word(third, b"rules") {
        return None;
    }
    let rules = number(words.next_word()?)?;
    header_with(rules, numbers(words)?.as_slice())
}

fn header_with(rules: u64, numbers: &[u64]) -> Option<Config>
    ensures { result ≡ header_by (rules ∷ numbers.now) }
{
    match *numbers {
        [pages, quantum, trigger, every] => configured(rules, pages, quantum, trigger, every),
        _ => None,
    }
}

#[tactic(auto, using(crate::proofs::HeaderLemmas::header_first, crate::proofs::HeaderLemmas::header_second))]
fn configured(rules: u64, pages: u64, quantum: u64, trigger: u64, every: u64) -> Option<Config>
    ensures { result ≡ header_by (rules ∷ pages ∷ quantum ∷ trigger ∷ every ∷ []) }
{
    let pages = small(pages)?;
    let quantum = small(quantum)?;
    let trigger = small(trigger)?;
    let every = small(every)?;
    match rules {
        1 => Config::first(pages, quantum, trigger, every),
        2 => Config::new(pages, quantum, trigger, every),
        _ => None,
    }
}
