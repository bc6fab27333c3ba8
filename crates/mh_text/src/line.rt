//! Lines of scripts. A line is a configuration, a command, a control, blank, or none of these, as the grammar says.
//! `config` is a lawful session name: after the configuration `config new 0 0 0` is a command, and a second
//! configuration line is bad.
ghost use Rattle.std.specs.Prelude.{◌≡◌};
ghost use Rattle.mh_model.specs.{Script.{config_of, config_words, line_words, line_of, is_blank}, Bytes.words};
ghost use Rattle.mh_model.specs.Configs.{configured};
ghost use Rattle.mh_text.specs.Line.{line_shown};

use crate::forms::{command_of, control_of};
use crate::pieces::Words;
use crate::word::{is_name, is_word, numbers, small};
use mh_model::command::{Command, Control};
use mh_model::config::Config;
use mh_model::history::Version;

/// What a line after the configuration says.
#[derive(Clone, Copy, Debug)]
pub enum Line<'a> {
    Blank,
    /// A command under a name.
    Calls(&'a [u8], Command),
    Asks(Control),
    /// None of the forms.
    Wrong,
}

/// Whether a line, given without its end, is empty or a comment.
pub fn is_blank(line: &[u8]) -> bool
    ensures { result ≡ is_blank line.now }
{
    match line {
        [] => true,
        [first, ..] => *first == b'#',
    }
}

/// The configuration that a line is, given without its end. None if it is none, or outside the limits.
#[tactic(auto, using(crate::proofs::LineLemmas::no_config))]
pub fn config_line(line: &[u8]) -> Option<Config>
    ensures { result ≡ config_words (words line.now) }
{
    let mut words = Words::new(line);
    if !is_word(words.next_word()?, b"config") {
        return None;
    }
    config_of(numbers(words)?.as_slice())
}

#[tactic(auto, using(crate::proofs::LineLemmas::config_four, crate::proofs::LineLemmas::config_other))]
fn config_of(numbers: &[u64]) -> Option<Config>
    ensures { result ≡ config_of numbers.now }
{
    match *numbers {
        [pages, quantum, trigger, every] => configured(pages, quantum, trigger, every),
        _ => None,
    }
}

#[tactic(auto, using(crate::proofs::LineLemmas::config_small))]
fn configured(pages: u64, quantum: u64, trigger: u64, every: u64) -> Option<Config>
    ensures { result ≡ configured pages quantum trigger every }
{
    Config::new(
        small(pages)?,
        small(quantum)?,
        small(trigger)?,
        small(every)?,
    )
}

/// What a line after the configuration says, given without its end. Its caller distinguishes names.
pub fn line_of(line: &[u8]) -> Line<'_>
    ensures { line_shown result ≡ line_of line.now }
{
    if is_blank(line) {
        Line::Blank
    } else {
        line_words(Words::new(line))
    }
}

fn line_words(mut words: Words<'_>) -> Line<'_>
    ensures { line_shown result ≡ line_words words.entry }
{
    let Some(name) = words.next_word() else {
        return Line::Wrong;
    };
    if is_word(name, b"*") {
        return match control_of(Version::Two, words) {
            Some(control) => Line::Asks(control),
            None => Line::Wrong,
        };
    }
    match command_of(words) {
        Some(command) if is_name(name) => Line::Calls(name, command),
        _ => Line::Wrong,
    }
}
