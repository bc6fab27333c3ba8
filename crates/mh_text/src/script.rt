//! Scripts as texts. A text is a script with this configuration and these events exactly when the grammar says so.
//! Otherwise its first bad line is named. Out of memory is answered only if the text begins with an event (`memory`).
ghost use Rattle.std.specs.Prelude.{◌≡◌, ◌≢◌, [], IfOk, IfErr, IfSome, IfNone, IsErrOf};
ghost use Rattle.mh_model.specs.Script.{Means, reading};
ghost use Rattle.mh_text.specs.Auxiliary.{TakesNext, TakesConfig, HasEvent, script_left, events_left};
ghost use Rattle.mh_text.specs.{Reading.BeginsWithEvent, TextErrors.Refuses};

use crate::line::{Line, config_line, is_blank, line_of};
use crate::names::Names;
use crate::pieces::Lines;
use crate::text_error::TextError;
use mh_model::command::Event;
use mh_model::config::Config;
use std::alloc::Global;
use std::marker::Model;

/// The most bytes that a script has.
pub const SCRIPT_BYTES: usize = 67_108_864;

/// A script that is within the grammar: its configuration and its events.
#[derive(Debug, Drop)]
pub struct Script {
    config: Config,
    events: Vec<Event>,
}

impl Model for Script {
    ghost use Rattle.mh_model.specs.Script.{Meaning};

    ghost Value = { Meaning };

    ghost view = { λ script. record { config = script.config; events = script.events.items } };
}

impl Script {
    pub fn config(&self) -> Config
        ensures { result ≡ self.now.config }
    {
        self.config
    }

    /// One event for each line with a command or a control, in the order of the lines.
    pub fn events(&self) -> &[Event]
        ensures { result.now ≡ self.now.events }
    {
        self.events.as_slice()
    }
}

/// Reads a script, up to its first bad line. It takes memory for events and their sessions' names alone, so a text that is
/// refused before its first event is never answered with `NoMemory`.
#[tactic(auto, using(mh_model::proofs::ScriptLemmas::reading_long, crate::proofs::ScriptLemmas::reading_left, crate::proofs::ScriptLemmas::begins_with_event))]
pub fn parse(alloc: Global, text: &[u8]) -> Result<Script, TextError>
    ensures script { IfOk result (λ script. reading text.now ≡ Means script) }
    ensures line { IfErr result (Refuses (reading text.now)) }
    ensures memory { IsErrOf result TextError.NoMemory → BeginsWithEvent text.now }
{
    if text.len() > SCRIPT_BYTES {
        return Err(TextError::Line(0));
    }
    let mut lines = Lines::new(text);
    let config = config_from(&mut lines)?;
    let events = events_from(alloc, lines)?;
    Ok(Script { config, events })
}

/// Reads up to the configuration, the first line that isn't blank.
fn config_from(lines: &mut Lines<'_>) -> Result<Config, TextError>
    ensures config { IfOk result (TakesConfig lines.old lines.new) }
    ensures line { IfErr result (Refuses (script_left lines.old)) }
    ensures memory { result ≢ Err TextError.NoMemory }
{
    while let Some((number, line)) = lines.next_line() {
        if !is_blank(line) {
            return config_line(line).ok_or(TextError::Line(number));
        }
    }
    Err(TextError::Line(lines.number()))
}

/// What is taken of a script at once: a command in its plain form, as an event, or else a line, with its number.
enum Taken<'a> {
    Plain(Event),
    Line(u64, &'a [u8]),
}

/// Takes the next line.
#[inline(always)]
fn take_next<'a>(lines: &mut Lines<'a>, names: &Names<'_>) -> Option<Taken<'a>>
    ensures next { IfSome result (λ taken. TakesNext names.now lines.old lines.new taken) }
    ensures end { IfNone result (lines.old.lines ≡ []) }
    ensures same { IfNone result (lines.new ≡ lines.old) }
{
    if let Some(event) = lines.next_plain(names) {
        return Some(Taken::Plain(event));
    }
    let (number, line) = lines.next_line()?;
    Some(Taken::Line(number, line))
}

/// Reads the lines after the configuration.
fn events_from(alloc: Global, mut lines: Lines<'_>) -> Result<Vec<Event>, TextError>
    ensures events { IfOk result (λ events. events_left lines.entry ≡ Means events.items) }
    ensures line { IfErr result (Refuses (events_left lines.entry)) }
    ensures memory { IsErrOf result TextError.NoMemory → HasEvent lines.entry }
{
    let mut events = Vec::new(alloc);
    let mut names = Names::new(alloc);
    while let Some(taken) = take_next(&mut lines, &names) {
        match taken {
            Taken::Plain(event) => events.push(event)?,
            Taken::Line(number, line) => match line_of(line) {
                Line::Blank => {}
                Line::Calls(name, command) => {
                    let who = names.number(name)?;
                    events.push(Event::Session(who, command))?;
                }
                Line::Asks(control) => events.push(Event::Control(control))?,
                Line::Wrong => return Err(TextError::Line(number)),
            },
        }
    }
    if lines.is_empty() {
        Ok(events)
    } else {
        Err(TextError::Line(lines.number()))
    }
}
