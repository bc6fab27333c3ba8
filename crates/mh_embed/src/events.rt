//! Events that numbers are, by the order of commands and controls in the tables of the model. Each event can be asked
//! so.
ghost use Rattle.std.specs.Prelude.{◌≡◌, ◌⊎◌, ◌≤◌};
ghost use Rattle.mh_embed.specs.Numbers.{command_numbered, control_numbered, event_numbered};

use crate::numbers::EventNumbers;
use mh_model::command::{Command, Control, Event};
use mh_text::word::small;

/// A command with three numbers: `new`, `get`, `put` or `write`.
fn long_command(numbers: EventNumbers) -> Option<Command>
    requires { (1 ≤ numbers.kind) × (numbers.kind ≤ 3) ⊎ (numbers.kind ≡ 7) }
    ensures { result ≡ command_numbered numbers }
{
    match numbers.kind {
        1 => Some(Command::New {
            slot: numbers.first,
            references: numbers.second,
            numbers: small(numbers.third)?,
        }),
        2 => Some(Command::Get {
            slot: numbers.first,
            source: numbers.second,
            field: small(numbers.third)?,
        }),
        3 => Some(Command::Put {
            slot: numbers.first,
            field: numbers.second,
            value: small(numbers.third)?,
        }),
        _ => Some(Command::Write {
            slot: numbers.first,
            index: numbers.second,
            number: numbers.third,
        }),
    }
}

/// A command with at most two numbers.
fn short_command(numbers: EventNumbers) -> Option<Command>
    requires { (4 ≤ numbers.kind) × (numbers.kind ≤ 6) ⊎ (8 ≤ numbers.kind) × (numbers.kind ≤ 12) }
    ensures { result ≡ command_numbered numbers }
{
    let EventNumbers { first, second, .. } = numbers;
    match numbers.kind {
        4 => Some(Command::Copy {
            slot: first,
            source: second,
        }),
        5 => Some(Command::Clear { slot: first }),
        6 => Some(Command::Read {
            slot: first,
            index: second,
        }),
        8 => Some(Command::Same {
            left: first,
            right: second,
        }),
        9 => Some(Command::Shape { slot: first }),
        10 => Some(Command::Post {
            board: first,
            slot: second,
        }),
        11 => Some(Command::Take {
            slot: first,
            board: second,
        }),
        _ => Some(Command::End),
    }
}

fn command_of(numbers: EventNumbers) -> Option<Command>
    ensures { result ≡ command_numbered numbers }
{
    match numbers.kind {
        1..=3 | 7 => long_command(numbers),
        4..=6 | 8..=12 => short_command(numbers),
        _ => None,
    }
}

fn control_of(numbers: EventNumbers) -> Option<Control>
    ensures { result ≡ control_numbered numbers }
{
    match numbers.kind {
        13 => Some(Control::Quantum),
        14 => Some(Control::Start),
        15 => Some(Control::Stat),
        16 => Some(Control::Dump),
        17 => Some(Control::Report {
            window: numbers.third,
        }),
        18 => Some(Control::Left),
        _ => None,
    }
}

/// The event that numbers are, if they are one. A session past the 255th is refused as that one is, for there are eight.
pub fn event_of(numbers: EventNumbers) -> Option<Event>
    ensures { result ≡ event_numbered numbers }
{
    match command_of(numbers) {
        Some(command) => Some(Event::Session(numbers.session.min(255) as u8, command)),
        None => Some(Event::Control(control_of(numbers)?)),
    }
}
