//! The line of an entry with its units, added to a text. It is the model's, and so are an event and a reply that are
//! added alone.
ghost use Rattle.std.specs.{Prelude.{◌≡◌, ◌++◌, ◌∷◌, [], map, decimal, OnOk}, String.string_bytes};
ghost use Rattle.mh_model.specs.{Bytes.{joined, line_text}, Forms.{phrase_words, command_phrase}};
ghost use Rattle.mh_model.specs.{HistoryTexts.{event_words, measured_line}, Replies.reply_text};

use crate::entry_text::ControlText;
use itoa::Buffer;
use mh_model::command::{Command, Event};
use mh_model::history::Measured;
use mh_model::memory::NoMemory;
use mh_model::reply::Reply;
use mh_text::reply_text::ReplyText;
use std::fmt::Write;

/// Adds the line of an entry with its units to a text. After an error the text may end with a part of the line.
#[tactic(auto, using(crate::proofs::EntryTextLemmas::measured_written))]
pub fn push_measured_line(text: &mut String, measured: &Measured) -> Result<(), NoMemory>
    ensures { OnOk result (string_bytes text.new ≡ string_bytes text.old ++ line_text (measured_line measured.now)) }
{
    push_event(text, measured.entry.event)?;
    text.push_str(" = ")?;
    push_reply(text, &measured.entry.reply)?;
    push_number(text, " units ", measured.mutator)?;
    push_number(text, " ", measured.collector)?;
    text.push_str("\n")?;
    Ok(())
}

/// Adds an event as it stands in a history. After an error the text may end with a part of it.
#[inline(always)]
pub fn push_event(text: &mut String, event: Event) -> Result<(), NoMemory>
    ensures { OnOk result (string_bytes text.new ≡ string_bytes text.old ++ joined (event_words event)) }
{
    match event {
        Event::Session(who, command) => {
            push_number(text, "s", u64::from(who))?;
            text.push_str(" ")?;
            push_command(text, command)
        }
        Event::Control(control) => {
            let control = ControlText(control);
            write!(text, "* {control}")?;
            Ok(())
        }
    }
}

/// Adds the words of a command without its session. After an error the text may end with a part of them.
pub fn push_command(text: &mut String, command: Command) -> Result<(), NoMemory>
    ensures { OnOk result (string_bytes text.new ≡ string_bytes text.old ++ joined (phrase_words (command_phrase command))) }
{
    match command {
        Command::New {
            slot,
            references,
            numbers,
        } => push_three(text, "new ", slot, references, u64::from(numbers)),
        Command::Get {
            slot,
            source,
            field,
        } => push_three(text, "get ", slot, source, u64::from(field)),
        Command::Put { slot, field, value } => {
            push_three(text, "put ", slot, field, u64::from(value))
        }
        Command::Copy { slot, source } => push_two(text, "copy ", slot, u64::from(source)),
        Command::Clear { slot } => push_number(text, "clear ", u64::from(slot)),
        Command::Read { slot, index } => push_two(text, "read ", slot, u64::from(index)),
        Command::Write {
            slot,
            index,
            number,
        } => push_three(text, "write ", slot, index, number),
        Command::Same { left, right } => push_two(text, "same ", left, u64::from(right)),
        Command::Shape { slot } => push_number(text, "shape ", u64::from(slot)),
        Command::Post { board, slot } => push_two(text, "post ", board, u64::from(slot)),
        Command::Take { slot, board } => push_two(text, "take ", slot, u64::from(board)),
        Command::End => {
            text.push_str("end")?;
            Ok(())
        }
    }
}

/// Adds a word and the three numbers after it.
fn push_three(
    text: &mut String,
    word: &str,
    first: u32,
    second: u32,
    third: u64,
) -> Result<(), NoMemory>
    ensures { OnOk result (string_bytes text.new ≡ string_bytes text.old ++ (word.now ++ joined (map decimal (first ∷ second ∷ third ∷ [])))) }
{
    push_number(text, word, u64::from(first))?;
    push_number(text, " ", u64::from(second))?;
    push_number(text, " ", third)
}

/// Adds a word and the two numbers after it.
fn push_two(text: &mut String, word: &str, first: u32, second: u64) -> Result<(), NoMemory>
    ensures { OnOk result (string_bytes text.new ≡ string_bytes text.old ++ (word.now ++ joined (map decimal (first ∷ second ∷ [])))) }
{
    push_number(text, word, u64::from(first))?;
    push_number(text, " ", second)
}

/// Adds a number with what stands before it.
fn push_number(text: &mut String, before: &str, number: u64) -> Result<(), NoMemory>
    ensures { OnOk result (string_bytes text.new ≡ string_bytes text.old ++ (before.now ++ decimal number)) }
{
    text.push_str(before)?;
    text.push_str(Buffer::new().format(number))?;
    Ok(())
}

/// Adds the text of a reply. After an error the text may end with a part of it.
#[inline(always)]
pub fn push_reply(text: &mut String, reply: &Reply) -> Result<(), NoMemory>
    ensures { OnOk result (string_bytes text.new ≡ string_bytes text.old ++ reply_text reply.now) }
{
    match reply {
        Reply::Done => text.push_str("ok")?,
        Reply::Yes => text.push_str("yes")?,
        Reply::No => text.push_str("no")?,
        Reply::Number(number) => push_number(text, "number ", *number)?,
        Reply::Shape(shape) => {
            push_number(text, "shape ", u64::from(shape.references))?;
            push_number(text, " ", u64::from(shape.numbers))?;
        }
        _ => {
            let reply = ReplyText(reply);
            write!(text, "{reply}")?;
        }
    }
    Ok(())
}
