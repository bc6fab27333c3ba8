//! One event of a run: what it was, what it did, and the roots that it changed. It is added as rows of numbers,
//! exactly those of its account: its units, its deeds, these roots, and its quantum.
ghost use Rattle.std.specs.{Prelude.{◌≡◌, ◌++◌, if◌then◌else◌, codes, decimal, length, OnOk}, String.string_bytes};
ghost use Rattle.mh_model.specs.{Bytes.joined, HistoryTexts.event_words, Replies.reply_text};
ghost use Rattle.mh_deeds.specs.Accounts.{account_in};
ghost use Rattle.mh_tell_show.specs.{Page.{ran_text, shown_text}, Rows.{listed, root_rows, row_text}};

use crate::rows::{place_number, push_deeds, push_row};
use itoa::Buffer;
use mh_deeds::account::Account;
use mh_history::measured_line::{push_event, push_reply};
use mh_model::history::Measured;
use mh_model::memory::NoMemory;
use mh_model::place::Place;

/// Adds a row for each root slot that isn't the same before and after.
pub(crate) fn push_roots(
    text: &mut String,
    before: &[Option<Place>],
    after: &[Option<Place>],
) -> Result<(), NoMemory>
    requires { length before.now ≡ length after.now }
    ensures { OnOk result (string_bytes text.new ≡ string_bytes text.old ++ listed row_text (root_rows 0 before.now after.now)) }
{
    text.push_str("[")?;
    for slot in 0..after.len() {
        if before[slot] != after[slot] {
            push_row(text, slot as u64, &[place_number(after[slot])])?;
            text.push_str(",")?;
        }
    }
    text.push_str("0]")?;
    Ok(())
}

/// Adds the quantum that an event ran, if it ran one.
fn push_ran(text: &mut String, is_whole: bool, account: &Account) -> Result<(), NoMemory>
    ensures { OnOk result (string_bytes text.new ≡ string_bytes text.old ++ ran_text is_whole (account_in account.now).quantum) }
{
    let Some(ended) = account.quantum else {
        text.push_str("0")?;
        return Ok(());
    };
    text.push_str("[")?;
    text.push_str(Buffer::new().format(ended.units.0))?;
    text.push_str(",")?;
    text.push_str(Buffer::new().format(ended.phase.number()))?;
    text.push_str(",")?;
    push_deeds(text, is_whole, account.ran.deeds())?;
    text.push_str("]")?;
    Ok(())
}

fn whole_mark(is_whole: bool) -> &'static str
    ensures { result.now ≡ codes (if is_whole then ",1," else ",0,") }
{
    if is_whole { ",1," } else { ",0," }
}

/// Adds what an event was, its reply and its units, up to what it did.
fn push_measured(text: &mut String, is_whole: bool, measured: &Measured) -> Result<(), NoMemory>
    ensures { OnOk result (string_bytes text.new ≡ string_bytes text.old ++ (codes "[\"" ++ (joined (event_words measured.now.entry.event) ++ (codes "\",\"" ++ (reply_text measured.now.entry.reply ++ (codes "\"," ++ (decimal measured.now.mutator ++ codes (if is_whole then ",1," else ",0,")))))))) }
{
    text.push_str("[\"")?;
    push_event(text, measured.entry.event)?;
    text.push_str("\",\"")?;
    push_reply(text, &measured.entry.reply)?;
    text.push_str("\",")?;
    text.push_str(Buffer::new().format(measured.mutator))?;
    text.push_str(whole_mark(is_whole))?;
    Ok(())
}

/// Adds an event. After an error the text may end with a part of it.
pub fn push_shown(
    text: &mut String,
    is_whole: bool,
    measured: &Measured,
    account: &Account,
    before: &[Option<Place>],
    after: &[Option<Place>],
) -> Result<(), NoMemory>
    requires { length before.now ≡ length after.now }
    ensures { OnOk result (string_bytes text.new ≡ string_bytes text.old ++ shown_text is_whole (record { measured = measured.now; account = account_in account.now; before = before.now; after = after.now })) }
{
    push_measured(text, is_whole, measured)?;
    push_deeds(text, is_whole, account.command.deeds())?;
    text.push_str(",")?;
    push_roots(text, before, after)?;
    text.push_str(",")?;
    push_ran(text, is_whole, account)?;
    text.push_str("]")?;
    Ok(())
}
