use crate::answer::{Answer, first_bad, refusal};
use crate::entry::{Entry, Field};
use crate::lines::{lines_of, without_end};
use crate::report::Report;
use crate::trial::{Trial, try_bytes};
use anyhow::{Context, Result};
use std::alloc::{AllocError, Global};
use std::sync::Wait;
use std::thread::Threads;

/// The text of these lines with another one at one place.
fn with_line(
    alloc: Global,
    lines: &[&[u8]],
    index: usize,
    other: &[u8],
) -> Result<Vec<u8>, AllocError> {
    let mut text = Vec::new(alloc);
    for (number, line) in lines.iter().enumerate() {
        text.extend_from_slice(if number == index { other } else { line })?;
    }
    Ok(text)
}

/// Makes the call on the history with another entry at one place.
fn try_entry<R: Threads + Wait + Sync>(
    rt: &R,
    trial: &Trial<'_>,
    lines: &[&[u8]],
    index: usize,
    entry: Entry<'_>,
    answer: &Answer,
    report: &mut Report,
) -> Result<()> {
    let line = entry.line(trial.alloc)?;
    let text = with_line(trial.alloc, lines, index, line.as_slice())?;
    try_bytes(rt, trial, text.as_slice(), answer, report)
}

/// Makes the call with each other word in the place of a field of one entry.
fn alter_entry<R: Threads + Wait + Sync>(
    rt: &R,
    trial: &Trial<'_>,
    lines: &[&[u8]],
    index: usize,
    field: Field,
    answer: &Answer,
    report: &mut Report,
) -> Result<()> {
    let line = lines.get(index).context("no entry is there")?;
    let entry = Entry::read(without_end(line)).context("an entry is none")?;
    for word in &trial.deed.others {
        let word = word.as_slice();
        if word != entry.field(field) {
            try_entry(
                rt,
                trial,
                lines,
                index,
                entry.with(field, word),
                answer,
                report,
            )?;
        }
    }
    Ok(())
}

/// Makes the call on the history with each entry in turn altered. The first line is that of the history.
pub fn alter_entries<R: Threads + Wait + Sync>(
    rt: &R,
    trial: &Trial<'_>,
    field: Field,
    is_refused: bool,
    report: &mut Report,
) -> Result<()> {
    let lines = lines_of(trial.alloc, trial.first.as_slice())?;
    for index in trial.case.from..lines.len() {
        let answer = if is_refused {
            refusal(trial.alloc, index.saturating_add(1))?
        } else {
            first_bad(trial.alloc, index)?
        };
        alter_entry(rt, trial, lines.as_slice(), index, field, &answer, report)?;
    }
    Ok(())
}
