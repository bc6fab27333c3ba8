//! Cases that are tried: their holes filled, and their calls made.
use crate::alter::alter_entries;
use crate::answer::Answer;
use crate::call::{Written, call};
use crate::case::Case;
use crate::cut::cut_text;
use crate::deed::{Deed, Variation};
use crate::fill::filled;
use crate::input::Input;
use crate::lines::has_line;
use crate::report::Report;
use crate::spoil::spoil_text;
use crate::told::is_told;
use anyhow::Result;
use std::alloc::Global;
use std::sync::Wait;
use std::thread::Threads;

/// A call of a case, with its words and the beginning of the text as they are filled.
pub struct Trial<'a> {
    pub alloc: Global,
    pub case: &'a Case,
    pub deed: &'a Deed,
    pub line: Vec<u8>,
    pub first: Vec<u8>,
}

impl Drop for Trial<'_> {
    fn drop(self) {
        let Trial {
            alloc: _,
            case: _,
            deed: _,
            line: _,
            first: _,
        } = self;
    }
}

/// Whether `audit` finds the history legal, and writes this of it.
fn is_audited<R: Threads + Wait + Sync>(
    rt: &R,
    alloc: Global,
    history: &[u8],
    wanted: &[u8],
) -> Result<bool> {
    let audited = call(rt, alloc, b"audit", Input::bytes(history))?;
    Ok(audited.status == 0 && audited.output.as_slice() == wanted)
}

/// Whether the output is as it should be.
fn is_output<R: Threads + Wait + Sync>(
    rt: &R,
    alloc: Global,
    output: &[u8],
    answer: &Answer,
) -> Result<bool> {
    if answer.is_audited {
        is_audited(rt, alloc, output, answer.output.as_slice())
    } else {
        Ok(output == answer.output.as_slice())
    }
}

/// Whether the line is one of the output, if there is a line.
fn is_held(alloc: Global, output: &[u8], held: &[u8]) -> Result<bool> {
    Ok(held.is_empty() || has_line(alloc, output, held)?)
}

/// Whether standard error has what the answer says. If nothing is said, it has a line for each line of the output that asks for one.
fn are_errors(alloc: Global, written: &Written, answer: &Answer) -> Result<bool> {
    let errors = written.errors.as_slice();
    if answer.errors_go_on {
        Ok(errors.starts_with(answer.errors.as_slice()))
    } else if answer.errors.is_empty() {
        is_told(alloc, written.output.as_slice(), errors)
    } else {
        Ok(errors == answer.errors.as_slice())
    }
}

/// Whether the status is right. If words are refused, nothing may have been read.
fn is_status(written: &Written, status: u8) -> bool {
    written.status == status && !(status == 2 && written.is_read)
}

/// Makes the call on a text, and counts it.
fn try_input<R: Threads + Wait + Sync>(
    rt: &R,
    trial: &Trial<'_>,
    input: Input<'_>,
    answer: &Answer,
    report: &mut Report,
) -> Result<()> {
    let written = call(rt, trial.alloc, trial.line.as_slice(), input)?;
    let output = written.output.as_slice();
    let is_right = is_status(&written, answer.status)
        && are_errors(trial.alloc, &written, answer)?
        && is_held(trial.alloc, output, answer.held.as_slice())?
        && is_output(rt, trial.alloc, output, answer)?;
    report.count(trial, &written, is_right)?;
    Ok(())
}

/// Makes the call on these bytes.
pub fn try_bytes<R: Threads + Wait + Sync>(
    rt: &R,
    trial: &Trial<'_>,
    bytes: &[u8],
    answer: &Answer,
    report: &mut Report,
) -> Result<()> {
    try_input(rt, trial, Input::bytes(bytes), answer, report)
}

/// Makes the call on the case's text.
fn try_whole<R: Threads + Wait + Sync>(
    rt: &R,
    trial: &Trial<'_>,
    report: &mut Report,
) -> Result<()> {
    let first = trial.first.as_slice();
    let text = &trial.case.text;
    let last = text.last.as_slice();
    let times = text
        .size
        .saturating_sub(first.len())
        .saturating_sub(last.len());
    let input = Input::new(first, text.byte, times, last);
    try_input(rt, trial, input, &trial.case.answer, report)
}

fn try_trial<R: Threads + Wait + Sync>(
    rt: &R,
    trial: &Trial<'_>,
    report: &mut Report,
) -> Result<()> {
    match trial.deed.variation {
        Variation::Whole => try_whole(rt, trial, report),
        Variation::Cut => cut_text(rt, trial, report),
        Variation::Spoiled => spoil_text(rt, trial, report),
        Variation::Altered { field, is_refused } => {
            alter_entries(rt, trial, field, is_refused, report)
        }
    }
}

/// What fills holes at this turn; if nothing does, they are left.
fn filling(words: &[Vec<u8>], turn: usize) -> &[u8] {
    match words.get(turn) {
        Some(word) => word.as_slice(),
        None => b"{}",
    }
}

/// Fills the holes that a place has left with each word.
fn try_words<R: Threads + Wait + Sync>(
    rt: &R,
    placed: &Trial<'_>,
    report: &mut Report,
) -> Result<()> {
    let words = placed.case.words.as_slice();
    for turn in 0..words.len().max(1) {
        let word = filling(words, turn);
        let trial = Trial {
            alloc: placed.alloc,
            case: placed.case,
            deed: placed.deed,
            line: filled(placed.alloc, placed.line.as_slice(), word)?,
            first: filled(placed.alloc, placed.first.as_slice(), word)?,
        };
        try_trial(rt, &trial, report)?;
    }
    Ok(())
}

/// Fills the holes of a case with each place.
fn try_places<R: Threads + Wait + Sync>(
    rt: &R,
    alloc: Global,
    case: &Case,
    deed: &Deed,
    report: &mut Report,
) -> Result<()> {
    let places = case.places.as_slice();
    for turn in 0..places.len().max(1) {
        let place = filling(places, turn);
        let placed = Trial {
            alloc,
            case,
            deed,
            line: filled(alloc, deed.words.as_slice(), place)?,
            first: filled(alloc, case.text.first.as_slice(), place)?,
        };
        try_words(rt, &placed, report)?;
    }
    Ok(())
}

fn try_case<R: Threads + Wait + Sync>(
    rt: &R,
    alloc: Global,
    head: &Case,
    case: &Case,
    report: &mut Report,
) -> Result<()> {
    for deed in head.deeds.iter().chain(case.deeds.iter()) {
        try_places(rt, alloc, case, deed, report)?;
    }
    Ok(())
}

/// Tries each case but the first, whose calls are those of all.
pub fn try_cases<R: Threads + Wait + Sync>(
    rt: &R,
    alloc: Global,
    cases: &[Case],
    report: &mut Report,
) -> Result<()> {
    if let Some((head, cases)) = cases.split_first() {
        for case in cases {
            try_case(rt, alloc, head, case, report)?;
        }
    }
    Ok(())
}
