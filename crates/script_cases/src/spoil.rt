use crate::answer::refusal;
use crate::lines::line_count;
use crate::report::Report;
use crate::trial::{Trial, try_bytes};
use anyhow::{Context, Result};
use std::alloc::{AllocError, Global};
use std::sync::Wait;
use std::thread::Threads;

/// Whether a text ends inside of a comment.
fn is_in_comment(text: &[u8]) -> bool {
    match text.rsplit(|byte| *byte == b'\n').next() {
        Some(line) => line.starts_with(b"#"),
        None => false,
    }
}

/// The text with another byte after so many.
fn with_byte(alloc: Global, text: &[u8], at: usize, byte: u8) -> Result<Vec<u8>, AllocError> {
    let mut spoiled = Vec::new(alloc);
    for (place, old) in text.iter().enumerate() {
        spoiled.push(if place == at { byte } else { *old })?;
    }
    Ok(spoiled)
}

/// Makes the call on the text with another byte at one place. If that stands in a comment, nothing changes.
fn spoil_at<R: Threads + Wait + Sync>(
    rt: &R,
    trial: &Trial<'_>,
    at: usize,
    byte: u8,
    report: &mut Report,
) -> Result<()> {
    let text = trial.first.as_slice();
    let spoiled = with_byte(trial.alloc, text, at, byte)?;
    let before = &text[..at.min(text.len())];
    if is_in_comment(before) {
        return try_bytes(rt, trial, spoiled.as_slice(), &trial.case.answer, report);
    }
    let refused = refusal(trial.alloc, line_count(before).saturating_add(1))?;
    try_bytes(rt, trial, spoiled.as_slice(), &refused, report)
}

fn spoil_each<R: Threads + Wait + Sync>(
    rt: &R,
    trial: &Trial<'_>,
    byte: u8,
    report: &mut Report,
) -> Result<()> {
    for at in 0..trial.first.len() {
        spoil_at(rt, trial, at, byte, report)?;
    }
    Ok(())
}

/// Makes the call on the text with each byte in turn replaced by each other byte.
pub fn spoil_text<R: Threads + Wait + Sync>(
    rt: &R,
    trial: &Trial<'_>,
    report: &mut Report,
) -> Result<()> {
    for other in &trial.deed.others {
        let byte = *other.first().context("no byte spoils the text")?;
        spoil_each(rt, trial, byte, report)?;
    }
    Ok(())
}
