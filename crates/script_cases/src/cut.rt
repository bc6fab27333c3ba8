use crate::answer::{Answer, first_bad, legal, refusal};
use crate::lines::{first_lines, line_count, said_count};
use crate::report::Report;
use crate::trial::{Trial, try_bytes};
use anyhow::Result;
use std::alloc::{AllocError, Global};
use std::str;
use std::sync::Wait;
use std::thread::Threads;

/// The number of a line of these words.
fn number_after(line: &[u8], words: &[u8]) -> Option<usize> {
    let digits = line.strip_prefix(words)?.strip_suffix(b"\n")?;
    str::from_utf8(digits).ok()?.parse::<usize>().ok()
}

/// The answer to whole lines of which so many say something, if the answer to all lines decides it. That a text is refused
/// doesn't show what its first lines are answered, nor does a history that isn't legal show what they are migrated to.
fn answer_to_lines(
    alloc: Global,
    line: &[u8],
    whole: &Answer,
    said: usize,
) -> Result<Option<Answer>, AllocError> {
    let output = whole.output.as_slice();
    let entries = said.saturating_sub(1);
    if whole.status == 1 && entries > 0 {
        return Ok(None);
    }
    if line.starts_with(b"run") {
        let replies = first_lines(alloc, output, entries)?;
        return Ok(Some(Answer::new(alloc, 0, replies)));
    }
    if line.starts_with(b"race") {
        let mut audited = legal(alloc, entries)?;
        audited.is_audited = true;
        return Ok(Some(audited));
    }
    match number_after(output, b"first bad ") {
        Some(bad) if bad <= entries => return Ok(Some(first_bad(alloc, bad)?)),
        _ => {}
    }
    if !line.starts_with(b"migrate") {
        return Ok(Some(legal(alloc, entries)?));
    }
    if whole.status != 0 {
        return Ok(None);
    }
    let migrated = first_lines(alloc, output, said)?;
    Ok(Some(Answer::new(alloc, 0, migrated)))
}

/// The answer to a text that is cut, which the lines that are left decide.
fn answer_to_cut(
    alloc: Global,
    line: &[u8],
    whole: &Answer,
    cut: &[u8],
) -> Result<Option<Answer>, AllocError> {
    let lines = line_count(cut);
    match number_after(whole.output.as_slice(), b"refused 10 line ") {
        Some(refused) if refused <= lines => return Ok(Some(refusal(alloc, refused)?)),
        _ => {}
    }
    let said = said_count(cut);
    if said == 0 || !cut.ends_with(b"\n") {
        return Ok(Some(refusal(alloc, lines.saturating_add(1))?));
    }
    answer_to_lines(alloc, line, whole, said)
}

/// Makes the call on the text cut after each byte.
pub fn cut_text<R: Threads + Wait + Sync>(
    rt: &R,
    trial: &Trial<'_>,
    report: &mut Report,
) -> Result<()> {
    let text = trial.first.as_slice();
    for end in 0..=text.len() {
        let cut = &text[..end];
        let answer = answer_to_cut(trial.alloc, trial.line.as_slice(), &trial.case.answer, cut)?;
        if let Some(answer) = answer {
            try_bytes(rt, trial, cut, &answer, report)?;
        }
    }
    Ok(())
}
