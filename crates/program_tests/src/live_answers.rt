//! Answers to lines while memory is refused.
use crate::program::launch;
use std::alloc::{AllocError, Global};
use std::sync::Wait;
use std::thread::Threads;
use test_support::environment::Words;

/// What a line is answered for which memory was refused.
const STARVED: &[u8] = b"refused 9 no memory\n";

/// Whether memory was refused for a line.
pub fn has_starved(answers: &[u8]) -> bool {
    answers
        .split_inclusive(|byte| *byte == b'\n')
        .any(|answer| answer == STARVED)
}

/// How many lines were answered as outside the grammar.
pub fn refused_in(answers: &[u8]) -> usize {
    answers
        .split_inclusive(|byte| *byte == b'\n')
        .filter(|answer| answer.starts_with(b"refused 10 "))
        .count()
}

/// What a text is answered with all memory there, if the status is 0.
pub fn answers_to<R: Threads + Wait + Sync>(
    rt: &R,
    alloc: Global,
    words: &[&[u8]],
    text: &[u8],
) -> Option<Vec<u8>> {
    let mut answers = Vec::new(alloc);
    let mut told = Vec::new(alloc);
    match launch(rt, alloc, &Words(words), text, &mut answers, &mut told) {
        0 => Some(answers),
        _ => None,
    }
}

/// The answers but those for refused memory.
fn without_starved(alloc: Global, answers: &[u8]) -> Result<Vec<u8>, AllocError> {
    let mut left = Vec::new(alloc);
    for answer in answers.split_inclusive(|byte| *byte == b'\n') {
        if answer != STARVED {
            left.extend_from_slice(answer)?;
        }
    }
    Ok(left)
}

/// The text with a comment in the place of each line for which memory was refused. Each line has an answer, but for the
/// configuration, which is the first, if it was taken.
fn without_starved_lines(
    alloc: Global,
    text: &[u8],
    answers: &[u8],
    has_config: bool,
) -> Result<Vec<u8>, AllocError> {
    let mut lines = text.split_inclusive(|byte| *byte == b'\n');
    let mut left = Vec::new(alloc);
    if has_config {
        left.extend_from_slice(lines.next().unwrap_or(b""))?;
    }
    for answer in answers.split_inclusive(|byte| *byte == b'\n') {
        let line = lines.next().unwrap_or(b"");
        left.extend_from_slice(if answer == STARVED { b"#\n" } else { line })?;
    }
    Ok(left)
}

/// Whether the answers but those for refused memory are what the other lines are answered, as if there were no more lines.
pub fn are_right<R: Threads + Wait + Sync>(
    rt: &R,
    alloc: Global,
    words: &[&[u8]],
    text: &[u8],
    answers: &[u8],
    has_config: bool,
) -> Result<bool, AllocError> {
    let lines = without_starved_lines(alloc, text, answers, has_config)?;
    let left = without_starved(alloc, answers)?;
    let right = answers_to(rt, alloc, words, lines.as_slice());
    Ok(right.is_some_and(|right| right.as_slice() == left.as_slice()))
}
