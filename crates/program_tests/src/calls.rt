//! Calls of the program that may be refused memory.
use crate::cases::AUDIT;
use crate::comparing::Comparing;
use crate::live_answers::{answers_to, are_right, has_starved, refused_in};
use crate::program::{Errors, Silent, SystemArguments, launch, line_order, serve, words};
use mh_text::sink::StdSink;
use mh_text::source::StdSource;
use std::alloc::{AllocError, Global};
use std::io::Write;
use std::str;
use std::sync::Wait;
use std::thread::Threads;
use test_support::environment::Words;
use test_support::famine::Famine;
use test_support::gates::Watch;

/// What is right to write.
#[derive(Clone, Copy)]
pub enum Wanted<'a> {
    Output(&'a [u8]),
    /// A legal history of so many entries.
    History(u64),
    /// So many answers to lines, each of them to one line more. Those for refused memory change nothing.
    Answers(usize),
}

/// What standard error gets if the program isn't refused memory.
#[derive(Clone, Copy)]
pub enum Told<'a> {
    Nothing,
    /// One line, or another if there is no memory for it.
    Line { reason: &'a [u8], other: &'a [u8] },
    /// A line for each that is answered as outside the grammar.
    Refusals,
}

/// When the words of a command line are read.
#[derive(Clone, Copy)]
pub enum Reading {
    /// Before memory is refused.
    Before,
    Within,
}

/// A command line, a text on standard input, and what is right for them.
#[derive(Clone, Copy)]
pub struct Call<'a> {
    pub words: &'a [&'a [u8]],
    pub text: &'a [u8],
    pub wanted: Wanted<'a>,
    pub told: Told<'a>,
    pub status: u8,
    pub reading: Reading,
}

/// How a call came out.
#[derive(Clone, Copy, Debug, PartialEq, Eq)]
pub enum Outcome {
    Right,
    /// Refused memory was reported, and so many bytes were written, which are a prefix of what is right.
    Refused(usize),
    Wrong,
}

/// How the program ended.
#[derive(Clone, Copy)]
enum Ending {
    /// With this status, and what is then to be told.
    Quiet(u8),
    /// For refused memory, which was reported.
    NoMemory,
    Other,
}

const NO_MEMORY: &[u8] = b"metroheap: no memory\n";

/// So many bytes are enough for the words of a command line, and to judge a history or answers.
const ENOUGH: usize = 1 << 22;

/// The history of one race is not longer, nor what is reported.
const MOST_BYTES: usize = 2_048;

/// Does what a command line asks for, whose words are read before all but so many bytes are taken.
fn serve_with<R: Threads + Wait + Sync, W: Write + Drop>(
    rt: &R,
    alloc: Global,
    famine: &mut Famine,
    left: usize,
    call: &Call<'_>,
    output: W,
    errors: &mut Vec<u8>,
) -> Result<u8, AllocError> {
    famine.leave(ENOUGH)?;
    let order = line_order(alloc, words(&SystemArguments(&Words(call.words)), alloc));
    let mut source = StdSource::new(call.text);
    let mut sink = StdSink::new(output);
    let mut errors = Errors::new(alloc, StdSink::new(errors));
    let is_left = famine.leave(left);
    let status = serve(
        rt,
        alloc,
        order,
        &mut source,
        &mut sink,
        &mut errors,
        &Watch::new(0),
        &mut Silent,
    );
    is_left?;
    Ok(status)
}

/// The number of entries of a history, if this is the verdict that it is legal.
fn number_in(verdict: &[u8]) -> Option<u64> {
    let number = verdict.strip_prefix(b"legal ")?.strip_suffix(b"\n")?;
    str::from_utf8(number).ok()?.parse().ok()
}

/// The number of entries of a legal history.
fn legal_entries<R: Threads + Wait + Sync>(rt: &R, alloc: Global, history: &[u8]) -> Option<u64> {
    number_in(answers_to(rt, alloc, AUDIT, history)?.as_slice())
}

fn lines_in(text: &[u8]) -> usize {
    text.iter().filter(|byte| **byte == b'\n').count()
}

/// Whether a line was told for each that was answered as outside the grammar, and one more at the end if memory was refused.
fn is_told(answers: &[u8], told: &[u8], ending: Ending) -> bool {
    let refused = refused_in(answers);
    match ending {
        Ending::NoMemory => lines_in(told) == refused.wrapping_add(1),
        _ => lines_in(told) == refused,
    }
}

/// How a call whose answers are right came out, if so many answers are all.
fn answered(ending: Ending, answers: &[u8], count: usize) -> Outcome {
    let lines = lines_in(answers);
    match ending {
        Ending::Quiet(0) if lines == count && !has_starved(answers) => Outcome::Right,
        Ending::Quiet(0) if lines >= count => Outcome::Refused(answers.len()),
        Ending::NoMemory => Outcome::Refused(answers.len()),
        _ => Outcome::Wrong,
    }
}

/// What the program wrote, and what it told.
#[derive(Drop)]
struct Written {
    output: Vec<u8>,
    told: Vec<u8>,
}

impl Written {
    fn with_room(alloc: Global) -> Result<Written, AllocError> {
        Ok(Written {
            output: Vec::with_capacity(alloc, MOST_BYTES)?,
            told: Vec::with_capacity(alloc, MOST_BYTES)?,
        })
    }
}

impl<'a> Call<'a> {
    /// A call of which this is written, and nothing is reported.
    pub fn known(words: &'a [&'a [u8]], text: &'a [u8], output: &'a [u8]) -> Call<'a> {
        Call {
            words,
            text,
            wanted: Wanted::Output(output),
            told: Told::Nothing,
            status: 0,
            reading: Reading::Before,
        }
    }

    /// How the program ended with this status and this on standard error.
    fn ending(&self, status: u8, told: &[u8]) -> Ending {
        if status == 3 && told == NO_MEMORY {
            return Ending::NoMemory;
        }
        let is_right = match self.told {
            Told::Nothing => told.is_empty(),
            Told::Line { reason, other } => told == reason || told == other,
            Told::Refusals => true,
        };
        match (is_right, self.told) {
            (true, Told::Refusals) if status == 3 && told.ends_with(NO_MEMORY) => Ending::NoMemory,
            (true, _) => Ending::Quiet(status),
            _ => Ending::Other,
        }
    }

    /// The program with so many bytes left, and with room for what it tells.
    fn carry_out<R: Threads + Wait + Sync, W: Write + Drop>(
        &self,
        rt: &R,
        alloc: Global,
        famine: &mut Famine,
        left: usize,
        output: W,
        told: &mut Vec<u8>,
    ) -> Result<Ending, AllocError> {
        let status = match self.reading {
            Reading::Before => serve_with(rt, alloc, famine, left, self, output, told)?,
            Reading::Within => {
                famine.leave(left)?;
                let words = Words(self.words);
                launch(rt, alloc, &words, self.text, output, &mut *told)
            }
        };
        Ok(self.ending(status, told.as_slice()))
    }

    /// A call whose output is known.
    fn compare<R: Threads + Wait + Sync>(
        &self,
        rt: &R,
        alloc: Global,
        famine: &mut Famine,
        left: usize,
        output: &[u8],
    ) -> Result<Outcome, AllocError> {
        famine.leave(ENOUGH)?;
        let mut told = Vec::with_capacity(alloc, MOST_BYTES)?;
        let mut output = Comparing::new(output);
        let ending = self.carry_out(rt, alloc, famine, left, &mut output, &mut told)?;
        Ok(match (ending, output.begun()) {
            (Ending::Quiet(status), Some(_)) if status == self.status && output.is_whole() => {
                Outcome::Right
            }
            (Ending::NoMemory, Some(written)) => Outcome::Refused(written),
            _ => Outcome::Wrong,
        })
    }

    /// The program with so many bytes left, and with enough again at its end.
    fn write_into<R: Threads + Wait + Sync>(
        &self,
        rt: &R,
        alloc: Global,
        famine: &mut Famine,
        left: usize,
        written: &mut Written,
    ) -> Result<Ending, AllocError> {
        let Written { output, told } = written;
        let ending = self.carry_out(rt, alloc, famine, left, output, told)?;
        famine.leave(ENOUGH)?;
        Ok(ending)
    }

    /// A call whose history is judged when there is memory again: it has all entries, or for refused memory some or none.
    fn judge<R: Threads + Wait + Sync>(
        &self,
        rt: &R,
        alloc: Global,
        famine: &mut Famine,
        left: usize,
        entries: u64,
    ) -> Result<Outcome, AllocError> {
        famine.leave(ENOUGH)?;
        let mut written = Written::with_room(alloc)?;
        let ending = self.write_into(rt, alloc, famine, left, &mut written)?;
        let legal = legal_entries(rt, alloc, written.output.as_slice());
        Ok(match (ending, legal) {
            (Ending::Quiet(status), Some(count)) if status == self.status && count == entries => {
                Outcome::Right
            }
            (Ending::NoMemory, Some(count)) if count <= entries => {
                Outcome::Refused(written.output.len())
            }
            (Ending::NoMemory, None) if written.output.is_empty() => Outcome::Refused(0),
            _ => Outcome::Wrong,
        })
    }

    /// How a call came out that is to give so many answers.
    fn followed<R: Threads + Wait + Sync>(
        &self,
        rt: &R,
        alloc: Global,
        ending: Ending,
        written: &Written,
        count: usize,
    ) -> Result<Outcome, AllocError> {
        let answers = written.output.as_slice();
        let is_right = are_right(rt, alloc, self.words, self.text, answers, true)?
            || are_right(rt, alloc, self.words, self.text, answers, false)?;
        if is_right && is_told(answers, written.told.as_slice(), ending) {
            Ok(answered(ending, answers, count))
        } else {
            Ok(Outcome::Wrong)
        }
    }

    /// A call whose answers are judged when there is memory again.
    fn follow<R: Threads + Wait + Sync>(
        &self,
        rt: &R,
        alloc: Global,
        famine: &mut Famine,
        left: usize,
        count: usize,
    ) -> Result<Outcome, AllocError> {
        famine.leave(ENOUGH)?;
        let mut written = Written::with_room(alloc)?;
        let ending = self.write_into(rt, alloc, famine, left, &mut written)?;
        self.followed(rt, alloc, ending, &written, count)
    }

    /// Makes the call with so many bytes left.
    pub fn attempt<R: Threads + Wait + Sync>(
        &self,
        rt: &R,
        alloc: Global,
        famine: &mut Famine,
        left: usize,
    ) -> Result<Outcome, AllocError> {
        match self.wanted {
            Wanted::Output(output) => self.compare(rt, alloc, famine, left, output),
            Wanted::History(entries) => self.judge(rt, alloc, famine, left, entries),
            Wanted::Answers(count) => self.follow(rt, alloc, famine, left, count),
        }
    }
}
