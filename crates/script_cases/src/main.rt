//! Tries the cases of the files that its words name: what the program writes, reports and answers on texts.
//!
//! A line that begins with `%` is a heading, and the lines under it are its own, each with its end. In headings and lines
//! `\xNN` is the byte of these two hexadecimal digits, and after a line that ends with `\` there is no end of a line.
//!
//! | heading | |
//! |---|---|
//! | `% list NAME` | the words of a list, one a line, for the cases below |
//! | `%% TITLE` | begins a case; what is called before the first one is called in each case of the file |
//! | `% call WORDS` | the program is called with these words on the case's text; `""` is a word of no bytes |
//! | `% cut WORDS` | it is called on the text cut after each byte, and answers what the lines that are left decide |
//! | `% spoil LIST WORDS` | it is called on the text with each byte in turn replaced by each byte of a list: the line is refused, but in a comment nothing changes |
//! | `% alter PART bad LIST WORDS` | it is called on the text, a legal history, with the `reply`, or the units of the `mutator` or of the `collector`, of each entry in turn replaced by each word of a list that differs: the entry is the first that is bad |
//! | `% alter PART refused LIST WORDS` | the same with words that refuse the entry's line |
//! | `% from N` | the first entry that is altered, counted from 1 |
//! | `% place PLACE`, `% places LIST`, `% word WORD`, `% words LIST` | each place in turn fills the holes `{}` of the calls and of the text, and then each word the holes that are left |
//! | `% text` | the text |
//! | `% times N` | these lines are added N times to the text or the output above |
//! | `% filled N` | the byte below is added so often that the text has N bytes |
//! | `% then` | these lines are added after that |
//! | `% answer STATUS` | the status, and the output; of status 2 nothing is read |
//! | `% audited` | the status is 0, and these lines are what `audit` writes of the output |
//! | `% holds` | a line that the output has |
//! | `% errors`, `% errors begin` | what standard error gets, or how that begins; if neither stands, a line for each refused line and for a bad entry, which names it |
//!
//! Types that own many texts have a `drop` of their own, which takes them apart: who owns one proves one call if it is dropped.
#![tactic(auto)]

mod alter;
mod answer;
mod call;
mod case;
mod cut;
mod deed;
mod entry;
mod escape;
mod fill;
mod input;
mod lines;
mod list;
mod reader;
mod report;
mod spoil;
mod told;
mod trial;

use crate::reader::read_cases;
use crate::report::Report;
use crate::trial::try_cases;
use anyhow::Result;
use std::sync::Wait;
use std::thread::Threads;
use std::{env, fs};

/// Tries the cases of one file, and reports how many calls there were and which of them were wrong.
fn try_file<R: Threads + Wait + Sync>(rt: &HostRuntime, threads: &R, name: &str) -> Result<()> {
    let text = fs::read_to_string(rt, name)?;
    let cases = read_cases(rt.alloc(), text.as_str())?;
    let mut report = Report::new(rt.alloc());
    try_cases(threads, rt.alloc(), cases.as_slice(), &mut report)?;
    print!(rt; "{name}: {report}")?;
    Ok(())
}

fn main(rt: HostRuntime) -> Result<()> {
    for name in env::args(&rt)?.skip(1) {
        try_file(&rt, &rt, name.as_str())?;
    }
    Ok(())
}
