use crate::answer::Answer;
use crate::deed::{Deed, read_deed};
use crate::escape::unescaped;
use crate::list::{List, push_list};
use anyhow::{Context, Result, bail};
use std::alloc::{AllocError, Global};

/// An input: some bytes, one byte so often that there are `size` bytes with all others, and the last bytes.
#[derive(Drop)]
pub struct Text {
    pub first: Vec<u8>,
    pub byte: u8,
    pub size: usize,
    pub last: Vec<u8>,
}

/// Where lines go.
#[derive(Clone, Copy)]
enum Part {
    First,
    Last,
    Output,
    Held,
    Errors,
}

pub struct Case {
    alloc: Global,
    part: Part,
    pub title: String,
    pub deeds: Vec<Deed>,
    pub places: Vec<Vec<u8>>,
    pub words: Vec<Vec<u8>>,
    /// The first entry that is altered.
    pub from: usize,
    pub text: Text,
    pub answer: Answer,
}

impl Drop for Case {
    fn drop(self) {
        let Case {
            alloc: _,
            part: _,
            title: _,
            deeds: _,
            places: _,
            words: _,
            from: _,
            text: _,
            answer: _,
        } = self;
    }
}

fn number(word: &str) -> Result<usize> {
    word.parse::<usize>().context("a heading has no number")
}

impl Case {
    pub fn new(alloc: Global, title: &str) -> Result<Case, AllocError> {
        Ok(Case {
            alloc,
            part: Part::First,
            title: title.to_string(alloc)?,
            deeds: Vec::new(alloc),
            places: Vec::new(alloc),
            words: Vec::new(alloc),
            from: 1,
            text: Text {
                first: Vec::new(alloc),
                byte: 0,
                size: 0,
                last: Vec::new(alloc),
            },
            answer: Answer::new(alloc, 0, Vec::new(alloc)),
        })
    }

    /// Takes what stands in a heading and under it.
    pub fn add(&mut self, lists: &[List], keyword: &str, rest: &str, body: &[u8]) -> Result<()> {
        match keyword {
            "call" | "cut" | "spoil" | "alter" => self.add_deed(lists, keyword, rest),
            "place" | "places" | "word" | "words" => self.add_words(lists, keyword, rest),
            "answer" | "audited" | "holds" | "errors" => self.add_answer(keyword, rest, body),
            _ => self.add_text(keyword, rest, body),
        }
    }

    fn add_deed(&mut self, lists: &[List], keyword: &str, rest: &str) -> Result<()> {
        let deed = read_deed(self.alloc, lists, keyword, rest)?;
        self.deeds.push(deed)?;
        Ok(())
    }

    fn add_words(&mut self, lists: &[List], keyword: &str, rest: &str) -> Result<()> {
        match keyword {
            "place" => self.places.push(unescaped(self.alloc, rest)?)?,
            "word" => self.words.push(unescaped(self.alloc, rest)?)?,
            "places" => push_list(&mut self.places, self.alloc, lists, rest)?,
            _ => push_list(&mut self.words, self.alloc, lists, rest)?,
        }
        Ok(())
    }

    fn add_answer(&mut self, keyword: &str, rest: &str, body: &[u8]) -> Result<()> {
        match keyword {
            "holds" => self.part = Part::Held,
            "errors" => {
                self.part = Part::Errors;
                self.answer.errors_go_on = rest == "begin";
            }
            "audited" => {
                self.part = Part::Output;
                self.answer.is_audited = true;
            }
            _ => {
                self.part = Part::Output;
                self.answer.status = number(rest)?.min(255) as u8;
            }
        }
        self.put(body)
    }

    fn add_text(&mut self, keyword: &str, rest: &str, body: &[u8]) -> Result<()> {
        match keyword {
            "text" => {
                self.part = Part::First;
                self.put(body)
            }
            "then" => self.put(body),
            "times" => self.put_times(number(rest)?, body),
            "filled" => self.fill(number(rest)?, body),
            "from" => {
                self.from = number(rest)?;
                Ok(())
            }
            _ => bail!("no heading begins with `{keyword}`"),
        }
    }

    fn put_times(&mut self, times: usize, lines: &[u8]) -> Result<()> {
        for _ in 0..times {
            self.put(lines)?;
        }
        Ok(())
    }

    fn fill(&mut self, size: usize, lines: &[u8]) -> Result<()> {
        self.part = Part::Last;
        self.text.size = size;
        self.text.byte = *lines.first().context("no byte fills the text")?;
        Ok(())
    }

    fn put(&mut self, lines: &[u8]) -> Result<()> {
        let put = match self.part {
            Part::First => self.text.first.extend_from_slice(lines),
            Part::Last => self.text.last.extend_from_slice(lines),
            Part::Output => self.answer.output.extend_from_slice(lines),
            Part::Held => self.answer.held.extend_from_slice(lines),
            Part::Errors => self.answer.errors.extend_from_slice(lines),
        };
        Ok(put?)
    }
}
