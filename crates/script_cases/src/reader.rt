//! Files of cases, which the head of the program describes.
use crate::case::Case;
use crate::escape::push_line;
use crate::list::List;
use anyhow::{Context, Result};
use std::alloc::Global;

/// A heading, and the lines under it as they are meant.
#[derive(Drop)]
struct Section<'a> {
    heading: &'a str,
    body: Vec<u8>,
}

/// The sections of a file. What stands before its first heading is left out.
fn sections<'a>(alloc: Global, file: &'a str) -> Result<Vec<Section<'a>>> {
    let mut sections = Vec::new(alloc);
    for line in file.lines() {
        match line.strip_prefix('%') {
            Some(heading) => sections.push(Section {
                heading,
                body: Vec::new(alloc),
            })?,
            None => {
                if let Some(section) = sections.last_mut() {
                    push_line(&mut section.body, line.as_bytes())?;
                }
            }
        }
    }
    Ok(sections)
}

struct Reader {
    alloc: Global,
    lists: Vec<List>,
    cases: Vec<Case>,
}

impl Drop for Reader {
    fn drop(self) {
        let Reader {
            alloc: _,
            lists: _,
            cases: _,
        } = self;
    }
}

impl Reader {
    fn add(&mut self, section: &Section<'_>) -> Result<()> {
        let (keyword, rest) = section
            .heading
            .trim()
            .split_once(' ')
            .unwrap_or((section.heading.trim(), ""));
        let body = section.body.as_slice();
        match keyword {
            "%" => self.cases.push(Case::new(self.alloc, rest)?)?,
            "list" => self.lists.push(List::new(self.alloc, rest, body)?)?,
            _ => {
                let case = self.cases.last_mut().context("no case is begun")?;
                case.add(self.lists.as_slice(), keyword, rest, body)
                    .context(format_args!("under the heading {}", section.heading))?;
            }
        }
        Ok(())
    }

    fn into_cases(self) -> Vec<Case> {
        let Reader {
            alloc: _,
            lists: _,
            cases,
        } = self;
        cases
    }
}

/// The cases of a file. What stands before the title of the first one is a case of its own.
pub fn read_cases(alloc: Global, file: &str) -> Result<Vec<Case>> {
    let mut reader = Reader {
        alloc,
        lists: Vec::new(alloc),
        cases: Vec::new(alloc),
    };
    reader.cases.push(Case::new(alloc, "")?)?;
    for section in &sections(alloc, file)? {
        reader.add(section)?;
    }
    Ok(reader.into_cases())
}
