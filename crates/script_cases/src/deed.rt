use crate::entry::Field;
use crate::escape::unescaped;
use crate::list::{List, push_list};
use anyhow::{Context, Result, bail};
use std::alloc::Global;

/// What becomes of a text before the program is called on it.
#[derive(Drop)]
pub enum Variation {
    Whole,
    Cut,
    Spoiled,
    /// A field of each entry becomes another, by which the line is refused, or the entry is bad.
    Altered { field: Field, is_refused: bool },
}

/// The program is called with these words.
pub struct Deed {
    pub words: Vec<u8>,
    pub variation: Variation,
    /// What parts of the text are replaced by.
    pub others: Vec<Vec<u8>>,
}

impl Drop for Deed {
    fn drop(self) {
        let Deed {
            words: _,
            variation: _,
            others: _,
        } = self;
    }
}

fn whole(alloc: Global, words: &str, variation: Variation) -> Result<Deed> {
    Ok(Deed {
        words: unescaped(alloc, words)?,
        variation,
        others: Vec::new(alloc),
    })
}

/// A deed whose words stand after the name of a list.
fn with_list(alloc: Global, lists: &[List], rest: &str, variation: Variation) -> Result<Deed> {
    let (name, words) = rest.split_once(' ').context("no words stand after a list")?;
    let mut deed = whole(alloc, words, variation)?;
    push_list(&mut deed.others, alloc, lists, name)?;
    Ok(deed)
}

fn field_named(name: &str) -> Result<Field> {
    match name {
        "reply" => Ok(Field::Reply),
        "mutator" => Ok(Field::Mutator),
        "collector" => Ok(Field::Collector),
        _ => bail!("no field of an entry is named `{name}`"),
    }
}

fn altered(alloc: Global, lists: &[List], rest: &str) -> Result<Deed> {
    let (field, rest) = rest.split_once(' ').context("no field is altered")?;
    let (outcome, rest) = rest.split_once(' ').context("nothing comes of it")?;
    let variation = Variation::Altered {
        field: field_named(field)?,
        is_refused: outcome == "refused",
    };
    with_list(alloc, lists, rest, variation)
}

/// What a heading with one of the keywords of calls asks for.
pub fn read_deed(alloc: Global, lists: &[List], keyword: &str, rest: &str) -> Result<Deed> {
    match keyword {
        "call" => whole(alloc, rest, Variation::Whole),
        "cut" => whole(alloc, rest, Variation::Cut),
        "spoil" => with_list(alloc, lists, rest, Variation::Spoiled),
        _ => altered(alloc, lists, rest),
    }
}
