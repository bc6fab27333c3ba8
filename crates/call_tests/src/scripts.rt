//! Scripts of events of every kind, and of objects that a crew has to scan.

use mh_text::script::{Script, parse};
use std::alloc::Global;
use std::test::Fail;
use test_support::graph::{chain_script, repeated, wide_script};

/// How many events of every kind there are.
pub const KINDS: usize = 24;

/// One object refers to another, which is freed; one command is refused.
const EVERY_KIND: &[u8] =
    b"a new 0 2 3\na new 1 1 0\na put 0 1 1\na get 2 0 1\na copy 3 2\na write 0 1 77\na read 0 1\na same 1 2\na shape 0\na post 0 3\nb take 4 0\na clear 3\n* left\n* stat\n* dump\n* report 3\n* start\n* quantum\n* left\n* quantum\nb end\na get 9 0 9\na new 5 70 0\n* dump\n";

/// The script of so many stats and of events of every kind under a line that configures it.
pub fn every_kind(alloc: Global, config: &[u8], stats: usize) -> Result<Script, Fail> {
    let mut text = repeated(alloc, config, b"* stat\n", stats)?;
    text.extend_from_slice(EVERY_KIND)?;
    Ok(parse(alloc, &text)?)
}

/// What is asked after a cycle.
const AFTER_CYCLE: &[u8] = b"* dump\na get 2 0 0\na new 3 0 2\n* dump\n";

/// The script of a cycle and of what is asked after it.
fn with_more(alloc: Global, mut text: Vec<u8>) -> Result<Script, Fail> {
    text.extend_from_slice(AFTER_CYCLE)?;
    Ok(parse(alloc, &text)?)
}

/// An object with 60 others in its fields, and a cycle of two quanta.
pub fn wide(alloc: Global) -> Result<Script, Fail> {
    with_more(alloc, wide_script(alloc)?)
}

/// A chain of 300 objects, and a cycle of six quanta.
pub fn chain(alloc: Global) -> Result<Script, Fail> {
    with_more(alloc, chain_script(alloc)?)
}
