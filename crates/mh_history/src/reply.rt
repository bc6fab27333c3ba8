//! Replies as histories write them. A well-formed one may have any numbers in the range of their types: 32 bits in
//! `shape`, and 64 in all others. The first version doesn't know the reply `left`.
ghost use Rattle.std.specs.Prelude.{◌≡◌, ◌∷◌, [], codes, false, IfOk, OnErr, IsSome};
ghost use Rattle.mh_model.specs.{Bytes.is_text, Replies.reply_of};

use crate::dump::dump_of;
use crate::keyed::{report_of, spent_of, stat_of};
use crate::parts::{number_of, refusal_of, shape_of, where_words};
use mh_model::history::Version;
use mh_model::memory::NoMemory;
use mh_model::reply::Reply;
use mh_text::pieces::Words;
use mh_text::word::is_word;
use std::alloc::Global;

/// The well-formed reply that words are, if the version knows it. Memory is taken for a dump alone.
pub fn reply_of(
    alloc: Global,
    version: Version,
    mut words: Words<'_>,
) -> Result<Option<Reply>, NoMemory>
    ensures reply { IfOk result (λ reply. reply ≡ reply_of version words.entry) }
    ensures memory { OnErr result (IsSome (reply_of version words.entry)) }
{
    let Some(verb) = words.next_word() else {
        return Ok(None);
    };
    if is_word(verb, b"dump") {
        dump_of(alloc, words)
    } else {
        Ok(short_reply(version, verb, words))
    }
}

/// The reply that is no dump.
fn short_reply(version: Version, verb: &[u8], words: Words<'_>) -> Option<Reply>
    ensures { is_text verb.now (codes "dump") ≡ false → result ≡ reply_of version (verb.now ∷ words.entry) }
{
    if is_word(verb, b"ok") {
        where_words(words, &[], Reply::Done)
    } else if is_word(verb, b"yes") {
        where_words(words, &[], Reply::Yes)
    } else if is_word(verb, b"no") {
        where_words(words, &[], Reply::No)
    } else if is_word(verb, b"number") {
        Some(Reply::Number(number_of(words)?))
    } else if is_word(verb, b"shape") {
        Some(Reply::Shape(shape_of(words)?))
    } else if is_word(verb, b"refused") {
        Some(Reply::Refused(refusal_of(words)?))
    } else if is_word(verb, b"spent") {
        spent_of(words)
    } else if is_word(verb, b"free") {
        stat_of(words)
    } else if is_word(verb, b"mutator") {
        report_of(words)
    } else if is_word(verb, b"left") && version == Version::Two {
        Some(Reply::Left(number_of(words)?))
    } else {
        None
    }
}
