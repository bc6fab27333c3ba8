//! The reply to the last event, with room for the text of one. A text that doesn't fit, or for which memory is refused,
//! leaves it to be asked for again.
ghost use Rattle.std.specs.{Prelude.{◌≡◌, Some, OnOk, is_some}, String.string_bytes};
ghost use Rattle.mh_model.specs.Replies.{reply_text};
ghost use Rattle.mh_embed.specs.{Endings.IsGiven, Numbers.items_of};

use crate::numbers::{ItemNumbers, ReplyNumbers};
use crate::shown::{item_numbers, reply_numbers};
use crate::status::Status;
use mh_model::dump::DumpItem;
use mh_model::memory::NoMemory;
use mh_model::reply::Reply;
use mh_text::reply_text::ReplyText;
use std::alloc::Global;
use std::fmt::Write;
use std::marker::Model;

/// The reply to the last event, none before the first.
#[derive(Drop)]
pub struct Replied {
    reply: Option<Reply>,
    text: String,
}

impl Model for Replied {
    ghost use Rattle.std.specs.Prelude.{Option};
    ghost use Rattle.mh_model.specs.declared.reply.Reply.{Reply};

    ghost Value = { Option Reply };

    ghost view = { λ r. r.reply };
}

/// Puts the text of a reply in place of what was there.
fn write_reply(reply: &Reply, text: &mut String) -> Result<(), NoMemory>
    ensures { OnOk result (string_bytes text.new ≡ reply_text reply.now) }
{
    text.clear();
    let reply = ReplyText(reply);
    write!(text, "{reply}")?;
    Ok(())
}

/// Copies a text to the start of a buffer, if it fits.
pub(crate) fn give(text: &[u8], out: &mut [u8], written: &mut usize) -> Status
    ensures { IsGiven text.now out.old out.new written.new result }
{
    *written = text.len();
    if text.len() > out.len() {
        return Status::Short;
    }
    out[..text.len()].copy_from_slice(text);
    Status::Done
}

impl Replied {
    ghost use Rattle.std.specs.Prelude.{None};
    ghost use Rattle.mh_embed.specs.Endings.{ItemEnds, ReplyEnds, TextEnds};

    /// No reply, which takes no memory.
    pub fn new(alloc: Global) -> Replied
        ensures { result ≡ None }
    {
        Replied {
            reply: None,
            text: String::new(alloc),
        }
    }

    /// Keeps a reply as the last.
    pub fn keep(&mut self, reply: Reply)
        ensures { self.new ≡ Some reply }
    {
        self.reply = Some(reply);
    }

    /// Copies the text of the last reply, without the end of its line, to the start of the buffer, if it fits.
    pub fn text(&mut self, out: &mut [u8], written: &mut usize) -> Status
        ensures ends { TextEnds self.old out.old out.new written.new result }
        ensures kept { self.new ≡ self.old }
    {
        *written = 0;
        let Some(reply) = &self.reply else {
            return Status::NoReply;
        };
        let Ok(()) = write_reply(reply, &mut self.text) else {
            return Status::NoText;
        };
        give(self.text.as_bytes(), out, written)
    }

    /// Shows the last reply.
    pub fn reply(&self, shown: &mut ReplyNumbers) -> Status
        ensures { ReplyEnds self.now shown.old shown.new result }
    {
        match &self.reply {
            Some(reply) => {
                *shown = reply_numbers(reply);
                Status::Done
            }
            None => Status::NoReply,
        }
    }

    /// Whether an event was done.
    pub fn is_some(&self) -> bool
        ensures { result ≡ is_some self.now }
    {
        self.reply.is_some()
    }

    /// The items of the last reply, none if it isn't a dump.
    fn items(&self) -> &[DumpItem]
        ensures { result.now ≡ items_of self.now }
    {
        match &self.reply {
            Some(Reply::Dump(dump)) => dump.items(),
            _ => &[],
        }
    }

    /// Shows an item of the last reply, counted from 0.
    pub fn item(&self, index: usize, shown: &mut ItemNumbers) -> Status
        ensures { ItemEnds self.now index shown.old shown.new result }
    {
        match self.items().get(index) {
            Some(item) => {
                *shown = item_numbers(*item);
                Status::Done
            }
            None => Status::NoItem,
        }
    }
}
