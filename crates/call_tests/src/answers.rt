use mh_model::reply::Reply;
use mh_text::reply_text::ReplyText;
use std::alloc::{AllocError, Global};
use std::fmt::Write;

/// Adds the line of a reply.
pub fn add_line(lines: &mut String, reply: &Reply) -> Result<(), AllocError> {
    writeln!(lines, "{}", ReplyText(reply))?;
    Ok(())
}

/// The lines of replies.
pub fn lines_of(alloc: Global, replies: &[Reply]) -> Result<String, AllocError> {
    let mut lines = String::new(alloc);
    for reply in replies {
        add_line(&mut lines, reply)?;
    }
    Ok(lines)
}
