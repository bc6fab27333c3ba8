//! Reasons: why the first bad line of a script or a history is outside the grammar. A law says that a line with a reason is.
//!
//! A reason is data with a clause for each kind. It is found from the text and the line after the text was refused, so
//! parsing costs nothing more. It keeps at most 80 bytes of a word, in arrays of a fixed size, so it takes no memory
//! and outlives the text. Only its line on standard error takes some.
//!
//! A line may have several reasons, of which the first in a fixed order is given. An empty line or a comment comes
//! first, then the bytes, then the words. So a carriage return is never shown as a wrong word. Words come from left to
//! right. Only how many they are comes before each of them, and the units of an entry before its event.
#![tactic(auto)]

pub mod byte_fault;
pub mod entry;
mod event;
mod header;
mod hexadecimal;
pub mod history;
pub mod history_reason;
pub mod laws;
pub mod line;
pub mod number_fault;
mod operands;
pub mod quoted;
pub mod reason;
pub mod script;
pub mod verb;
