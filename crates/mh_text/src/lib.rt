//! Texts: devices that bytes come from and go to, scripts, and the texts of replies.
//!
//! What is read and written is what the grammar of the model says, byte for byte. It cites no law: that what was
//! written is read back, and what else holds of texts alone, is in `mh_text_laws`.
#![tactic(auto)]

pub mod device;
pub mod forms;
pub mod line;
pub mod names;
pub mod pieces;
pub(crate) mod plain;
pub mod reply_line;
pub mod reply_text;
pub mod script;
pub mod sink;
pub mod source;
pub mod stream;
pub mod text_error;
pub(crate) mod verbs;
pub mod word;
