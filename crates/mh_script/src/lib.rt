//! Runs of scripts from their bytes to their replies, and what reading and writing whole texts takes.
//!
//! `run_script` reads a text. `parse` takes the text to the model's configuration and events, or to the first bad line.
//! Then the events are done by `Machine::step`. At each turn, what is written and what waits in its buffer is the text
//! of the machine's replies to the events so far. So, over devices whose bytes are known, it has written the model's
//! output of the text in the end (`output_under`). If memory was refused or a device failed, it has written a prefix of
//! it.
//!
//! Runs, judging and racing of scripts are a crate each, so a run of a script waits for no lock. What reads and writes
//! whole texts is here, where the two others use it.
#![tactic(auto)]

pub mod end;
pub mod fault;
pub mod history;
pub mod lines;
pub mod replies;
pub mod run;
pub mod task;
pub mod texts;
pub mod transcript;
