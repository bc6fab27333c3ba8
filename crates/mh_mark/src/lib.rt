//! Marking: one grey block at a time, and a batch of grey blocks.
//!
//! A mark is a stamp equal to the number of the cycle, so no phase clears marks: the next number makes each block
//! white. A marked block is grey while its place waits in the queue, first in, first out, and black afterwards. Each
//! reference of a grey block is resolved and written back, so that no marked block refers to a forwarder once marking
//! has ended.
//!
//! A block is marked through in one loop. Each write leaves every block at its place, and every reference leads on to
//! where it led. A block that is settled stays so (`KeptLemmas`). So what was found in the table before a batch is
//! still right when a block's turn comes, and a settled block may be skipped. That a batch is so many mark steps is the
//! law of batches. The crate knows no roots: their step is in `mh_cycle`.
#![tactic(auto)]

pub mod batch;
pub mod mark;
