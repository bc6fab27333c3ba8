//! What is wrong with the first bad entry of an order, and the text that says it.
ghost use Rattle.std.specs.Prelude.{Some};
ghost use Rattle.mh_judge_log.specs.Texts.{order_fault_text};

use mh_judge::entry_fault::EntryFault;
use std::fmt;

/// What is wrong with an entry of an order.
#[derive(Debug, Drop)]
pub enum OrderFault {
    /// It had ended before this one began, which comes before it in the order. The numbers are from 1.
    Late(u64),
    /// Its session may not see its reply, or it is one too many.
    Unseen(EntryFault),
}

impl fmt::Display for OrderFault {
    ghost output = { λ fault. Some (order_fault_text fault) };

    fn fmt<W: fmt::Write>(&self, f: &mut fmt::Formatter<W>) -> fmt::Result {
        match self {
            OrderFault::Late(earlier) => write!(f, "it had ended before entry {earlier} began"),
            OrderFault::Unseen(fault) => write!(f, "{fault}"),
        }
    }
}
