//! What is found of a log with an order.
use crate::fault::OrderFault;
use crate::reason::LogReason;
use crate::tally::OrderCounts;
use mh_judge::judgement::Judgement;

/// A verdict on a log with an order, with the reason for its bad line or what is wrong with a bad entry of the order.
pub type LogJudgement = Judgement<LogReason, OrderFault>;

/// What is found of a log with an order, and what was looked through of the order for that.
#[derive(Debug, Drop)]
pub struct JudgedLog {
    pub judgement: LogJudgement,
    /// None if the text is refused.
    pub tally: Option<OrderCounts>,
}
