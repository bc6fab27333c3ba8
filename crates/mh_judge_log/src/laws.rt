//! Laws of logs with an order.
//!
//! The order of a text that is read has each command of its log just once, and those of each session in their order. If
//! the text is legal, it is a linearization: a command that had ended before another began comes before that one.
ghost use Rattle.mh_judge_log.specs.Laws.{LegalLogsAreLinearizable, OrdersAreOfTheirLog};

/// The order of a text is one of its log.
#[tactic(auto, using(crate::proofs::LinearLemmas::of_their_log))]
pub fn orders_are_of_their_log()
    ensures { OrdersAreOfTheirLog }
{}

/// A log that is judged legal has a linearization whose replies a correct collector may give.
#[tactic(auto, using(crate::proofs::LawLemmas::linearizable))]
pub fn legal_logs_are_linearizable()
    ensures { LegalLogsAreLinearizable }
{
    orders_are_of_their_log();
}
