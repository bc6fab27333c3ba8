//! Whole texts of logs with an order that are judged.
//!
//! The verdict is the one that the text has. What is reported beside it is true of the text: the reason for its bad
//! line, what is wrong with its first bad entry, and how many entries were looked through and were full. The line of the
//! verdict was written and nothing else. A failed sink leaves a prefix of that line. A failed source or out of memory
//! leaves nothing written. A device failed exactly when it is blamed. Memory is refused only for bytes that the source
//! gave, or for a text that begins with a command.
ghost use Rattle.std.specs.Prelude.{IfOk, OnErr};
ghost use Rattle.mh_judge.specs.Judged.{IsVerdictLine};
ghost use Rattle.mh_judge_log.specs.{Beginnings.BeginsWithCommand, Judgements.{IsLogJudging, IsLogTold, found_verdict}};
ghost use Rattle.mh_judge_log.specs.Orders.{IsLogJudged};

use crate::judge::judge_order;
use crate::judgement::JudgedLog;
use crate::log::parse_ordered;
use crate::reasons::log_reason;
use crate::tally::counts_beside;
use mh_history::record::RECORD_BYTES;
use mh_judge::judgement::Judgement;
use mh_model::config::Rules;
use mh_model::memory::NoMemory;
use mh_script::fault::ScriptFault;
use mh_script::task::{Task, done_with};
use mh_script::texts::write_verdict;
use mh_text::device::DeviceFailed;
use mh_text::sink::Sink;
use mh_text::source::Source;
use mh_text::text_error::TextError;
use std::alloc::Global;

/// The verdict on a log with an order under these rules, what is wrong with the text, and what was looked through of the
/// order. Where no heap may be full, the first full entry is bad.
#[tactic(auto, using(crate::proofs::TextLemmas::order_judged, crate::proofs::TextLemmas::line_judged, crate::proofs::TextLemmas::order_told, crate::proofs::TextLemmas::line_told))]
pub fn judge_log(
    alloc: Global,
    may_be_full: bool,
    rules: Rules,
    text: &[u8],
) -> Result<JudgedLog, NoMemory>
    ensures verdict { IfOk result (λ found. IsLogJudged may_be_full rules text.now (found_verdict found)) }
    ensures told { IfOk result (IsLogTold may_be_full rules text.now) }
    ensures memory { OnErr result (BeginsWithCommand text.now) }
{
    match parse_ordered(alloc, text) {
        Ok(order) => {
            let order = order.as_slice();
            let judgement = judge_order(alloc, may_be_full, rules, order)?;
            let tally = Some(counts_beside(judgement.verdict(), order));
            Ok(JudgedLog { judgement, tally })
        }
        Err(TextError::Line(line)) => Ok(JudgedLog {
            judgement: Judgement::Refused {
                line,
                reason: log_reason(text, line),
            },
            tally: None,
        }),
        Err(TextError::NoMemory) => Err(NoMemory),
    }
}

/// A log with an order that is judged under these rules, and of which the line of the verdict is written.
#[derive(Clone, Copy)]
struct OrderJudging {
    may_be_full: bool,
    rules: Rules,
}

impl Task for OrderJudging {
    type Done = JudgedLog;

    ghost most = { 2147483648 };

    ghost does = { λ old text ended out new. IsVerdictLine found_verdict (IsLogJudged old.may_be_full old.rules) (IsLogTold old.may_be_full old.rules) BeginsWithCommand text ended out };

    #[tactic(auto, using(crate::proofs::TextLemmas::log_judged_long))]
    fn most_bytes() -> usize {
        RECORD_BYTES
    }

    fn perform<W: Sink>(
        &mut self,
        alloc: Global,
        text: &[u8],
        sink: &mut W,
    ) -> Result<JudgedLog, ScriptFault> {
        let found = judge_log(alloc, self.may_be_full, self.rules, text)?;
        match write_verdict(found.judgement.verdict(), sink) {
            Ok(()) => Ok(found),
            Err(DeviceFailed) => Err(ScriptFault::Write),
        }
    }
}

/// Reads a whole log with an order, judges it under these rules, and then writes the line of its verdict, for which it
/// takes no memory. Where no heap may be full, the first full entry is bad.
pub fn check_log<S: Source, W: Sink>(
    alloc: Global,
    may_be_full: bool,
    rules: Rules,
    source: &mut S,
    sink: &mut W,
) -> Result<JudgedLog, ScriptFault>
    ensures { IsLogJudging may_be_full rules (S.device source.old) (S.device source.new) (W.device sink.old) (W.device sink.new) result }
{
    done_with(
        alloc,
        &mut OrderJudging { may_be_full, rules },
        source,
        sink,
    )
}
