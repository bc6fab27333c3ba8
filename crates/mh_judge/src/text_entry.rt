//! Entries of either version, in the texts that are judged.
//!
//! This is all in which the versions differ for a judge of texts: the first line, the words that say of a text what its
//! verdict is, and what may be wrong with an entry.
ghost use Rattle.std.specs.Prelude.{◌≡◌, ◌<◌, ◌≤◌, ℕ, length, IfOk, IfErr, IfSome, IfNone};
ghost use Rattle.mh_history.proofs.HistoryLemmas.{history_long, record_long};
ghost use Rattle.mh_history.specs.Beginnings.{BeginsWithEntry, BeginsWithMeasured, HasEntry, entries_left};
ghost use Rattle.mh_judge.specs.declared.entry_fault.EntryFault.{EntryFault};
ghost use Rattle.mh_judge.specs.Faults.{IsEntryFault, IsMeasuredFault, IsRight};
ghost use Rattle.mh_judge.specs.Histories.{History, IsFaultIn, IsVerdictIn, own_reading, reading_under, under};
ghost use Rattle.mh_judge.specs.Judgements.{IsAuditedFault, IsCheckedFault};
ghost use Rattle.mh_judge.specs.Promised.{IsPromisedRecord, IsPromisedUnder};
ghost use Rattle.mh_judge.specs.PromisedRules.{audited_promised, checked_promised};
ghost use Rattle.mh_judge.specs.TextRules.{audited_fault, audited_in, audited_refused, checked_fault, checked_in, checked_refused, in_audited, in_checked, own_bad, under_bad};
ghost use Rattle.mh_model.specs.{declared.history.Verdict.Verdict, declared.history.Version.TheVariants.{One, Two}};
ghost use Rattle.mh_model.specs.{declared.history.Version.Version, Bytes.Text, HistoryTexts.{IsAudited, IsChecked}};
ghost use Rattle.mh_model.specs.{Script.{Reading, BadLine}, declared.history.Verdict.TheVariants.Legal};
ghost use Rattle.mh_promise.specs.Promise.{RepliesArePromised};
ghost use Rattle.mh_reasons.specs.HistoryReasons.{IsRefusedAt, most_bytes};
ghost use Rattle.mh_text_laws.proofs.run_histories.Records.{record_replies};
ghost use Rattle.mh_model.specs.Machine as model;

use crate::entry_fault::{EntryFault, Units};
use crate::reply_fault::reply_fault;
use mh_history::history::{HISTORY_BYTES, history_lines};
use mh_history::lines::{FromLine, RefusedLine};
use mh_history::record::{RECORD_BYTES, record_lines};
use mh_machine::entry::JudgedEntry;
use mh_machine::same::is_same;
use mh_model::config::Config;
use mh_model::history::{Entry, Measured, Version};
use mh_text::pieces::Lines;

/// An entry of the texts of some version.
pub trait TextEntry: FromLine + JudgedEntry + Drop {
    /// What is said beside the text: the configuration, if the text has none.
    type Given: Copy;

    ghost version: { Version };

    ghost reading: { Self.Given → Text → Reading (History Self) };

    ghost judged: { Self.Given → Text → Verdict → Type 0 };

    // what is wrong with an entry that isn't what this machine makes of its event
    ghost is_wrong: { model.Machine → Self → EntryFault → Type 0 };

    // what is wrong with the entry of a text with this number
    ghost is_fault: { Self.Given → Text → ℕ → EntryFault → Type 0 };

    // what is promised of a text that is a legal history of so many entries
    ghost promised: { Self.Given → Text → ℕ → Type 0 };

    // that a text begins with an entry
    ghost begins: { Text → Type 0 };

    fn version() -> Version
        ensures { result ≡ version };

    /// The most bytes that a text has.
    fn most_bytes() -> usize
        ensures { result ≡ most_bytes version };

    /// The configuration, and the lines after the first line, not read yet.
    fn lines(given: Self::Given, text: &[u8]) -> Result<(Config, Lines<'_>), RefusedLine>
        ensures lines { IfOk result (λ read. reading given text.now ≡ under read.0 (entries_left Self.of_line read.1)) }
        ensures begins { IfOk result (λ read. HasEntry Self.of_line read.1 → begins text.now) }
        ensures line { IfErr result (λ refused. reading given text.now ≡ BadLine refused.0) };

    /// What is wrong with it, of which this is the right one.
    fn fault(self, right: Measured) -> Option<EntryFault>
        ensures right { IfNone result ((machine : model.Machine) → IsRight machine (Self.event_of self) right → Self.fits machine self) }
        ensures wrong { IfSome result (λ fault. (machine : model.Machine) → IsRight machine (Self.event_of self) right → (¬ Self.fits machine self) × is_wrong machine self fault) };

    ghost long: { (given : Self.Given) (text : Text) → most_bytes version < length text → reading given text ≡ BadLine 0 };

    ghost short: { (text : Text) → begins text → length text ≤ most_bytes version };

    ghost judges: { (given : Self.Given) (text : Text) (verdict : Verdict) → IsVerdictIn Self.lawful (reading given text) verdict → judged given text verdict };

    ghost is_judged: { (given : Self.Given) (text : Text) (verdict : Verdict) → judged given text verdict → IsVerdictIn Self.lawful (reading given text) verdict };

    ghost refused: { (given : Self.Given) (text : Text) (line : ℕ) → reading given text ≡ BadLine line → IsRefusedAt version text line };

    ghost faulty: { (given : Self.Given) (text : Text) (number : ℕ) (fault : EntryFault) → IsFaultIn Self.event_of is_wrong (reading given text) number fault → is_fault given text number fault };

    ghost promises: { RepliesArePromised → (given : Self.Given) (text : Text) (count : ℕ) → judged given text (Legal count) → promised given text count };
}

impl TextEntry for Entry {
    type Given = Config;

    ghost version = { One };

    ghost reading = { reading_under };

    ghost judged = { IsChecked };

    ghost is_wrong = { IsEntryFault };

    ghost is_fault = { IsCheckedFault };

    ghost promised = { IsPromisedUnder };

    ghost begins = { BeginsWithEntry };

    fn version() -> Version {
        Version::One
    }

    fn most_bytes() -> usize {
        HISTORY_BYTES
    }

    fn lines(given: Config, text: &[u8]) -> Result<(Config, Lines<'_>), RefusedLine> {
        let lines = history_lines(text)?;
        Ok((given, lines))
    }

    fn fault(self, right: Measured) -> Option<EntryFault> {
        if is_same(&self.reply, &right.entry.reply) {
            return None;
        }
        Some(reply_fault(self.reply, right.entry.reply))
    }

    ghost long = { λ config text long. under_bad config text 0 (history_long text long) };

    ghost short = { λ text begins. begins.short };

    ghost judges = { checked_in };

    ghost is_judged = { in_checked };

    ghost refused = { checked_refused };

    ghost faulty = { checked_fault };

    ghost promises = { checked_promised };
}

impl TextEntry for Measured {
    type Given = ();

    ghost version = { Two };

    ghost reading = { λ given. own_reading };

    ghost judged = { λ given. IsAudited };

    ghost is_wrong = { IsMeasuredFault };

    ghost is_fault = { λ given. IsAuditedFault };

    ghost promised = { λ given. IsPromisedRecord };

    ghost begins = { BeginsWithMeasured };

    fn version() -> Version {
        Version::Two
    }

    fn most_bytes() -> usize {
        RECORD_BYTES
    }

    #[tactic(auto, using(crate::specs::TextRules::own_lines, crate::specs::TextRules::own_bad))]
    fn lines(_given: (), text: &[u8]) -> Result<(Config, Lines<'_>), RefusedLine> {
        record_lines(text)
    }

    fn fault(self, right: Measured) -> Option<EntryFault> {
        let given = Units {
            mutator: self.mutator,
            collector: self.collector,
        };
        let units = Units {
            mutator: right.mutator,
            collector: right.collector,
        };
        if !is_same(&self.entry.reply, &right.entry.reply) {
            return Some(reply_fault(self.entry.reply, right.entry.reply));
        }
        if given == units {
            return None;
        }
        Some(EntryFault::Units {
            given,
            right: units,
        })
    }

    ghost long = { λ given text long. own_bad text 0 (record_long text long) };

    ghost short = { λ text begins. begins.short };

    ghost judges = { λ given. audited_in };

    ghost is_judged = { λ given. in_audited };

    ghost refused = { λ given. audited_refused };

    ghost faulty = { λ given. audited_fault };

    ghost promises = { λ law given. audited_promised law record_replies };
}
