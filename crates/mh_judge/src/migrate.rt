//! Histories of version 1 that become histories of version 2.
//!
//! A legal one is written as one of the second version, which is legal and has as many entries. Of any other text the
//! line of its verdict is written, and what is reported beside the verdict is true of the text. The replies of a legal
//! one, and of what is written of it, are those of an outcome that keeps the promise of `mh_promise`. A failed source
//! leaves nothing written. Whatever else ends this early leaves a prefix. A device failed exactly when it is blamed.
//! Memory is refused only for bytes that the source gave, or for a text that begins with an entry or is a history.
//!
//! A legal history is read twice, once to find its verdict and once to write it. Nothing of it may be written before
//! it is known to be legal. The length of what is written is no premise. By a law, a history within its limit becomes
//! a text within the limit of the second version.
ghost use Rattle.std.specs.Prelude.{◌≡◌, ℕ, IsErrOf};
ghost use Rattle.mh_judge.specs.{Judgements.verdict_of, Judged.{IsMigrating, IsMigration, TakesToMigrate}};
ghost use Rattle.mh_model.specs.declared.config.Rules.TheVariants.{First};
ghost use Rattle.mh_model.specs.HistoryTexts.{IsChecked, history_reading, migration_text};
ghost use Rattle.mh_script.specs.Texts.{IsWriting};

use crate::events::OfLines;
use crate::judge::judge_history;
use crate::judgement::{HistoryJudgement, Judgement};
use crate::record::write_events;
use mh_history::history::{HISTORY_BYTES, history_lines};
use mh_model::config::Config;
use mh_promise::promise::replies_are_promised;
use mh_script::fault::{ScriptFault, WriteError};
use mh_script::task::{Task, done_with};
use mh_script::texts::write_verdict;
use mh_text::sink::Sink;
use mh_text::source::Source;
use mh_text_laws::migration::{migrated_texts_are_legal, texts_are_migrated};
use std::alloc::Global;

/// Writes what migration makes of a text with this verdict. A legal history is read once more, entry by entry.
fn write_migrated<W: Sink>(
    alloc: Global,
    config: Config,
    text: &[u8],
    judgement: &HistoryJudgement,
    sink: &mut W,
) -> Result<(), WriteError>
    requires { IsChecked config text.now (verdict_of judgement.now) }
    ensures written { IsWriting (W.device sink.old) (W.device sink.new) (migration_text config (verdict_of judgement.now) (history_reading text.now)) result }
    ensures memory { IsErrOf result WriteError.NoMemory → TakesToMigrate text.now }
{
    match judgement {
        Judgement::Legal(_) => {
            let Ok(lines) = history_lines(text) else {
                unreachable!();
            };
            write_events(alloc, config, OfLines { alloc, lines }, sink)
        }
        judgement => Ok(write_verdict(judgement.verdict(), sink)?),
    }
}

/// A history of version 1 that is migrated.
#[derive(Drop)]
struct Migration {
    config: Config,
    ghost first: { config.rules ≡ First },
}

impl Task for Migration {
    type Done = HistoryJudgement;

    ghost most = { 1073741824 };

    ghost does = { λ old text ended out new. IsMigration old.config text ended out };

    #[tactic(auto, using(crate::proofs::LongLemmas::migration_long))]
    fn most_bytes() -> usize {
        HISTORY_BYTES
    }

    fn perform<W: Sink>(
        &mut self,
        alloc: Global,
        text: &[u8],
        sink: &mut W,
    ) -> Result<HistoryJudgement, ScriptFault> {
        texts_are_migrated();
        migrated_texts_are_legal();
        replies_are_promised();
        let judgement = judge_history(alloc, self.config, text)?;
        write_migrated(alloc, self.config, text, &judgement, sink)?;
        Ok(judgement)
    }
}

/// Reads a whole history of version 1, and writes it as version 2 if it is legal, and else the line of its verdict.
pub fn migrate_script<S: Source, W: Sink>(
    alloc: Global,
    config: Config,
    source: &mut S,
    sink: &mut W,
) -> Result<HistoryJudgement, ScriptFault>
    requires { config.rules ≡ First }
    ensures { IsMigrating config (S.device source.old) (S.device source.new) (W.device sink.old) (W.device sink.new) result }
{
    done_with(alloc, &mut Migration { config }, source, sink)
}
