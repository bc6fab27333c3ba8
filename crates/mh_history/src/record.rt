//! Records: histories of version 2, with their configuration and the units of each entry. All that is said of those of
//! version 1 in `history` holds of them.
ghost use Rattle.std.specs.Prelude.{◌≡◌, IfOk, IfErr, IsErrOf};
ghost use Rattle.mh_model.specs.{HistoryTexts.recorded_reading, Script.{BadLine, Means}};
ghost use Rattle.mh_text.specs.TextErrors.{Refuses};
ghost use Rattle.mh_history.specs.Beginnings.{BeginsWithMeasured, HasEntry, entries_left, line_as_measured, after_header};

use crate::header::header_of;
use crate::lines::{RefusedLine, entries_from};
use mh_model::config::Config;
use mh_model::history::Measured;
use mh_text::pieces::{Lines, Words};
use mh_text::text_error::TextError;
use std::alloc::Global;
use std::marker::Model;

/// The most bytes that a history of version 2 has.
pub const RECORD_BYTES: usize = 2_147_483_648;

/// A history of version 2: its configuration, and its entries with their units.
#[derive(Debug, Drop)]
pub struct Record {
    config: Config,
    entries: Vec<Measured>,
}

impl Model for Record {
    ghost use Rattle.mh_model.specs.HistoryTexts.{Recorded};

    ghost Value = { Recorded };

    ghost view = { λ read. record { config = read.config; entries = read.entries.items } };
}

impl Record {
    pub fn config(&self) -> Config
        ensures { result ≡ self.now.config }
    {
        self.config
    }

    /// One entry for each line after the first, in the order of the lines.
    pub fn entries(&self) -> &[Measured]
        ensures { result.now ≡ self.now.entries }
    {
        self.entries.as_slice()
    }
}

/// The configuration of a history of version 2, and the lines after its first line, not read yet. It takes no memory.
#[tactic(auto, using(crate::proofs::HistoryLemmas::record_long, crate::proofs::HistoryLemmas::record_empty, crate::proofs::HistoryLemmas::record_wrong, crate::proofs::HistoryLemmas::record_first, crate::proofs::HistoryLemmas::begins_with_measured))]
pub fn record_lines(text: &[u8]) -> Result<(Config, Lines<'_>), RefusedLine>
    ensures lines { IfOk result (λ read. recorded_reading text.now ≡ after_header read.0 (entries_left line_as_measured read.1)) }
    ensures begins { IfOk result (λ read. HasEntry line_as_measured read.1 → BeginsWithMeasured text.now) }
    ensures line { IfErr result (λ refused. recorded_reading text.now ≡ BadLine refused.0) }
{
    if text.len() > RECORD_BYTES {
        return Err(RefusedLine(0));
    }
    let mut lines = Lines::new(text);
    let Some((_, line)) = lines.next_line() else {
        return Err(RefusedLine(1));
    };
    let Some(config) = header_of(Words::new(line)) else {
        return Err(RefusedLine(1));
    };
    Ok((config, lines))
}

/// Reads a history of version 2, up to its first bad line. It takes memory for entries alone, so a text that is refused before
/// its first entry is never answered with `NoMemory`.
pub fn parse_record(alloc: Global, text: &[u8]) -> Result<Record, TextError>
    ensures record { IfOk result (λ read. recorded_reading text.now ≡ Means read) }
    ensures line { IfErr result (Refuses (recorded_reading text.now)) }
    ensures memory { IsErrOf result TextError.NoMemory → BeginsWithMeasured text.now }
{
    let (config, lines) = record_lines(text)?;
    let entries = entries_from(alloc, lines)?;
    Ok(Record { config, entries })
}
