//! Laws of texts that are written again as they were read.
ghost use Rattle.mh_text_laws.specs.Rewritings.{HistoriesAreWrittenAgain, RecordsAreWrittenAgain};

/// A text that is a history of version 1 is what is written of it.
pub fn histories_are_written_again()
    ensures { HistoriesAreWrittenAgain }
{}

/// A text that is a history of version 2 is what is written of it.
pub fn records_are_written_again()
    ensures { RecordsAreWrittenAgain }
{}
