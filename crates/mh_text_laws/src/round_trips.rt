//! Laws of texts that are read back as they were written.
ghost use Rattle.mh_text_laws.specs.RoundTrips.{HistoriesAreReadBack, RecordsAreReadBack};

/// A history of version 1 is read as it was written.
pub fn histories_are_read_back()
    ensures { HistoriesAreReadBack }
{}

/// A history of version 2 is read as it was written.
pub fn records_are_read_back()
    ensures { RecordsAreReadBack }
{}
