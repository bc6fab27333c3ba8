//! Laws of migration.
ghost use Rattle.mh_text_laws.specs.Migration.{MigrationKeepsHistories, MigratedTextsAreLegal, TextsAreMigrated};

/// A legal history of version 1 is migrated to a legal one of version 2 with the same entries.
#[tactic(auto, using(crate::proofs::migration::MigratedRecords::migration_keeps))]
pub fn migration_keeps_histories()
    ensures { MigrationKeepsHistories }
{}

/// What migration writes for a legal text of version 1 is a legal text of version 2, of as many entries.
pub fn migrated_texts_are_legal()
    ensures { MigratedTextsAreLegal }
{}

/// Every text is migrated.
#[tactic(auto, using(crate::proofs::migration::MigratedRecords::texts_migrated))]
pub fn texts_are_migrated()
    ensures { TextsAreMigrated }
{}
