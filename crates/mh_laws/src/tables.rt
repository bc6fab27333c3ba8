//! Laws of what keeps the pages of tables and their slots.
ghost use Rattle.mh_laws.specs.Tables.{MakingKeepsThePages};

/// Making an object keeps the pages and their slots, and blocks within the limits of objects.
pub fn making_keeps_the_pages()
    ensures { MakingKeepsThePages }
{}
