//! Laws of what a page begins with, of what is written of a long run, of the cursor, and of how long a page is.
//!
//! The deeds that stay (`kept_deeds`) draw what all of them draw. After each of these, and at last, the cursor stands
//! where all deeds so far leave it. After a quantum that is where the collector has it.
ghost use Rattle.mh_tell_show.specs.{BeforeLaws.RowsDrawTheHeap, Bounds.PagesAreBounded, Cursor.QuantaTellTheCursor};
ghost use Rattle.mh_tell_show.specs.LeftOut.{KeptDeedsTellTheCursor, LeftOutDeedsDrawNothing};

/// What a page begins with draws the heap before its first event.
#[tactic(auto, using(crate::proofs::BeforeLemmas::rows_draw))]
pub fn rows_draw_the_heap()
    ensures { RowsDrawTheHeap }
{}

/// The deeds that are left out of a long run change no picture.
pub fn left_out_deeds_draw_nothing()
    ensures { LeftOutDeedsDrawNothing }
{}

/// The deeds that are written of a long run leave the cursor where all of them leave it, after each of those and at last.
pub fn kept_deeds_tell_the_cursor()
    ensures { KeptDeedsTellTheCursor }
{}

/// The deeds of a quantum leave the cursor where the collector has it.
pub fn quanta_tell_the_cursor()
    ensures { QuantaTellTheCursor }
{}

/// What a page has of events has a bound.
#[tactic(auto, using(crate::proofs::BoundLemmas::bounded))]
pub fn pages_are_bounded()
    ensures { PagesAreBounded }
{}
