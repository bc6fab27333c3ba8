//! Worked rows: what the model says of tables, worlds, views, histories, locks, pictures and room where no output shows it,
//! compared by evaluation. Cases of `script_cases` show what the program writes. No crate stands on this one.
//!
//! Each row is there to refuse some wrong definition. What it was seen to refuse is said below it: the definition was bent in a
//! copy of its crate, and the check of the row failed there. "The same" is what the row above refuses. A row without such a line
//! shows a case of a law and was tried with no bent definition. A row on a text or a list that is too long to write out is on any
//! of its length.
#![tactic(auto)]
