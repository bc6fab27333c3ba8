//! Races: the sessions of a script and its desk call one service at once, each in a thread of its own.
//!
//! No order between threads is needed. Each seat has run the first of its events (`RunSeats`), and its log is its part
//! of the history. So the history has of each seat exactly these (`RacedCalls`).
#![tactic(auto)]

pub mod race;
mod racer;
