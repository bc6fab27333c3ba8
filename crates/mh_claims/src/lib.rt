//! Numbers from 0 that seats draw from one word, each once.
//!
//! The rule of the word and its laws are in `mh_seat_laws`.
#![tactic(auto)]

pub mod claims;
