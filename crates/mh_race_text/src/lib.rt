//! Races of the sessions of a script, from text to text.
//!
//! They are a crate beside `mh_script`, so that runs of scripts wait for no lock.
#![tactic(auto)]

pub mod race;
