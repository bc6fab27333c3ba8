//! Tests of calls that the program doesn't make, or of what its output doesn't show: words of pages, roots, heaps that never
//! collect, runs and judges in memory, and machines that forget; crews, locks and services in several threads; and what
//! each part does when memory is refused to it. What texts show is in `script_cases`.
//!
//! They are one crate, since most of what a crate of tests costs is building all that it stands on.
#![tactic(auto)]

#[cfg(test)]
mod answers;
#[cfg(test)]
mod asked;
#[cfg(test)]
mod called;
#[cfg(test)]
mod callers;
#[cfg(test)]
mod crew_tests;
#[cfg(test)]
mod famine_tests;
#[cfg(test)]
mod forget_tests;
#[cfg(test)]
mod judge_tests;
#[cfg(test)]
mod lock_tests;
#[cfg(test)]
mod marks;
#[cfg(test)]
mod opening_tests;
#[cfg(test)]
mod page_tests;
#[cfg(test)]
mod plain_tests;
#[cfg(test)]
mod reply_tests;
#[cfg(test)]
mod root_tests;
#[cfg(test)]
mod run_tests;
#[cfg(test)]
mod scan_tests;
#[cfg(test)]
mod scripts;
#[cfg(test)]
mod seat_tests;
#[cfg(test)]
mod service_tests;
#[cfg(test)]
mod starved_run_tests;
#[cfg(test)]
mod starved_seat_tests;
#[cfg(test)]
mod starved_service_tests;
#[cfg(test)]
mod state_tests;
#[cfg(test)]
mod sweep;
