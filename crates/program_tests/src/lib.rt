//! Tests of the program: its threads, which really run at once, its devices, which fail, and its memory, which is refused.
#![tactic(auto)]

#[cfg(test)]
mod calls;
#[cfg(test)]
mod cases;
#[cfg(test)]
mod comparing;
#[cfg(test)]
mod crew_tests;
#[cfg(test)]
mod device_tests;
#[cfg(test)]
mod graph;
#[cfg(test)]
mod launch_tests;
#[cfg(test)]
mod live_answers;
#[cfg(test)]
mod long_tests;
#[cfg(test)]
mod memory_race_tests;
#[cfg(test)]
mod memory_text_tests;
#[cfg(test)]
mod page_tests;
#[cfg(test)]
mod program;
#[cfg(test)]
mod prompt_tests;
#[cfg(test)]
mod race_tests;
#[cfg(test)]
mod refusal_tests;
#[cfg(test)]
mod sweep;
#[cfg(test)]
mod texts;
#[cfg(test)]
mod trial;
#[cfg(test)]
mod trouble;
