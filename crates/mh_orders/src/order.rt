//! Orders, and the options of a configuration. An order has all that the program needs but its devices. A
//! configuration in it is within the limits, since its type is. That workers are from 1 to 64 is a clause of
//! `line_order`.
use crate::curve::CurveOptions;
use crate::generate_options::Options;
use crate::range::RangeOptions;
use crate::room_options::RoomOptions;
use crate::steps::Steps;
use crate::target_options::TargetOptions;
use mh_model::config::{Config, Rules};
use thiserror::Error;

/// What a run of a script writes.
#[derive(Clone, Copy, Debug, PartialEq, Eq)]
pub enum RunForm {
    /// The reply to each event.
    Replies,
    /// A history of version 2.
    History,
}

/// How a script is run.
#[derive(Clone, Copy, Debug, PartialEq, Eq)]
pub struct RunOptions {
    /// How many threads scan at a time at most.
    pub workers: usize,
    pub rules: Rules,
    pub form: RunForm,
}

/// How the steps of a script are written.
#[derive(Clone, Copy, Debug, PartialEq, Eq)]
pub struct StepsOptions {
    pub steps: Steps,
    pub rules: Rules,
}

/// How a history is judged by what its sessions see.
#[derive(Clone, Copy, Debug, PartialEq, Eq)]
pub struct SessionsOptions {
    /// The rules, if not those that it names.
    pub rules: Option<Rules>,
    /// Whether a heap may be full. Else each entry that is makes the history bad.
    pub may_be_full: bool,
}

/// How a log of threads is judged.
#[derive(Clone, Copy, Debug, PartialEq, Eq)]
pub struct LogOptions {
    pub rules: Rules,
    /// Whether a heap may be full. Else each entry that is makes the order bad.
    pub may_be_full: bool,
}

/// What the lines of `live` are answered by.
#[derive(Clone, Copy, Debug, PartialEq, Eq)]
pub enum LiveHeap {
    /// The machine of the configuration that they begin with.
    Machine,
    /// A world, which never collects, never moves and is never full, under the second rules.
    World,
}

/// How lines are answered as they come.
#[derive(Clone, Copy, Debug, PartialEq, Eq)]
pub struct LiveOptions {
    /// How many threads scan at a time at most.
    pub workers: usize,
    pub heap: LiveHeap,
}

/// How a script is sized.
#[derive(Clone, Copy, Debug, PartialEq, Eq)]
pub struct SizeOptions {
    pub rules: Rules,
    /// How long the windows are of which the mutator's share is written, and ten rounds if it is not given.
    pub window: Option<u64>,
}

/// What the program is to do.
#[derive(Clone, Copy, Debug, PartialEq, Eq)]
pub enum Order {
    /// Run the script on standard input.
    Run(RunOptions),
    /// Run the script on standard input, and tell what each event did.
    Steps(StepsOptions),
    /// Run the script on standard input, and write it as Chrome trace events.
    Chrome(RangeOptions),
    /// Run the script on standard input under these rules, and write a line for each cycle.
    Cycles(Rules),
    /// Run the script on standard input, and write a page that shows these events.
    Show(RangeOptions),
    /// Answer each line of standard input as it comes.
    Live(LiveOptions),
    /// Let the sessions of the script on standard input race, with so many workers at most.
    Race(usize),
    /// Check the history on standard input, of version 1, under a configuration.
    Check(Config),
    /// Check the history on standard input, of either version, by what its sessions see.
    CheckSessions(SessionsOptions),
    /// Check the log of threads on standard input, and its order.
    CheckLog(LogOptions),
    /// Audit the history on standard input, of version 2.
    Audit,
    /// Write the history on standard input, of version 1, as version 2.
    Migrate(Config),
    /// Write the curve of a run of the script on standard input under these rules.
    Curve(Rules, CurveOptions),
    /// Write the curve of the history on standard input, of version 2.
    CurveHistory(CurveOptions),
    /// Write the curve of the log of pauses on standard input.
    CurvePauses(CurveOptions),
    /// Write the random script that is asked for.
    Generate(Options),
    /// Run the script on standard input in heaps of other sizes, and write what was seen.
    SizeScript(SizeOptions),
    /// Write the heap that has room for all programs of which this is so.
    SizeRoom(RoomOptions),
    /// Write which quantum keeps a share of the mutator.
    SizeTarget(TargetOptions),
    /// Write the version of the program.
    Version,
}

/// An option that gives a number of a configuration, with its limits.
#[derive(Clone, Copy, Debug, PartialEq, Eq, Error)]
pub enum ConfigOption {
    #[error("--pages goes from 1 to 4096")]
    Pages,
    #[error("--quantum goes from 209 to 1000000")]
    Quantum,
    #[error("--trigger goes from 0 to the number of pages")]
    Trigger,
    #[error("--every goes from 0 to 1000000")]
    Every,
}
