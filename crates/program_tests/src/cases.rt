//! Worked texts of the subcommands, short enough that devices fail at each of their calls in turn.
use std::alloc::{AllocError, Global};

/// The words of a command line and a text, what the program writes of them, and its exit status.
#[derive(Clone, Copy)]
pub struct Case<'a> {
    pub words: &'a [&'a [u8]],
    pub input: &'a [u8],
    /// One output, and for a race of two sessions its other order.
    pub outputs: &'a [&'a [u8]],
    /// What is reported, or if words are refused, how that begins.
    pub told: &'a [u8],
    pub status: u8,
}

impl Case<'_> {
    pub fn is_output(&self, written: &[u8]) -> bool {
        for output in self.outputs {
            if *output == written {
                return true;
            }
        }
        false
    }

    /// Whether lines are answered as they come.
    pub fn is_live(&self) -> bool {
        self.words
            .get(1)
            .is_some_and(|word| *word == b"live".as_slice())
    }

    /// Whether this may be written before a read fails: nothing, and of lines that are answered as they come a prefix.
    pub fn is_written_early(&self, written: &[u8]) -> bool {
        written.is_empty()
            || (self.is_live() && (self.is_begun(written) || self.is_output(written)))
    }

    /// Whether this is less than an output, and a prefix of it.
    pub fn is_begun(&self, written: &[u8]) -> bool {
        for output in self.outputs {
            if written.len() < output.len() && output.starts_with(written) {
                return true;
            }
        }
        false
    }
}

/// Nothing is reported.
pub const NONE: &[u8] = b"";

pub const RUN: &[&[u8]] = &[b"metroheap", b"run"];

pub const RUN_HISTORY: &[&[u8]] = &[b"metroheap", b"run", b"--history", b"--rules=1"];

const STEPS: &[&[u8]] = &[b"metroheap", b"steps", b"--json", b"--to=1"];

const SHOW: &[&[u8]] = &[b"metroheap", b"show"];

pub const LIVE: &[&[u8]] = &[b"metroheap", b"live"];

pub const LIVE_WORLD: &[&[u8]] = &[b"metroheap", b"live", b"--world"];

pub const CHECK_SESSIONS: &[&[u8]] = &[b"metroheap", b"check", b"--sessions"];

pub const RACE: &[&[u8]] = &[b"metroheap", b"race"];

pub const CHECK: &[&[u8]] = &[
    b"metroheap",
    b"check",
    b"--pages=4",
    b"--quantum=353",
    b"--trigger=0",
    b"--every=0",
];

pub const AUDIT: &[&[u8]] = &[b"metroheap", b"audit"];

const CURVE: &[&[u8]] = &[b"metroheap", b"curve"];

const CURVE_HISTORY: &[&[u8]] = &[b"metroheap", b"curve", b"--history"];

const CURVE_PAUSES: &[&[u8]] = &[
    b"metroheap",
    b"curve",
    b"--pauses",
    b"--every=3",
    b"--quantum=1",
    b"--longest=1",
    b"--keeps=30:3",
];

pub const MIGRATE: &[&[u8]] = &[
    b"metroheap",
    b"migrate",
    b"--pages=4",
    b"--quantum=353",
    b"--trigger=0",
    b"--every=0",
];

/// A history of a cycle.
const HISTORY: &[u8] =
    b"history 1\ns0 new 0 0 0 = ok\n* start = ok\n* quantum = spent 353 phase sweep\n* quantum = spent 7 phase idle\n";

/// The same as version 2.
const RECORD: &[u8] =
    b"history 2 rules 1 4 353 0 0\ns0 new 0 0 0 = ok units 1 0\n* start = ok units 0 0\n* quantum = spent 353 phase sweep units 0 353\n* quantum = spent 7 phase idle units 0 7\n";

/// A history of which the last quantum has another reply.
const BAD_HISTORY: &[u8] =
    b"history 1\ns0 new 0 0 0 = ok\n* start = ok\n* quantum = spent 353 phase sweep\n* quantum = spent 8 phase idle\n";

/// A record of which the last quantum has other units.
const BAD_RECORD: &[u8] =
    b"history 2 rules 2 4 353 0 0\ns0 new 0 0 0 = ok units 1 0\n* start = ok units 0 0\n* quantum = spent 353 phase sweep units 0 353\n* quantum = spent 7 phase idle units 0 8\n";

const OTHER_RECORD: &[u8] = b"history 2 rules 1 4 353 0 0\ns0 new 0 0 0 = ok units 1 0\n";

const LEGAL: &[u8] = b"legal 4\n";

const FIRST_BAD: &[u8] = b"first bad 4\n";

/// What `check --sessions` tells of either.
const LOOKED_THROUGH: &[u8] = b"metroheap: entries 4 full 0 quanta 2 starts 1\n";

const OTHER_VERSION: &[u8] = b"refused 10 line 1\n";

/// Scripts that are run.
const SCRIPTS: &[Case<'static>] = &[
    // A cycle over one object, shown by a report.
    Case {
        words: RUN,
        input: b"config 4 353 0 0\na new 0 0 0\n* start\n* quantum\n* quantum\n* report 361\n",
        outputs: &[
            b"ok\nok\nspent 353 phase sweep\nspent 7 phase idle\nmutator 1 collector 360 quanta 2 greatest 353 window 361 least 1 floor none\n",
        ],
        told: NONE,
        status: 0,
    },
    // The steps of an event.
    Case {
        words: STEPS,
        input: b"config 4 353 0 0\na new 0 0 0\na new 1 0 0\n",
        outputs: &[
            b"{\"config\":[4,353,0,0],\"rules\":2}\n{\"session\":\"s0\",\"name\":\"a\"}\n{\"event\":1,\"text\":\"s0 new 0 0 0\",\"reply\":\"ok\",\"at\":0,\"mutator\":1}\n{\"event\":1,\"deed\":\"make\",\"place\":\"0.0\",\"birth\":0,\"part\":0,\"class\":4,\"references\":0,\"numbers\":0,\"tier\":\"free\"}\n{\"event\":2,\"text\":\"s0 new 1 0 0\",\"reply\":\"ok\",\"at\":1,\"mutator\":1}\n",
        ],
        told: NONE,
        status: 0,
    },
    // No page of a script that is refused.
    Case {
        words: SHOW,
        input: b"config 4 209 0 0\na walk\n",
        outputs: &[b"refused 10 line 2\n"],
        told: b"metroheap: line 2: \"walk\" is no command\n",
        status: 1,
    },
    // A script with a bad line after lines that are answered if it stands alone.
    Case {
        words: RUN,
        input: b"config 4 209 0 0\na new 0 0 1\n# a comment\n\na read 0 0\n\n\n\n\n\n\na walk\n",
        outputs: &[b"refused 10 line 12\n"],
        told: b"metroheap: line 12: \"walk\" is no command\n",
        status: 1,
    },
    // The history of a run, under the first rules.
    Case {
        words: RUN_HISTORY,
        input: b"config 4 353 0 0\na new 0 0 0\n* start\n* quantum\n* quantum\n",
        outputs: &[RECORD],
        told: NONE,
        status: 0,
    },
];

/// Scripts whose sessions race.
const RACES: &[Case<'static>] = &[
    // A cycle over one object, run by the scheduler in a race of one session.
    Case {
        words: RACE,
        input: b"config 4 353 4 2\na new 0 0 0\na shape 0\na shape 0\na shape 0\n",
        outputs: &[
            b"history 2 rules 2 4 353 4 2\ns0 new 0 0 0 = ok units 1 0\ns0 shape 0 = shape 0 0 units 1 353\ns0 shape 0 = shape 0 0 units 1 0\ns0 shape 0 = shape 0 0 units 1 7\n",
        ],
        told: NONE,
        status: 0,
    },
    // Two sessions with one command each, of which either may be first.
    Case {
        words: RACE,
        input: b"config 4 209 0 0\na clear 0\nb read 0 0\n",
        outputs: &[
            b"history 2 rules 2 4 209 0 0\ns0 clear 0 = ok units 1 0\ns1 read 0 0 = refused 2 null units 1 0\n",
            b"history 2 rules 2 4 209 0 0\ns1 read 0 0 = refused 2 null units 1 0\ns0 clear 0 = ok units 1 0\n",
        ],
        told: NONE,
        status: 0,
    },
    Case {
        words: RACE,
        input: b"config 4 209 0 0\na new 0 0 1\nb new 0 0 1\na walk\n",
        outputs: &[b"refused 10 line 4\n"],
        told: b"metroheap: line 4: \"walk\" is no command\n",
        status: 1,
    },
];

/// Histories that are judged with their units or migrated.
const HISTORIES: &[Case<'static>] = &[
    Case {
        words: CHECK,
        input: HISTORY,
        outputs: &[LEGAL],
        told: NONE,
        status: 0,
    },
    Case {
        words: AUDIT,
        input: RECORD,
        outputs: &[LEGAL],
        told: NONE,
        status: 0,
    },
    Case {
        words: MIGRATE,
        input: HISTORY,
        outputs: &[RECORD],
        told: NONE,
        status: 0,
    },
    Case {
        words: MIGRATE,
        input: BAD_HISTORY,
        outputs: &[FIRST_BAD],
        told: b"metroheap: line 5, entry 4: spent 8 phase idle, and right is spent 7 phase idle\n",
        status: 4,
    },
    // The program's name may be any bytes.
    Case {
        words: &[b"\xff\xfe", b"audit"],
        input: b"history 2 rules 2 4 209 0 0\ns0 clear 0 = no units 1 0\n",
        outputs: &[b"first bad 1\n"],
        told: b"metroheap: line 2, entry 1: no, and right is ok\n",
        status: 4,
    },
];

/// Histories of the other version, and histories by what sessions see.
const READ_OTHERWISE: &[Case<'static>] = &[
    // A history of the other version.
    Case {
        words: CHECK,
        input: OTHER_RECORD,
        outputs: &[OTHER_VERSION],
        told: b"metroheap: line 1: a history of version 2: audit reads it\n",
        status: 1,
    },
    // What sessions see, of either version.
    Case {
        words: CHECK_SESSIONS,
        input: BAD_RECORD,
        outputs: &[LEGAL],
        told: LOOKED_THROUGH,
        status: 0,
    },
    Case {
        words: CHECK_SESSIONS,
        input: b"history 1\ns0 new 0 0 1 = ok\n* stat = ok\ns0 read 0 0 = number 1\n",
        outputs: &[b"first bad 3\n"],
        told: b"metroheap: line 4, entry 3: number 1, and right is number 0\nmetroheap: entries 3 full 0 quanta 0 starts 0\n",
        status: 4,
    },
];

/// Curves of scripts, of histories and of logs of pauses.
const CURVES: &[Case<'static>] = &[
    // One unit of the mutator.
    Case {
        words: CURVE,
        input: b"config 4 209 0 0\na clear 0\n",
        outputs: &[
            b"mutator 1 collector 0 quanta 0 greatest 0\nwindow 1 least 1 share 100.00 floor none\n",
        ],
        told: NONE,
        status: 0,
    },
    // A unit of the mutator and then one of the collector, whatever is replied.
    Case {
        words: CURVE_HISTORY,
        input: b"history 2 rules 2 4 209 0 0\ns0 clear 0 = number 7 units 1 1\n",
        outputs: &[
            b"mutator 1 collector 1 greatest 1\nwindow 1 least 0 share 0.00 floor none\nwindow 2 least 1 share 50.00 floor none\n",
        ],
        told: NONE,
        status: 0,
    },
    // A log that breaks each promise.
    Case {
        words: CURVE_PAUSES,
        input: b"mutator 3\ncollector 2\nmutator 1\ncollector 2\n",
        outputs: &[
            b"mutator 4 collector 4 pauses 2 greatest 2 median 2 p90 2 p99 2\nwindow 2 least 0 at 3 share 0.00 always 0.00 floor 1\nwindow 3 least 1 at 2 share 33.33 always 20.00 floor 2\nwindow 4 least 1 at 3 share 25.00 always 20.00 floor 3\nwindow 5 least 1 at 3 share 20.00 always 20.00 floor 3\nwindow 6 least 2 at 2 share 33.33 always 33.33 floor 4\nwindow 7 least 3 at 1 share 42.85 always 42.85 floor 5\nwindow 8 least 4 at 0 share 50.00 always 50.00 floor 6\n",
        ],
        told: b"metroheap: the window 4 at 3 has 1, and 3 was promised\nmetroheap: a pause of 2 at 3, and 1 was promised\nmetroheap: the stretch from 3 to 8 has 1, and 30 % of 3 and more was promised\n",
        status: 4,
    },
    Case {
        words: CURVE_PAUSES,
        input: b"mutator 3\npause 2\n",
        outputs: &[b"refused 10 line 2\n"],
        told: b"metroheap: line 2: \"pause\" is no word of a log\n",
        status: 1,
    },
];

pub const GENERATE: &[&[u8]] = &[b"metroheap", b"generate", b"--seed=1", b"--events=12"];

/// The random script that these words ask for.
pub const RANDOM_SCRIPT: &[u8] = b"config 64 250 32 25
s0 new 0 16 0
s0 new 1 2 4
s0 put 1 0 0
s0 put 1 1 4
s0 copy 0 1
s1 put 3 0 9
s0 new 13 2 2
s1 new 0 16 0
s0 new 1 2 3
s0 put 1 0 0
s2 new 1 2 2
s0 put 1 1 4
";

/// A random script, for which nothing is read.
pub const GENERATED: Case<'static> = Case {
    words: GENERATE,
    input: b"config 4 209 0 0\n",
    outputs: &[RANDOM_SCRIPT],
    told: NONE,
    status: 0,
};

/// Lines that are answered as they come, so that answers are written before all is read.
const LIVE_CASES: &[Case<'static>] = &[
    Case {
        words: LIVE,
        input: b"a clear 0\nconfig 4 353 0 0\na new 0 0 0\n* start\n* walk\n* quantum\n* quantum\n",
        outputs: &[
            b"refused 10 line 1\nok\nok\nrefused 10 line 5\nspent 353 phase sweep\nspent 7 phase idle\n",
        ],
        told: b"metroheap: line 1: \"a\": config PAGES QUANTUM TRIGGER EVERY comes first\nmetroheap: line 5: \"walk\" is no control\n",
        status: 0,
    },
    Case {
        words: LIVE_WORLD,
        input: b"a new 0 0 1\n* quantum\na write 0 0 7\na walk\nb clear 16\na read 0 0\n",
        outputs: &[
            b"ok\nrefused 11 no collector\nok\nrefused 10 line 4\nrefused 1 bad slot\nnumber 7\n",
        ],
        told: b"metroheap: line 4: \"walk\" is no command\n",
        status: 0,
    },
    // A last line without its end.
    Case {
        words: LIVE,
        input: b"config 4 209 0 0\na new 0 0 1\na write 0 0 7\n\n# a comment\na read 0 0\na shape 0",
        outputs: &[b"ok\nok\nnumber 7\nrefused 10 line 7\n"],
        told: b"metroheap: line 7: the last line has no newline\n",
        status: 0,
    },
];

// A function that names a table is proved with all of it at hand, so each table has one that does no more.

fn scripts() -> &'static [Case<'static>] {
    SCRIPTS
}

fn races() -> &'static [Case<'static>] {
    RACES
}

fn histories() -> &'static [Case<'static>] {
    HISTORIES
}

fn read_otherwise() -> &'static [Case<'static>] {
    READ_OTHERWISE
}

fn curves() -> &'static [Case<'static>] {
    CURVES
}

/// Texts that are read before anything is written.
pub fn cases(alloc: Global) -> Result<Vec<Case<'static>>, AllocError> {
    let mut cases = Vec::new(alloc);
    for table in [scripts(), races(), histories(), read_otherwise(), curves()] {
        cases.extend_from_slice(table)?;
    }
    Ok(cases)
}

pub fn live_cases() -> &'static [Case<'static>] {
    LIVE_CASES
}
