//! The table of options: what each subcommand takes, what help says of it, and which options go together. `clap`'s
//! command is made of it, its contract and that of the orders cite it, and the rest of the crate reads options by it.
//!
//! `check` and `migrate` have the four numbers of a configuration as texts, since a number of theirs may have any
//! length. `clap` proves the limits of all other numbers. What it proves covers no rule between two options, so these are
//! looked at by the program. The texts of help spell the limits of a configuration once more.
//!
//! Rows are tuples, since a definition can't name a constant of a struct that holds references.
use mh_model::limits::{
    LEAST_QUANTUM, MOST_ENTRIES, MOST_EVERY, MOST_PAGES, MOST_QUANTUM, MOST_WORKERS, SESSIONS,
};

/// What is given with an option.
#[derive(Clone, Copy)]
pub(crate) enum Kind {
    /// Nothing.
    Flag,
    /// Any text, since the program reads it.
    Text,
    /// A number from the one to the other.
    Number(u64, u64),
    /// Such a number, which has to be given.
    Needed(u64, u64),
}

/// What is asked of options that `clap` takes.
#[derive(Clone, Copy)]
pub(crate) enum Rule {
    /// The first is given only with the second.
    Wants,
    /// The first is given beside the third only with the second.
    WantsWith,
    /// The first is given only with the second or the third.
    WantsUnless,
    /// The first isn't given with the second.
    Beside,
    /// The first isn't given with the second and the third.
    BesideWith,
    /// The text of the first is a share. In place of the second stands what it is to be.
    Share,
    /// That text has rates.
    Rates,
    /// It names a profile.
    Profile,
}

/// An option: its name, what help calls its value, what is given with it, and what help says.
pub(crate) type OptionRow = (&'static str, &'static str, Kind, &'static str);

/// A rule of two options, each with its kind, and of a third, which has the kind of the second.
pub(crate) type RuleRow = (Rule, Kind, &'static str, Kind, &'static str, &'static str);

/// A subcommand: its name, what help says of it, its usage, its statuses, its options, and their rules in the order in
/// which they are looked at.
pub(crate) type Subcommand = (
    &'static str,
    &'static str,
    &'static str,
    &'static str,
    &'static [OptionRow],
    &'static [RuleRow],
);

const FLAG: Kind = Kind::Flag;

const VALUE: Kind = Kind::Text;

/// The end of help for what runs a script: an example, and the statuses.
macro_rules! runs {
    ($example:literal) => {
        concat!(
            "Examples:\n  ",
            $example,
            "\n\nExit status: 0 if all events were answered, 1 if the script was refused, 2 if the command line was, 3 if memory was refused, a device failed or the history was full",
        )
    };
}

/// The same for what judges a history or a log.
macro_rules! judges {
    ($example:literal) => {
        concat!(
            "Examples:\n  ",
            $example,
            "\n\nExit status: 0 if the history or the log is legal, 1 if the text was refused, 2 if the command line was, 3 if memory was refused or a device failed, 4 if the history or the log is not legal",
        )
    };
}

const WORKERS: OptionRow = (
    "workers",
    "W",
    Kind::Number(1, MOST_WORKERS),
    "Maximum number of threads that scan in parallel [1..64, default 1]",
);

const RULES: OptionRow = (
    "rules",
    "R",
    Kind::Number(1, 2),
    "Version of the rules of large objects and units [1..2, default 2]",
);

const PAGES: OptionRow = (
    "pages",
    "P",
    Kind::Text,
    "Number of pages in the heap [1..4096]",
);

const QUANTUM: OptionRow = (
    "quantum",
    "K",
    Kind::Text,
    "Maximum number of units that a quantum spends [209..1000000]",
);

const TRIGGER: OptionRow = (
    "trigger",
    "T",
    Kind::Text,
    "Start a cycle when at most T pages are free [0..P]",
);

const EVERY: OptionRow = (
    "every",
    "E",
    Kind::Text,
    "Run a quantum after E units of the mutator; 0: run none [0..1000000]",
);

/// The most units of a round's mutator, and the most of its quantum: together fewer than a trace has at most.
pub(crate) const MOST_OF_A_ROUND: u64 = 2_305_843_009_213_693_951;

/// As many parts as the largest object has.
pub(crate) const MOST_PARTS: u32 = 3661;

/// The most quanta of a cycle.
pub(crate) const MOST_QUANTA: u32 = 1_000_000;

/// The table has two parts, since no function can be checked that holds all of it.
pub(crate) const FIRST_SUBCOMMANDS: &[Subcommand] = &[
    (
        "run",
        "Run a script: print the reply to each of its events, or the line that refuses the script",
        "metroheap run [--workers <W>] [--rules <R>] [--history] < SCRIPT",
        runs!("metroheap generate --seed 1 --events 100 | metroheap run"),
        &[
            WORKERS,
            RULES,
            (
                "history",
                "",
                Kind::Flag,
                "Print the history of the run, in version 2, in place of the replies",
            ),
        ],
        &[],
    ),
    (
        "steps",
        "Run a script and print each event with its reply, and below it what the collector, the barrier and the placing of new parts did",
        "metroheap steps [--from <N>] [--to <M>] [--json | --chrome] [--rules <R>] < SCRIPT",
        runs!("metroheap generate --seed 1 --events 100 | metroheap steps --from 90"),
        &[
            (
                "from",
                "N",
                Kind::Number(0, u32::MAX as u64),
                "First event whose deeds are printed, counted from 1 [0..4294967295, default 1]",
            ),
            (
                "to",
                "M",
                Kind::Number(0, u32::MAX as u64),
                "Last event whose deeds are printed [0..4294967295, default the last of all]",
            ),
            ("json", "", Kind::Flag, "Print one JSON object a line"),
            (
                "chrome",
                "",
                Kind::Flag,
                "Print Chrome trace events for a trace viewer; --from and --to don't limit cycles, quanta and counters",
            ),
            RULES,
        ],
        &[],
    ),
    (
        "cycles",
        "Run a script and print a line for each cycle of the collector: its cause, its events, its units by phase, and what it marked, freed and moved",
        "metroheap cycles [--rules <R>] < SCRIPT",
        runs!("metroheap generate --seed 1 --events 10000 | metroheap cycles"),
        &[RULES],
        &[],
    ),
    (
        "show",
        "Run a script and print an HTML file that shows the run in a browser: the pages, their slots and the grey list before and after each deed",
        "metroheap show [--from <N>] [--to <M>] [--rules <R>] < SCRIPT > FILE",
        runs!("metroheap generate --seed 1 --events 100 | metroheap show > run.html"),
        &[
            (
                "from",
                "N",
                Kind::Number(0, u32::MAX as u64),
                "First event that is shown, counted from 1 [0..4294967295, default 1]",
            ),
            (
                "to",
                "M",
                Kind::Number(0, u32::MAX as u64),
                "Last event that is shown [0..4294967295, default the last of all]",
            ),
            RULES,
        ],
        &[],
    ),
    (
        "live",
        "Answer each line of a script as it comes: the reply to its event, or the refusal of the line",
        "metroheap live [--workers <W>] [--world] < LINES",
        "Examples:\n  (echo config 4 209 0 0; echo a new 0 0 1; echo a shape 0) | metroheap live\n  (echo a new 0 0 1; echo a shape 0) | metroheap live --world\n\nExit status: 0 at the end of input, 2 if the command line was refused, 3 if a device failed or memory was refused for a line's text",
        &[
            WORKERS,
            (
                "world",
                "",
                Kind::Flag,
                "Answer for a heap that never collects and is never full; no configuration comes first",
            ),
        ],
        &[],
    ),
    (
        "race",
        "Run a script with each session in a thread of its own: print the history that they make, or the line that refuses the script",
        "metroheap race [--workers <W>] < SCRIPT",
        runs!("metroheap generate --seed 1 --events 100 --profile race | metroheap race"),
        &[WORKERS],
        &[],
    ),
    (
        "check",
        "Judge a history of this collector (version 1), of any collector (--sessions) or a log of threads (--log): print how many entries a legal one has, the first bad entry, or the line that refuses it",
        "metroheap check --pages <P> --quantum <K> --trigger <T> --every <E> [--rules <R>] < HISTORY\n       metroheap check --sessions [--no-full] [--rules <R>] < HISTORY\n       metroheap check --log [--no-full] [--rules <R>] < LOG",
        judges!(
            "(echo history 1; echo 's0 new 0 0 1 = ok') | metroheap check --pages 4 --quantum 209 --trigger 0 --every 0\n  (echo history 1; echo 's0 new 0 0 1 = ok') | metroheap check --sessions\n  (echo log 1; echo '1 2 s0 new 0 0 1 = ok'; echo order 1; echo s0) | metroheap check --log"
        ),
        &[
            PAGES,
            QUANTUM,
            TRIGGER,
            EVERY,
            (
                "rules",
                "R",
                Kind::Number(1, 2),
                "Version of the rules of large objects and units [1..2, default 1; with --sessions that of the history, with --log 2]",
            ),
            (
                "sessions",
                "",
                Kind::Flag,
                "Judge the history of any collector, in version 1 or 2, by what its sessions see",
            ),
            (
                "no-full",
                "",
                Kind::Flag,
                "With --sessions or --log: an entry whose reply is `heap full` is bad",
            ),
            (
                "log",
                "",
                Kind::Flag,
                "Judge a log of threads by the order of its commands that stands below it",
            ),
        ],
        &[
            (Rule::Beside, FLAG, "sessions", FLAG, "log", ""),
            (Rule::Beside, VALUE, "pages", FLAG, "log", ""),
            (Rule::Beside, VALUE, "quantum", FLAG, "log", ""),
            (Rule::Beside, VALUE, "trigger", FLAG, "log", ""),
            (Rule::Beside, VALUE, "every", FLAG, "log", ""),
            (Rule::Beside, VALUE, "pages", FLAG, "sessions", ""),
            (Rule::Beside, VALUE, "quantum", FLAG, "sessions", ""),
            (Rule::Beside, VALUE, "trigger", FLAG, "sessions", ""),
            (Rule::Beside, VALUE, "every", FLAG, "sessions", ""),
            (Rule::WantsUnless, FLAG, "no-full", FLAG, "sessions", "log"),
        ],
    ),
    (
        "audit",
        "Judge a history of this collector (version 2) with its units: print how many entries a legal one has, the first bad entry, or the line that refuses it",
        "metroheap audit < HISTORY",
        judges!(
            "metroheap generate --seed 1 --events 100 | metroheap run --history | metroheap audit"
        ),
        &[],
        &[],
    ),
    (
        "migrate",
        "Print a legal history of version 1 as one of version 2; for any other text, print what check prints",
        "metroheap migrate --pages <P> --quantum <K> --trigger <T> --every <E> < HISTORY",
        judges!(
            "(echo history 1; echo 's0 new 0 0 1 = ok') | metroheap migrate --pages 4 --quantum 209 --trigger 0 --every 0"
        ),
        &[PAGES, QUANTUM, TRIGGER, EVERY],
        &[],
    ),
];

pub(crate) const LAST_SUBCOMMANDS: &[Subcommand] = &[
    (
        "generate",
        "Print a random script. The same options print the same bytes",
        "metroheap generate --seed <N> --events <M> [--sessions <S>] [--pages <P>] [--quantum <K>] [--trigger <T>] [--every <E>] [--profile <NAME>] [--controls <C>] [--rules <R>]",
        "Examples:\n  metroheap generate --seed 1 --events 100 --profile trees > trees.script\n\nExit status: 0 if the script was written, 2 if the command line was refused, 3 if memory was refused or a device failed",
        &[
            (
                "seed",
                "N",
                Kind::Needed(0, u64::MAX),
                "Seed of the random numbers [0..18446744073709551615]",
            ),
            (
                "events",
                "M",
                Kind::Needed(1, MOST_ENTRIES),
                "Number of events in the script [1..1000000]",
            ),
            (
                "sessions",
                "S",
                Kind::Number(1, SESSIONS as u64),
                "Number of sessions that do the work [1..8, default 4]",
            ),
            (
                "pages",
                "P",
                Kind::Number(1, MOST_PAGES as u64),
                "Number of pages in the heap [1..4096, default 64]",
            ),
            (
                "quantum",
                "K",
                Kind::Number(LEAST_QUANTUM as u64, MOST_QUANTUM as u64),
                "Maximum number of units that a quantum spends [209..1000000, default 250]",
            ),
            (
                "trigger",
                "T",
                Kind::Number(0, MOST_PAGES as u64),
                "Start a cycle when at most T pages are free [0..P, default half of P]",
            ),
            (
                "every",
                "E",
                Kind::Number(0, MOST_EVERY as u64),
                "Run a quantum after E units of the mutator; 0: run none [0..1000000, default 25]",
            ),
            (
                "profile",
                "NAME",
                Kind::Text,
                "Mix of events; mixed is the first seven in turn [churn, lists, trees, wide, large, frag, refusals, barriers, comb, fans, race, cycles or mixed, default mixed]",
            ),
            (
                "controls",
                "C",
                Kind::Number(0, MOST_ENTRIES),
                "Make every C-th event `* quantum`, with no other controls; 0: no controls [0..1000000, default random controls]",
            ),
            (
                "rules",
                "R",
                Kind::Number(1, 2),
                "Version of the rules that the script is for; under 1 no event is `* left` [1..2, default 2]",
            ),
        ],
        &[(
            Rule::Profile,
            VALUE,
            "profile",
            VALUE,
            "churn, lists, trees, wide, large, frag, refusals, barriers, comb, fans, race, cycles or mixed",
            "",
        )],
    ),
    (
        "curve",
        "Print the minimum mutator utilisation (MMU) in windows of each length, of the run of a script, of a history of version 2 or of a log of pauses, or the line that refuses the text; and judge what is promised of all windows",
        "metroheap curve [--svg] [--rules <R>] [PROMISES] < SCRIPT\n       metroheap curve --history [--svg] [PROMISES] < HISTORY\n       metroheap curve --pauses [--svg] [PROMISES] < LOG\n       PROMISES are --every <M> --quantum <K>, --longest <N> and --keeps <U:W>",
        "Examples:\n  metroheap generate --seed 1 --events 1000 | metroheap curve\n  metroheap generate --seed 1 --events 1000 | metroheap run --history | metroheap curve --history --svg > curve.svg\n  (echo mutator 8000; echo collector 2000; echo mutator 9000) | metroheap curve --pauses --longest 2500 --keeps 70:10000\n\nExit status: 0 if the curve was printed and each promise is kept, 1 if the text was refused, 2 if the command line was, 3 if memory was refused, a device failed or the history was full, 4 if a promise is broken",
        &[
            RULES,
            (
                "history",
                "",
                Kind::Flag,
                "Read a history of version 2, of any collector; nothing is replayed",
            ),
            (
                "pauses",
                "",
                Kind::Flag,
                "Read a log of pauses: lines `mutator N` and `collector N`, in nanoseconds or any other unit",
            ),
            (
                "svg",
                "",
                Kind::Flag,
                "Print a picture in SVG in place of a table",
            ),
            (
                "every",
                "M",
                Kind::Number(1, MOST_OF_A_ROUND),
                "Promised: the mutator has at least M units before each quantum; needs --quantum [1..2305843009213693951]",
            ),
            (
                "quantum",
                "K",
                Kind::Number(1, MOST_OF_A_ROUND),
                "Promised: a quantum spends at most K units; needs --every [1..2305843009213693951]",
            ),
            (
                "longest",
                "N",
                Kind::Number(0, u64::MAX),
                "Promised: no pause is longer than N units [0..18446744073709551615]",
            ),
            (
                "keeps",
                "U:W",
                Kind::Text,
                "Promised: the mutator has at least U per cent of each stretch of W units or more [U 0..100, W 0..18446744073709551615]",
            ),
        ],
        &[
            (Rule::Wants, VALUE, "every", VALUE, "quantum", ""),
            (Rule::Wants, VALUE, "quantum", VALUE, "every", ""),
            (
                Rule::Share,
                VALUE,
                "keeps",
                VALUE,
                "U:W with 0 to 100 per cent and a number of units",
                "",
            ),
            (Rule::Beside, FLAG, "pauses", FLAG, "history", ""),
        ],
    ),
    (
        "size",
        "Run a script in heaps of other sizes, and print what is live, the fewest pages that were found to be enough, and what more pages change; or print the pages that suffice for all programs that keep to some counts (--used); or print the quantum that leaves the mutator a share of each window (--target)",
        "metroheap size [--rules <R>] [--window <W>] < SCRIPT\n       metroheap size --used <U> --every <M> --rate <WORDS:PARTS/UNITS[+BURST],..> [--parts <N>] (--quanta <Q> | --quantum <K>)\n       metroheap size --target <U> --window <D> [--every <M> | --quantum <K>]",
        "Examples:\n  metroheap generate --seed 1 --events 1000 --profile churn | metroheap size\n  metroheap size --used 75 --every 5000 --rate 8:20/1000 --quanta 2\n  metroheap size --target 50 --window 10000\n\nExit status: 0 if a size was printed, 1 if the script was refused, 2 if the command line was, 3 if memory was refused, a device failed or the history was full, 4 if there is no such size",
        &[
            RULES,
            (
                "window",
                "W",
                Kind::Number(1, u64::MAX),
                "Length of a window in units. For a script, the least share of the mutator in such windows is printed; with --target, all windows of this length and longer have the share [1..18446744073709551615, default for a script: 10 * (QUANTUM + EVERY)]",
            ),
            (
                "used",
                "U",
                Kind::Number(0, MOST_PAGES as u64),
                "Maximum number of pages in use when a cycle ends [0..4096]",
            ),
            (
                "every",
                "M",
                Kind::Number(1, MOST_EVERY as u64),
                "Run a quantum after M units of the mutator [1..1000000]",
            ),
            (
                "rate",
                "WORDS:PARTS/UNITS[+BURST],..",
                Kind::Text,
                "Allocation rate of each class: in any t units of the mutator at most BURST + t * PARTS / UNITS blocks, rounded up, of WORDS words, 4 of header among them [WORDS 4..64, others 1..1000000, default BURST 0]",
            ),
            (
                "parts",
                "N",
                Kind::Number(1, MOST_PARTS as u64),
                "Maximum number of blocks of an object [1..3661, default 1]",
            ),
            (
                "quanta",
                "Q",
                Kind::Number(1, MOST_QUANTA as u64),
                "Maximum number of quanta of a cycle [1..1000000]",
            ),
            (
                "quantum",
                "K",
                Kind::Number(LEAST_QUANTUM as u64, MOST_QUANTUM as u64),
                "Maximum number of units that a quantum spends. With --used it replaces --quanta: then the bound of any cycle counts [209..1000000]",
            ),
            (
                "target",
                "U",
                Kind::Number(1, 100),
                "Share that the mutator is to have of each window, in per cent [1..100]",
            ),
        ],
        &[
            (Rule::Beside, VALUE, "rules", VALUE, "target", ""),
            (Rule::Beside, VALUE, "used", VALUE, "target", ""),
            (Rule::Beside, VALUE, "rate", VALUE, "target", ""),
            (Rule::Beside, VALUE, "parts", VALUE, "target", ""),
            (Rule::Beside, VALUE, "quanta", VALUE, "target", ""),
            (Rule::Wants, VALUE, "target", VALUE, "window", ""),
            (Rule::BesideWith, VALUE, "every", VALUE, "quantum", "target"),
            (Rule::Beside, VALUE, "rules", VALUE, "used", ""),
            (Rule::Beside, VALUE, "rules", VALUE, "rate", ""),
            (Rule::Beside, VALUE, "rules", VALUE, "parts", ""),
            (Rule::Beside, VALUE, "rules", VALUE, "quanta", ""),
            (Rule::Beside, VALUE, "rules", VALUE, "every", ""),
            (Rule::Beside, VALUE, "rules", VALUE, "quantum", ""),
            (Rule::WantsWith, VALUE, "window", VALUE, "target", "used"),
            (Rule::WantsWith, VALUE, "window", VALUE, "target", "rate"),
            (Rule::WantsWith, VALUE, "window", VALUE, "target", "parts"),
            (Rule::WantsWith, VALUE, "window", VALUE, "target", "quanta"),
            (Rule::WantsWith, VALUE, "window", VALUE, "target", "every"),
            (Rule::WantsWith, VALUE, "window", VALUE, "target", "quantum"),
            (Rule::Wants, VALUE, "rate", VALUE, "used", ""),
            (Rule::Wants, VALUE, "parts", VALUE, "used", ""),
            (Rule::Wants, VALUE, "quanta", VALUE, "used", ""),
            (Rule::WantsUnless, VALUE, "every", VALUE, "used", "target"),
            (Rule::WantsUnless, VALUE, "quantum", VALUE, "used", "target"),
            (Rule::Wants, VALUE, "used", VALUE, "every", ""),
            (
                Rule::Rates,
                VALUE,
                "rate",
                VALUE,
                "WORDS:PARTS/UNITS or WORDS:PARTS/UNITS+BURST with 4 to 64 words, each other number from 1 to 1000000, and each class once",
                "",
            ),
            (Rule::Wants, VALUE, "used", VALUE, "rate", ""),
            (Rule::Beside, VALUE, "quanta", VALUE, "quantum", ""),
            (Rule::WantsUnless, VALUE, "used", VALUE, "quanta", "quantum"),
        ],
    ),
];
