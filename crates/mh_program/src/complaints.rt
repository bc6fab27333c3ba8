//! What standard error gets of words, scripts and histories that are refused, and of faults.
//!
//! Only a line that quotes its input takes memory. If there is none, a line comes that gives no reason; for words it
//! is `metroheap: bad command line`. The lines of `ScriptFault` are named once, in `mh_script`. Those of `LineFault`
//! stand here once more, since a contract names them, with the limits of a configuration.
ghost use Rattle.std.specs.Prelude.{◌≡◌, ◌+◌, ◌++◌, IfOk, IfSome, MatchResult, Some};
ghost use Rattle.mh_model.specs.Bytes.{line_text};
ghost use Rattle.mh_command_line.specs.Printable.{IsPrintable};
ghost use Rattle.mh_program.specs.Complaints.{More, None, Says, SaysCounts, SaysCurve, SaysEnd, SaysFound, SaysJudgement, SaysLine, SaysLog, SaysLogJudgement, SaysPromises, SaysQuoted, SaysRefusal, SaysRefusals, SaysSeen, SaysSeenJudgement, SaysSized, SaysTally, SaysWords, counts_text, fault_text, floor_text, outside_text, pause_text, seen_reason_text, stretch_text, subject_text, tally_text, untried_floor_text, untried_pause_text, untried_stretch_text};

use crate::errors::Errors;
use arrayvec::ArrayString;
use itoa::Buffer;
use mh_command_line::fault::LineFault;
use mh_command_line::quoted::printable;
use mh_judge::judgement::{HistoryJudgement, Judgement};
use mh_judge_log::judgement::{JudgedLog, LogJudgement};
use mh_judge_log::tally::OrderCounts;
use mh_judge_sessions::sessions_judgement::SessionsJudgement;
use mh_judge_sessions::tally::EntryCounts;
use mh_live::listener::Listener;
use mh_orders::order::ConfigOption;
use mh_orders::promises::{Round, Share};
use mh_reasons::history_reason::HistoryReason;
use mh_script::end::{End, LineRefusal};
use mh_script::fault::{HISTORY_FULL, NO_MEMORY, READ_FAILED, ScriptFault, WRITE_FAILED};
use mh_size_text::end::SizeEnd;
use mh_text::sink::Sink;
use mh_window_curve::end::CurveEnd;
use mh_window_curve::promises::{LongPause, PromiseJudgement, ShortStretch};
use mh_windows::floor::BrokenFloor;
use std::alloc::{AllocError, Global};
use std::fmt;
use std::fmt::Write;

/// The most bytes of the line of what was looked through.
const TALLY_BYTES: usize = 128;

/// The most bytes of the line of a promise that isn't kept.
const PROMISE_BYTES: usize = 256;

// Lines for complaints without memory for them.
const SCRIPT_REFUSED: &[u8] = b"metroheap: the script is outside the grammar\n";

const HISTORY_REFUSED: &[u8] = b"metroheap: the history is outside the grammar\n";

const LOG_REFUSED: &[u8] = b"metroheap: the log is outside the grammar\n";

const BAD_ENTRY: &[u8] = b"metroheap: an entry is bad\n";

/// The line that names a fault of a run.
pub(crate) fn fault_line(fault: ScriptFault) -> &'static [u8]
    ensures { result.now ≡ line_text (fault_text fault) }
{
    match fault {
        ScriptFault::Read => READ_FAILED.as_bytes(),
        ScriptFault::Write => WRITE_FAILED.as_bytes(),
        ScriptFault::NoMemory => NO_MEMORY.as_bytes(),
        ScriptFault::HistoryFull => HISTORY_FULL.as_bytes(),
    }
}

/// The line for an option that is outside the limits of a configuration.
fn outside_line(option: ConfigOption) -> &'static [u8]
    ensures { result.now ≡ line_text (outside_text option) }
{
    match option {
        ConfigOption::Pages => b"metroheap: bad configuration: --pages goes from 1 to 4096\n",
        ConfigOption::Quantum =>
            b"metroheap: bad configuration: --quantum goes from 209 to 1000000\n",
        ConfigOption::Trigger =>
            b"metroheap: bad configuration: --trigger goes from 0 to the number of pages\n",
        ConfigOption::Every => b"metroheap: bad configuration: --every goes from 0 to 1000000\n",
    }
}

/// What a complaint is about.
#[derive(Clone, Copy)]
enum Subject {
    Line(u64),
    /// An entry of a history. Entries begin at line 2.
    Entry(u64),
    /// An entry of the order of a log.
    Order(u64),
}

impl fmt::Display for Subject {
    ghost output = { λ subject. Some (subject_text subject) };

    fn fmt<W: fmt::Write>(&self, f: &mut fmt::Formatter<W>) -> fmt::Result {
        match *self {
            Subject::Line(line) => write!(f, "metroheap: line {line}: "),
            Subject::Entry(number) => {
                let line = u128::from(number) + 1;
                write!(f, "metroheap: line {line}, entry {number}: ")
            }
            Subject::Order(number) => write!(f, "metroheap: entry {number} of the order: "),
        }
    }
}

/// The line that says where something is wrong, and what.
fn complaint<T: fmt::Display>(
    alloc: Global,
    subject: Subject,
    what: &T,
) -> Result<Vec<u8>, AllocError>
    ensures { IfOk result (λ text. IfSome (T.output what.now) (λ said. text.items ≡ subject_text subject ++ line_text said)) }
{
    let what = format!(in alloc; "{what}")?;
    let text = format!(in alloc; "{subject}{what}\n")?;
    Ok(text.into_bytes())
}

/// The line of what was looked through of a history. It takes no memory.
fn tally_line(tally: EntryCounts) -> ArrayString<TALLY_BYTES>
    ensures { result.bytes ≡ tally_text tally }
{
    let EntryCounts {
        entries,
        full,
        quanta,
        starts,
    } = tally;
    let mut text = ArrayString::new();
    text.push_str("metroheap: entries ");
    text.push_str(Buffer::new().format(entries));
    text.push_str(" full ");
    text.push_str(Buffer::new().format(full));
    text.push_str(" quanta ");
    text.push_str(Buffer::new().format(quanta));
    text.push_str(" starts ");
    text.push_str(Buffer::new().format(starts));
    text.push_str("\n");
    text
}

/// The line of what was looked through of the order of a log. It takes no memory.
fn counts_line(counts: OrderCounts) -> ArrayString<TALLY_BYTES>
    ensures { result.bytes ≡ counts_text counts }
{
    let mut text = ArrayString::new();
    text.push_str("metroheap: entries ");
    text.push_str(Buffer::new().format(counts.entries));
    text.push_str(" full ");
    text.push_str(Buffer::new().format(counts.full));
    text.push_str("\n");
    text
}

/// The line of a window that is below its floor. The lines of promises take no memory.
fn floor_line(floor: BrokenFloor) -> ArrayString<PROMISE_BYTES>
    ensures { result.bytes ≡ floor_text floor }
{
    let mut text = ArrayString::new();
    text.push_str("metroheap: the window ");
    text.push_str(Buffer::new().format(floor.window));
    text.push_str(" at ");
    text.push_str(Buffer::new().format(floor.at));
    text.push_str(" has ");
    text.push_str(Buffer::new().format(floor.least));
    text.push_str(", and ");
    text.push_str(Buffer::new().format(floor.floor));
    text.push_str(" was promised\n");
    text
}

/// The line of a pause that is too long.
fn pause_line(long: LongPause) -> ArrayString<PROMISE_BYTES>
    ensures { result.bytes ≡ pause_text long }
{
    let mut text = ArrayString::new();
    text.push_str("metroheap: a pause of ");
    text.push_str(Buffer::new().format(long.pause.units));
    text.push_str(" at ");
    text.push_str(Buffer::new().format(long.pause.start));
    text.push_str(", and ");
    text.push_str(Buffer::new().format(long.promised));
    text.push_str(" was promised\n");
    text
}

/// The line of a stretch that is below its share.
fn stretch_line(short: ShortStretch) -> ArrayString<PROMISE_BYTES>
    ensures { result.bytes ≡ stretch_text short }
{
    let mut text = ArrayString::new();
    text.push_str("metroheap: the stretch from ");
    text.push_str(Buffer::new().format(short.stretch.start));
    text.push_str(" to ");
    text.push_str(Buffer::new().format(short.stretch.end));
    text.push_str(" has ");
    text.push_str(Buffer::new().format(short.units));
    text.push_str(", and ");
    text.push_str(Buffer::new().format(short.promised.percent));
    text.push_str(" % of ");
    text.push_str(Buffer::new().format(short.promised.from));
    text.push_str(" and more was promised\n");
    text
}

/// The line of a floor that no window of so few units has.
fn untried_floor_line(units: u64) -> ArrayString<PROMISE_BYTES>
    ensures { result.bytes ≡ untried_floor_text units }
{
    let mut text = ArrayString::new();
    text.push_str("metroheap: not tried: a trace of ");
    text.push_str(Buffer::new().format(units));
    text.push_str(" units has no window with a floor");
    text.push_str("\n");
    text
}

/// The line of a pause that so few units don't exceed.
fn untried_pause_line(units: u64, most: u64) -> ArrayString<PROMISE_BYTES>
    ensures { result.bytes ≡ untried_pause_text units most }
{
    let mut text = ArrayString::new();
    text.push_str("metroheap: not tried: a trace of ");
    text.push_str(Buffer::new().format(units));
    text.push_str(" units has no pause of more than ");
    text.push_str(Buffer::new().format(most));
    text.push_str("\n");
    text
}

/// The line of a stretch that so few units don't have.
fn untried_stretch_line(units: u64, share: Share) -> ArrayString<PROMISE_BYTES>
    ensures { result.bytes ≡ untried_stretch_text units share }
{
    let mut text = ArrayString::new();
    text.push_str("metroheap: not tried: a trace of ");
    text.push_str(Buffer::new().format(units));
    text.push_str(" units has no stretch of ");
    text.push_str(Buffer::new().format(share.from));
    text.push_str(" and more");
    text.push_str("\n");
    text
}

fn words_text(alloc: Global, error: &clap::Error) -> Result<Vec<u8>, AllocError>
    ensures { IfOk result (λ text. IsPrintable text.items) }
{
    let text = format!(in alloc; "{error}")?;
    printable(alloc, text.as_str())
}

/// Why a history is refused that is judged by what its sessions see. The entries of one that was cut off were judged.
#[derive(Clone, Copy)]
struct SeenRefusal<'a> {
    line: u64,
    reason: &'a HistoryReason,
}

impl fmt::Display for SeenRefusal<'_> {
    ghost output = { λ refusal. Some (seen_reason_text refusal.line refusal.reason.now) };

    fn fmt<W: fmt::Write>(&self, f: &mut fmt::Formatter<W>) -> fmt::Result {
        write!(f, "{}", self.reason)?;
        if self.line > 1 && matches!(self.reason, HistoryReason::NoNewline) {
            let legal = self.line - 2;
            write!(f, "; legal entries before it: {legal}")?;
        }
        Ok(())
    }
}

impl<E: Sink> Errors<E> {
    /// Writes a text that quotes an input, or another if there was no memory for it.
    fn say_quoted(&mut self, text: Result<Vec<u8>, AllocError>, other: &[u8])
        ensures { MatchResult text (λ text. Says self.old self.new text.items) (λ _. Says self.old self.new other.now) }
    {
        match text {
            Ok(text) => self.say(text.as_slice()),
            Err(_) => self.say(other),
        }
    }

    /// Says where something is wrong and what, or another text if there was no memory for that.
    fn say_complaint<T: fmt::Display>(&mut self, subject: Subject, what: &T, other: &[u8])
        ensures { IfSome (T.output what.now) (λ said. SaysQuoted self.old self.new (λ text. text ≡ subject_text subject ++ line_text said) other.now) }
    {
        let text = complaint(self.alloc(), subject, what);
        self.say_quoted(text, other);
    }

    /// Says what `clap` says of words, or if there is no memory for that, that they are bad.
    fn say_words(&mut self, error: &clap::Error)
        ensures { SaysWords self.old self.new }
    {
        let text = words_text(self.alloc(), error);
        self.say_quoted(text, b"metroheap: bad command line\n");
    }

    /// Says why words gave no order.
    pub(crate) fn say_line(&mut self, fault: &LineFault)
        ensures { SaysLine self.old self.new fault.now }
    {
        match fault {
            LineFault::Words(error) => self.say_words(error),
            LineFault::NotText => self.say(b"metroheap: a word is not text\n"),
            LineFault::Configuration(option) => self.say(outside_line(*option)),
            LineFault::NoMemory => self.say(b"metroheap: no memory\n"),
        }
    }

    /// Says where and why a script is refused.
    pub(crate) fn say_refusal(&mut self, refusal: &LineRefusal)
        ensures { SaysRefusal self.old self.new refusal.now }
    {
        self.say_complaint(Subject::Line(refusal.line), &refusal.reason, SCRIPT_REFUSED);
    }

    /// Says why a run or a race was refused, if it was.
    pub(crate) fn say_end(&mut self, end: &End)
        ensures { SaysEnd self.old self.new end.now }
    {
        if let End::Refused(refusal) = end {
            self.say_refusal(refusal);
        }
    }

    /// Says why a script was not sized, if it wasn't.
    pub(crate) fn say_size(&mut self, end: &SizeEnd)
        ensures { SaysSized self.old self.new end.now }
    {
        match end {
            SizeEnd::Sized | SizeEnd::NoSize => {}
            SizeEnd::Refused(refusal) => self.say_refusal(refusal),
        }
    }

    /// Says what is wrong with a history, if anything is.
    pub(crate) fn say_judgement(&mut self, judgement: &HistoryJudgement)
        ensures { SaysJudgement self.old self.new judgement.now }
    {
        match judgement {
            Judgement::Legal(_) => {}
            Judgement::Refused { line, reason } => {
                self.say_complaint(Subject::Line(*line), reason, HISTORY_REFUSED);
            }
            Judgement::FirstBad { number, fault } => {
                self.say_complaint(Subject::Entry(*number), fault, BAD_ENTRY);
            }
        }
    }

    fn say_seen_found(&mut self, judgement: &HistoryJudgement)
        ensures { SaysSeenJudgement self.old self.new judgement.now }
    {
        match judgement {
            Judgement::Refused { line, reason } => {
                let refusal = SeenRefusal {
                    line: *line,
                    reason,
                };
                self.say_complaint(Subject::Line(*line), &refusal, HISTORY_REFUSED);
            }
            _ => self.say_judgement(judgement),
        }
    }

    fn say_tally(&mut self, tally: Option<EntryCounts>)
        ensures { SaysTally self.old self.new tally }
    {
        if let Some(tally) = tally {
            self.say(tally_line(tally).as_str().as_bytes());
        }
    }

    /// Says what is wrong with a history by what its sessions see, and what was looked through.
    pub(crate) fn say_seen(&mut self, found: &SessionsJudgement)
        ensures { SaysSeen self.old self.new found.now }
    {
        self.say_seen_found(&found.judgement);
        self.say_tally(found.tally);
    }

    fn say_log_judgement(&mut self, judgement: &LogJudgement)
        ensures { SaysLogJudgement self.old self.new judgement.now }
    {
        match judgement {
            Judgement::Legal(_) => {}
            Judgement::Refused { line, reason } => {
                self.say_complaint(Subject::Line(*line), reason, LOG_REFUSED);
            }
            Judgement::FirstBad { number, fault } => {
                self.say_complaint(Subject::Order(*number), fault, BAD_ENTRY);
            }
        }
    }

    fn say_counts(&mut self, counts: Option<OrderCounts>)
        ensures { SaysCounts self.old self.new counts }
    {
        if let Some(counts) = counts {
            self.say(counts_line(counts).as_str().as_bytes());
        }
    }

    /// Says what is wrong with a log, if anything is, and what was looked through of its order.
    pub(crate) fn say_log(&mut self, found: &JudgedLog)
        ensures { SaysLog self.old self.new found.now }
    {
        self.say_log_judgement(&found.judgement);
        self.say_counts(found.tally);
    }

    fn say_line_of(&mut self, line: ArrayString<PROMISE_BYTES>)
        ensures { Says self.old self.new line.bytes }
    {
        self.say(line.as_str().as_bytes());
    }

    #[tactic(auto, using(crate::proofs::TellingLemmas::found))]
    fn say_floor(&mut self, found: Option<BrokenFloor>)
        ensures { SaysFound floor_text self.old self.new found }
    {
        if let Some(floor) = found {
            self.say_line_of(floor_line(floor));
        }
    }

    #[tactic(auto, using(crate::proofs::TellingLemmas::found))]
    fn say_long(&mut self, found: Option<LongPause>)
        ensures { SaysFound pause_text self.old self.new found }
    {
        if let Some(long) = found {
            self.say_line_of(pause_line(long));
        }
    }

    #[tactic(auto, using(crate::proofs::TellingLemmas::found))]
    fn say_short(&mut self, found: Option<ShortStretch>)
        ensures { SaysFound stretch_text self.old self.new found }
    {
        if let Some(short) = found {
            self.say_line_of(stretch_line(short));
        }
    }

    #[tactic(auto, using(crate::proofs::TellingLemmas::found))]
    fn say_untried_floor(&mut self, units: u64, untried: Option<Round>)
        ensures { SaysFound (λ _. untried_floor_text units) self.old self.new untried }
    {
        if let Some(_) = untried {
            self.say_line_of(untried_floor_line(units));
        }
    }

    #[tactic(auto, using(crate::proofs::TellingLemmas::found))]
    fn say_untried_pause(&mut self, units: u64, untried: Option<u64>)
        ensures { SaysFound (untried_pause_text units) self.old self.new untried }
    {
        if let Some(most) = untried {
            self.say_line_of(untried_pause_line(units, most));
        }
    }

    #[tactic(auto, using(crate::proofs::TellingLemmas::found))]
    fn say_untried_stretch(&mut self, units: u64, untried: Option<Share>)
        ensures { SaysFound (untried_stretch_text units) self.old self.new untried }
    {
        if let Some(share) = untried {
            self.say_line_of(untried_stretch_line(units, share));
        }
    }

    /// Says what was found of promises.
    fn say_promises(&mut self, found: &PromiseJudgement)
        ensures { SaysPromises self.old self.new found.now }
    {
        let PromiseJudgement { broken, untried } = found;
        self.say_floor(broken.floor);
        self.say_long(broken.pause);
        self.say_short(broken.stretch);
        self.say_untried_floor(untried.units, untried.floor);
        self.say_untried_pause(untried.units, untried.pause);
        self.say_untried_stretch(untried.units, untried.stretch);
    }

    /// Says what was found of promises on a curve, or why it wasn't drawn.
    pub(crate) fn say_curve(&mut self, end: &CurveEnd)
        ensures { SaysCurve self.old self.new end.now }
    {
        match end {
            CurveEnd::Drawn(found) => self.say_promises(found),
            CurveEnd::HistoryFull(found) => {
                self.say_promises(found);
                self.say(fault_line(ScriptFault::HistoryFull));
            }
            CurveEnd::ScriptRefused(refusal) => self.say_refusal(refusal),
            CurveEnd::HistoryRefused { line, reason } => {
                self.say_complaint(Subject::Line(*line), reason, HISTORY_REFUSED);
            }
            CurveEnd::HistoryTooLong => {
                self.say(
                    b"metroheap: line 0: a history has fewer than 4611686018427387904 units\n",
                );
            }
            CurveEnd::LogRefused { line, reason } => {
                self.say_complaint(Subject::Line(*line), reason, LOG_REFUSED);
            }
        }
    }
}

impl<E: Sink> Listener for Errors<E> {
    ghost hears = { SaysRefusals };

    fn refused(&mut self, refusal: &LineRefusal) {
        self.say_refusal(refusal);
    }

    ghost silence = { None };

    ghost onward = { More };
}
