//! How what the program does ends: what standard error gets of it, and its exit status. It is 0 if all went well, 1 for a
//! text that is refused, 2 for words that are. It is 3 for a fault, and 4 for a history that isn't legal, a promise that
//! isn't kept or wasn't tried, or a size that there is none of.
ghost use Rattle.std.specs.Prelude.{◌≡◌, ℕ};
ghost use Rattle.mh_program.specs.Complaints.{ErrorStream, SaysCurve, SaysDone, SaysEnd, SaysJudgement, SaysLog, SaysRun, SaysSeen, SaysSized};
ghost use Rattle.mh_program.specs.Status.{curve_status, done_status, end_status, judgement_status, line_status_of, log_status, sessions_status, size_status, status_of, verdict_status};

use crate::complaints::fault_line;
use crate::errors::Errors;
use mh_command_line::fault::LineFault;
use mh_judge::judgement::HistoryJudgement;
use mh_judge_log::judgement::JudgedLog;
use mh_judge_sessions::sessions_judgement::SessionsJudgement;
use mh_model::history::Verdict;
use mh_script::end::End;
use mh_script::fault::ScriptFault;
use mh_size_text::end::SizeEnd;
use mh_text::sink::Sink;
use mh_window_curve::end::CurveEnd;

/// How something ends, but for a fault.
pub trait Ending {
    // what standard error gets of it
    ghost says: { ErrorStream → ErrorStream → Self → Type 0 };

    ghost status_by: { Self → ℕ };

    fn say<E: Sink>(&self, errors: &mut Errors<E>)
        ensures { says errors.old errors.new self.now };

    fn status(&self) -> u8
        ensures { result ≡ status_by self.now };
}

/// A text that was written, or lines that were all answered.
impl Ending for () {
    ghost says = { SaysDone };

    ghost status_by = { done_status };

    fn say<E: Sink>(&self, _errors: &mut Errors<E>) {}

    fn status(&self) -> u8 {
        0
    }
}

impl Ending for End {
    ghost says = { SaysEnd };

    ghost status_by = { end_status };

    fn say<E: Sink>(&self, errors: &mut Errors<E>) {
        errors.say_end(self);
    }

    fn status(&self) -> u8 {
        match self {
            End::Done => 0,
            End::Refused(_) => 1,
        }
    }
}

fn verdict_status(verdict: Verdict) -> u8
    ensures { result ≡ verdict_status verdict }
{
    match verdict {
        Verdict::Legal(_) => 0,
        Verdict::Refused(_) => 1,
        Verdict::FirstBad(_) => 4,
    }
}

impl Ending for HistoryJudgement {
    ghost says = { SaysJudgement };

    ghost status_by = { judgement_status };

    fn say<E: Sink>(&self, errors: &mut Errors<E>) {
        errors.say_judgement(self);
    }

    fn status(&self) -> u8 {
        verdict_status(self.verdict())
    }
}

impl Ending for JudgedLog {
    ghost says = { SaysLog };

    ghost status_by = { log_status };

    fn say<E: Sink>(&self, errors: &mut Errors<E>) {
        errors.say_log(self);
    }

    fn status(&self) -> u8 {
        verdict_status(self.judgement.verdict())
    }
}

impl Ending for SessionsJudgement {
    ghost says = { SaysSeen };

    ghost status_by = { sessions_status };

    fn say<E: Sink>(&self, errors: &mut Errors<E>) {
        errors.say_seen(self);
    }

    fn status(&self) -> u8 {
        verdict_status(self.judgement.verdict())
    }
}

impl Ending for CurveEnd {
    ghost says = { SaysCurve };

    ghost status_by = { curve_status };

    fn say<E: Sink>(&self, errors: &mut Errors<E>) {
        errors.say_curve(self);
    }

    fn status(&self) -> u8 {
        match self {
            CurveEnd::Drawn(found) if found.is_kept() => 0,
            CurveEnd::Drawn(_) => 4,
            CurveEnd::HistoryFull(_) => 3,
            _ => 1,
        }
    }
}

impl Ending for SizeEnd {
    ghost says = { SaysSized };

    ghost status_by = { size_status };

    fn say<E: Sink>(&self, errors: &mut Errors<E>) {
        errors.say_size(self);
    }

    fn status(&self) -> u8 {
        match self {
            SizeEnd::Sized => 0,
            SizeEnd::NoSize => 4,
            SizeEnd::Refused(_) => 1,
        }
    }
}

/// The exit status of what ended so.
pub fn status<T: Ending>(ended: &Result<T, ScriptFault>) -> u8
    ensures { result ≡ status_of T.status_by ended.now }
{
    match ended {
        Ok(end) => end.status(),
        Err(_) => 3,
    }
}

fn say_ended<T: Ending, E: Sink>(ended: &Result<T, ScriptFault>, errors: &mut Errors<E>)
    ensures { SaysRun T.says errors.old errors.new ended.now }
{
    match ended {
        Ok(end) => end.say(errors),
        Err(fault) => errors.say(fault_line(*fault)),
    }
}

/// Reports how something ended, and gives its exit status.
pub(crate) fn report<T: Ending, E: Sink>(
    ended: &Result<T, ScriptFault>,
    errors: &mut Errors<E>,
) -> u8
    ensures said { SaysRun T.says errors.old errors.new ended.now }
    ensures exit { result ≡ status_of T.status_by ended.now }
{
    say_ended(ended, errors);
    status(ended)
}

/// The exit status that a command line without an order gives the program.
pub(crate) fn line_status(fault: &LineFault) -> u8
    ensures { result ≡ line_status_of fault.now }
{
    match fault {
        LineFault::Words(_) | LineFault::NotText | LineFault::Configuration(_) => 2,
        LineFault::NoMemory => 3,
    }
}
