//! What the program does on its words, its text and its three devices, for each of the 12 subcommands and for the
//! version.
//!
//! The contract has what is read and written, the lines on standard error, and the exit status. Of words that `clap`
//! refuses it has only which bytes are written; tests compare that text. Standard error gets nothing more once a write
//! to it failed. Without an order nothing is read, and standard output gets nothing.
ghost use Rattle.std.specs.{Prelude.{◌≡◌, ◌<◌, ◌≤◌, Result, Err, IfOk, MatchResult, map}, String.string_bytes};
ghost use Rattle.mh_command_line.specs.declared.fault.LineFault.{LineFault};
ghost use Rattle.mh_command_line.specs.Orders.{HasFewWorkers, HasFirstRules, OrdersBy};
ghost use Rattle.mh_orders.specs.declared.order.Order.{Order};
ghost use Rattle.mh_program.specs.Program.{AnswersLines, IsOpened, IsRunBy, Serves};

use crate::ending::{line_status, report};
use crate::errors::Errors;
use crate::made::{write_room, write_script, write_target, write_version};
use mh_command_line::fault::LineFault;
use mh_command_line::order::line_order;
use mh_judge::judge::{audit_script, check_script};
use mh_judge::migrate::migrate_script;
use mh_judge_log::texts::check_log;
use mh_judge_sessions::texts::check_sessions;
use mh_live::feed::run_live;
use mh_live::live::Live;
use mh_model::config::Rules;
use mh_orders::order::{
    LiveHeap, LiveOptions, LogOptions, Order, RunForm, RunOptions, SessionsOptions,
};
use mh_race_text::race::race_script;
use mh_scan::crew_scan::CrewGate;
use mh_script::end::End;
use mh_script::fault::ScriptFault;
use mh_script::history::run_history;
use mh_script::run::run_script;
use mh_size_text::progress::Progress;
use mh_size_text::script::size_script;
use mh_tell_chrome::run::chrome_script;
use mh_tell_cycles::run::cycles_script;
use mh_tell_show::run::show_script;
use mh_tell_steps::run::tell_script;
use mh_text::sink::Sink;
use mh_text::source::Source;
use mh_window_curve::kind::TextKind;
use mh_window_curve::script::curve_script;
use mh_window_curve::text::draw_text;
use std::alloc::Global;
use std::sync::Wait;
use std::thread::Threads;

/// The run of a script in a form under rules.
fn ran<R: Threads, S: Source, W: Sink, G: CrewGate>(
    rt: &R,
    alloc: Global,
    options: RunOptions,
    source: &mut S,
    sink: &mut W,
    gate: &G,
) -> Result<End, ScriptFault>
    requires { (0 < options.workers) × (options.workers ≤ 64) }
    ensures { IsRunBy options.form options.rules (S.device source.old) (S.device source.new) (W.device sink.old) (W.device sink.new) result }
{
    let RunOptions {
        workers,
        rules,
        form,
    } = options;
    match form {
        RunForm::Replies => run_script(rt, alloc, source, sink, workers, rules, gate),
        RunForm::History => run_history(rt, alloc, source, sink, workers, rules, gate),
    }
}

/// What answers lines before the first of them.
fn opened(alloc: Global, heap: LiveHeap) -> Live
    ensures { IsOpened heap result }
{
    match heap {
        LiveHeap::Machine => Live::new(alloc),
        LiveHeap::World => Live::in_world(alloc, Rules::Second),
    }
}

/// Answers lines as they come, and reports those that are refused and a fault of all that.
fn live<R: Threads, S: Source, W: Sink, E: Sink, G: CrewGate>(
    rt: &R,
    alloc: Global,
    options: LiveOptions,
    source: &mut S,
    sink: &mut W,
    errors: &mut Errors<E>,
    gate: &G,
) -> u8
    requires { (0 < options.workers) × (options.workers ≤ 64) }
    ensures { AnswersLines options.heap (S.device source.old) (S.device source.new) (W.device sink.old) (W.device sink.new) errors.old errors.new result }
{
    let live = opened(alloc, options.heap);
    let workers = options.workers;
    let ended = run_live(rt, alloc, live, source, sink, errors, workers, gate);
    report(&ended, errors)
}

/// Does what the command line asks for, writes to `errors` what went wrong, and gives the exit status. Curves are drawn
/// with one worker, since `curve` has no option for more.
pub fn serve<
    R: Threads + Wait + Sync,
    S: Source,
    W: Sink,
    E: Sink,
    G: CrewGate + Sync,
    P: Progress,
>(
    rt: &R,
    alloc: Global,
    order: Result<Order, LineFault>,
    source: &mut S,
    sink: &mut W,
    errors: &mut Errors<E>,
    gate: &G,
    progress: &mut P,
) -> u8
    requires few { IfOk order HasFewWorkers }
    requires rules { IfOk order HasFirstRules }
    ensures { Serves order (S.device source.old) (S.device source.new) (W.device sink.old) (W.device sink.new) errors.old errors.new result }
{
    match order {
        Ok(Order::Run(options)) => report(&ran(rt, alloc, options, source, sink, gate), errors),
        Ok(Order::Steps(options)) => {
            report(
                &tell_script(alloc, source, sink, options.steps, options.rules),
                errors,
            )
        }
        Ok(Order::Chrome(options)) => report(&chrome_script(alloc, source, sink, options), errors),
        Ok(Order::Cycles(rules)) => report(&cycles_script(alloc, source, sink, rules), errors),
        Ok(Order::Show(options)) => report(&show_script(alloc, source, sink, options), errors),
        Ok(Order::Live(options)) => live(rt, alloc, options, source, sink, errors, gate),
        Ok(Order::Race(workers)) => {
            report(&race_script(rt, alloc, source, sink, workers, gate), errors)
        }
        Ok(Order::Check(config)) => report(&check_script(alloc, config, source, sink), errors),
        Ok(Order::CheckSessions(options)) => {
            let SessionsOptions { rules, may_be_full } = options;
            report(
                &check_sessions(alloc, may_be_full, rules, source, sink),
                errors,
            )
        }
        Ok(Order::CheckLog(options)) => {
            let LogOptions { rules, may_be_full } = options;
            report(&check_log(alloc, may_be_full, rules, source, sink), errors)
        }
        Ok(Order::Audit) => report(&audit_script(alloc, source, sink), errors),
        Ok(Order::Migrate(config)) => report(&migrate_script(alloc, config, source, sink), errors),
        Ok(Order::Curve(rules, options)) => {
            report(
                &curve_script(rt, alloc, options, source, sink, 1, rules, gate),
                errors,
            )
        }
        Ok(Order::CurveHistory(options)) => {
            report(
                &draw_text(alloc, TextKind::History, options, source, sink),
                errors,
            )
        }
        Ok(Order::CurvePauses(options)) => {
            report(
                &draw_text(alloc, TextKind::Pauses, options, source, sink),
                errors,
            )
        }
        Ok(Order::Generate(options)) => report(&write_script(alloc, options, sink), errors),
        Ok(Order::SizeRoom(options)) => report(&write_room(alloc, &options, sink), errors),
        Ok(Order::SizeTarget(options)) => report(&write_target(alloc, &options, sink), errors),
        Ok(Order::SizeScript(options)) => {
            report(
                &size_script(alloc, source, sink, &options, progress),
                errors,
            )
        }
        Ok(Order::Version) => report(&write_version(sink), errors),
        Err(fault) => {
            errors.say_line(&fault);
            line_status(&fault)
        }
    }
}

/// The program: does what the words of the command line ask for, of which the first is its own name, writes to `errors` what
/// went wrong, and gives the exit status.
pub fn program<
    R: Threads + Wait + Sync,
    S: Source,
    W: Sink,
    E: Sink,
    G: CrewGate + Sync,
    P: Progress,
>(
    rt: &R,
    alloc: Global,
    words: Result<Vec<String>, LineFault>,
    source: &mut S,
    sink: &mut W,
    errors: &mut Errors<E>,
    gate: &G,
    progress: &mut P,
) -> u8
    ensures { (order : Result Order LineFault)
        × MatchResult words (λ words. OrdersBy (map string_bytes words.items) order) (λ fault. order ≡ Err fault)
        × Serves order (S.device source.old) (S.device source.new) (W.device sink.old) (W.device sink.new) errors.old errors.new result }
{
    let order = line_order(alloc, words);
    serve(rt, alloc, order, source, sink, errors, gate, progress)
}
