//! The numbers of a page: the configuration and what was there before its first event, its events, and their curve. The
//! points are those of `mh_window_curve`.
ghost use Rattle.std.specs.{Prelude.{◌≡◌, ◌+◌, ◌<◌, ◌≤◌, ◌++◌, length, codes, IfOk, OnOk}, String.string_bytes};
ghost use Rattle.mh_window_curve.specs.Points.{points_of};
ghost use Rattle.mh_model.specs.{HistoryTexts.rules_number, declared.birth.TheConstants.LIFE, Limits.most_entries};
ghost use Rattle.mh_tell_show.specs.{Auxiliary.HasRun, Page.{config_row, front_text, part_text, point_row}};
ghost use Rattle.mh_tell_show.specs.Rows.{listed, row_text};

use crate::before::push_before;
use crate::events::push_events;
use crate::rows::push_row;
use mh_machine::machine::Machine;
use mh_model::command::Event;
use mh_model::config::{Config, Rules};
use mh_model::memory::NoMemory;
use mh_report::trace::Trace;
use mh_tell_steps::fields::push_decimal;
use mh_window_curve::point::CurvePoint;
use mh_window_curve::points::curve_points;
use std::alloc::Global;

/// The numbers of a page have at most so many bytes up to the end of its events, unless it has no event.
const MOST_BYTES: usize = 19_500_000;

fn rules_number(rules: Rules) -> u64
    ensures { result ≡ rules_number rules }
{
    match rules {
        Rules::First => 1,
        Rules::Second => 2,
    }
}

fn push_config(text: &mut String, config: Config) -> Result<(), NoMemory>
    ensures { OnOk result (string_bytes text.new ≡ string_bytes text.old ++ row_text (config_row config)) }
{
    let pages = Some(u64::from(config.pages));
    let quantum = Some(u64::from(config.quantum));
    let trigger = Some(u64::from(config.trigger));
    let every = Some(u64::from(config.every));
    push_row(
        text,
        rules_number(config.rules),
        &[pages, quantum, trigger, every],
    )
}

/// Adds what stands before the events, after the names of sessions.
#[tactic(auto, using(crate::proofs::TextLemmas::six))]
fn push_front(
    text: &mut String,
    config: Config,
    all: usize,
    number: usize,
    machine: &Machine,
) -> Result<(), NoMemory>
    ensures { OnOk result (string_bytes text.new ≡ string_bytes text.old ++ front_text config all number machine.now.machine) }
{
    text.push_str("\"config\":")?;
    push_config(text, config)?;
    text.push_str(",\"all\":")?;
    push_decimal(text, all as u128)?;
    push_before(text, number as u64, machine)?;
    text.push_str(",\"events\":[\n")?;
    Ok(())
}

fn push_points(text: &mut String, points: &[CurvePoint]) -> Result<(), NoMemory>
    ensures { OnOk result (string_bytes text.new ≡ string_bytes text.old ++ listed (λ point. row_text (point_row point)) points.now) }
{
    text.push_str("[")?;
    for point in points {
        push_row(text, point.window, &[Some(point.least), point.floor])?;
        text.push_str(",")?;
    }
    text.push_str("0]")?;
    Ok(())
}

/// Adds what stands after the events.
fn push_rest(
    alloc: Global,
    text: &mut String,
    config: Config,
    trace: &mut Trace,
) -> Result<(), NoMemory>
    requires { length trace.old.trace.letters < LIFE }
    ensures { OnOk result (string_bytes text.new ≡ string_bytes text.old ++ (codes "0],\"curve\":" ++ (listed (λ point. row_text (point_row point)) (points_of config trace.old.trace.letters) ++ codes "}\n"))) }
{
    let points = curve_points(alloc, &config, trace)?;
    text.push_str("0],\"curve\":")?;
    push_points(text, points.as_slice())?;
    text.push_str("}\n")?;
    Ok(())
}

/// The numbers of these events, which a machine does after some of all events of a script.
pub(crate) fn part_text(
    alloc: Global,
    config: Config,
    all: usize,
    machine: &mut Machine,
    number: usize,
    asked: &[Event],
) -> Result<String, NoMemory>
    requires done { machine.old.done + length asked.now ≤ most_entries }
    requires run { HasRun machine.old.machine (length asked.now) }
    ensures { IfOk result (λ text. string_bytes text ≡ part_text config (front_text config all number machine.old.machine) machine.old.machine asked.now) }
{
    let mut text = String::new(alloc);
    push_front(&mut text, config, all, number, machine)?;
    let room = MOST_BYTES.saturating_sub(text.len());
    let mut trace = push_events(alloc, machine, asked, room, &mut text)?;
    push_rest(alloc, &mut text, config, &mut trace)?;
    Ok(text)
}
