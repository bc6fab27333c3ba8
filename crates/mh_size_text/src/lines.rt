//! The lines of a script's sizes.
ghost use Rattle.std.specs.{Prelude.{◌≡◌, ◌≤◌, ◌++◌, ◌∷◌, [], OnOk, Some}, String.string_bytes};
ghost use Rattle.mh_model.specs.Bytes.{lines_text};
ghost use Rattle.mh_size_text.specs.Texts.{edge_line, heaps_text, is_short, is_short_in, live_line, nowhere_line, row_line, rows_text, script_line, session_count};
ghost use Rattle.mh_size_runs.specs.declared.rows.PagesOutcome.TheVariants as PagesOutcome;

use crate::sizes::{Heaps, Rows, Times, pages_in};
use crate::text::{AnswerText, CyclesText, RoomText, SharesText};
use mh_model::command::Event;
use mh_model::config::Config;
use mh_model::memory::NoMemory;
use mh_size_runs::edge::Edge;
use mh_size_runs::live::Live;
use mh_size_runs::rows::PagesOutcome;
use mh_size_runs::seen::Seen;
use std::fmt::Write;

/// With fewer cycles in the fewest pages a script is short.
const FEW_CYCLES: u64 = 10;

/// How many sessions these events have.
pub(crate) fn session_count(events: &[Event]) -> u64
    ensures { result ≡ session_count events.now }
{
    let mut count = 0;
    for event in events {
        if let Event::Session(who, _) = event {
            count = (u64::from(*who) + 1).max(count);
        }
    }
    count
}

/// Adds what is run: so many events of so many sessions. After an error the text may end with a part of the line, as is the
/// case for all that is added here.
pub(crate) fn push_script(
    text: &mut String,
    config: &Config,
    events: usize,
    sessions: u64,
    live: &Live,
) -> Result<(), NoMemory>
    ensures { OnOk result (string_bytes text.new ≡ string_bytes text.old ++ lines_text (script_line config.now events sessions live.now ∷ [])) }
{
    let Live { units, objects, .. } = *live;
    let quantum = config.quantum;
    let every = config.every;
    writeln!(
        text,
        "script events {events} units {units} objects {objects} sessions {sessions} quantum {quantum} every {every}"
    )?;
    Ok(())
}

/// Whether a script is short, if some pages suffice.
pub(crate) fn is_short(heaps: &Heaps) -> Option<bool>
    ensures { result ≡ is_short heaps.now }
{
    match heaps {
        Heaps::Found(_, rows) => match rows.one {
            PagesOutcome::Fits { seen, .. } => Some(seen.cycles < FEW_CYCLES),
            PagesOutcome::Full(_) => None,
        },
        Heaps::Nowhere(_) => None,
    }
}

/// Adds what is live by quarters.
fn push_quarters(text: &mut String, quarters: [u64; 4], short: AnswerText) -> Result<(), NoMemory>
    ensures { OnOk result (string_bytes text.new ≡ string_bytes text.old ++ lines_text (live_line (Some quarters) short.0 ∷ [])) }
{
    let [first, second, third, fourth] = quarters;
    let most = first.max(second.max(third.max(fourth)));
    writeln!(
        text,
        "live {most} quarters {first} {second} {third} {fourth} short {short}"
    )?;
    Ok(())
}

/// Adds what is live.
pub(crate) fn push_live(
    text: &mut String,
    quarters: Option<[u64; 4]>,
    short: Option<bool>,
) -> Result<(), NoMemory>
    ensures { OnOk result (string_bytes text.new ≡ string_bytes text.old ++ lines_text (live_line quarters short ∷ [])) }
{
    let short = AnswerText(short);
    match quarters {
        None => {
            writeln!(text, "live none quarters none short {short}")?;
            Ok(())
        }
        Some(quarters) => push_quarters(text, quarters, short),
    }
}

/// Adds the fewest pages.
fn push_edge(text: &mut String, edge: &Edge) -> Result<(), NoMemory>
    ensures { OnOk result (string_bytes text.new ≡ string_bytes text.old ++ lines_text (edge_line edge.now ∷ [])) }
{
    let Edge { pages, trigger, .. } = *edge;
    match edge.below {
        None => writeln!(text, "fewest {pages} trigger {trigger}")?,
        Some(event) => {
            let below = pages - 1;
            writeln!(
                text,
                "fewest {pages} trigger {trigger} below {below} full {event}"
            )?;
        }
    }
    Ok(())
}

/// Adds what is seen of a run in so many pages with a trigger.
fn push_seen(text: &mut String, pages: u32, trigger: u32, seen: &Seen) -> Result<(), NoMemory>
    ensures { OnOk result (string_bytes text.new ≡ string_bytes text.old ++ lines_text (row_line pages (PagesOutcome.Fits trigger seen.now) ∷ [])) }
{
    let cycles = CyclesText {
        trigger,
        seen: *seen,
    };
    let room = RoomText(*seen);
    let shares = SharesText(seen.report);
    writeln!(text, "pages {pages} {cycles} {room} {shares}")?;
    Ok(())
}

/// Adds the line of a run in so many pages.
fn push_row(text: &mut String, pages: u32, outcome: &PagesOutcome) -> Result<(), NoMemory>
    ensures { OnOk result (string_bytes text.new ≡ string_bytes text.old ++ lines_text (row_line pages outcome.now ∷ [])) }
{
    match outcome {
        PagesOutcome::Fits { trigger, seen } => push_seen(text, pages, *trigger, seen),
        PagesOutcome::Full(event) => {
            writeln!(text, "pages {pages} full {event}")?;
            Ok(())
        }
    }
}

/// Adds the lines of the runs in so many times the fewest pages.
fn push_rows(text: &mut String, fewest: u32, rows: &Rows) -> Result<(), NoMemory>
    requires { (1 ≤ fewest) × (fewest ≤ 4096) }
    ensures { OnOk result (string_bytes text.new ≡ string_bytes text.old ++ rows_text fewest rows.now) }
{
    push_row(text, pages_in(fewest, Times::One), &rows.one)?;
    push_row(
        text,
        pages_in(fewest, Times::OneAndAQuarter),
        &rows.one_and_a_quarter,
    )?;
    push_row(
        text,
        pages_in(fewest, Times::OneAndAHalf),
        &rows.one_and_a_half,
    )?;
    push_row(text, pages_in(fewest, Times::Two), &rows.two)?;
    push_row(text, pages_in(fewest, Times::Three), &rows.three)
}

/// Adds the fewest pages with the rows, or that there are none.
pub(crate) fn push_heaps(text: &mut String, heaps: &Heaps) -> Result<(), NoMemory>
    ensures { OnOk result (string_bytes text.new ≡ string_bytes text.old ++ heaps_text heaps.now) }
{
    match heaps {
        Heaps::Found(edge, rows) => {
            push_edge(text, edge)?;
            push_rows(text, edge.pages, rows)
        }
        Heaps::Nowhere(event) => {
            writeln!(text, "fewest none full {event}")?;
            Ok(())
        }
    }
}
