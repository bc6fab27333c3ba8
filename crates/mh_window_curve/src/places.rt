//! The windows of a trace from its longest pause on, each with its least and with the first place that has it.
//!
//! Each shorter window has no unit of the mutator in some place, and none of these says more.
ghost use Rattle.std.specs.Prelude.{◌≡◌, ◌<◌, ◌≤◌, [], length, IfOk, OnOk};
ghost use Rattle.mh_window_curve.specs.Auxiliary.{AddsPlace};
ghost use Rattle.mh_window_curve.specs.Places.{ArePlaced, GoOn, drawn_points, floor_by, windows_of_pauses};
ghost use Rattle.mh_model.specs.declared.birth.TheConstants.{LIFE};

use crate::point::CurvePoint;
use crate::points::letter_count;
use mh_model::memory::NoMemory;
use mh_orders::promises::Round;
use mh_report::trace::Trace;
use mh_report::windows::next_window;
use mh_windows::always::WindowLeast;
use mh_windows::lowest::lowest_of;
use std::alloc::Global;

/// The points of windows, and where each is.
#[derive(Debug, Drop)]
pub struct Placed {
    pub points: Vec<WindowLeast>,
    /// How many units of the trace are before the first place in which a window has its least.
    pub places: Vec<u64>,
}

impl Placed {
    fn new(alloc: Global) -> Placed
        ensures points { result.points.items ≡ [] }
        ensures places { result.places.items ≡ [] }
    {
        Placed {
            points: Vec::new(alloc),
            places: Vec::new(alloc),
        }
    }

    /// Adds the point of a window.
    fn add(&mut self, trace: &Trace, window: u64) -> Result<(), NoMemory>
        requires short { length trace.now.trace.letters < LIFE }
        requires window { window ≤ length trace.now.trace.letters }
        ensures { OnOk result (AddsPlace trace.now.trace.letters window self.old.points.items self.new.points.items self.old.places.items self.new.places.items) }
    {
        let Some(lowest) = lowest_of(trace, window) else {
            unreachable!();
        };
        self.points.push(WindowLeast {
            window,
            least: lowest.least,
        })?;
        self.places.push(lowest.at)?;
        Ok(())
    }
}

/// The points of a trace whose longest pause has so many units. It takes time for the whole trace once for each.
pub fn place_points(alloc: Global, trace: &Trace, longest: u64) -> Result<Placed, NoMemory>
    requires short { length trace.now.trace.letters < LIFE }
    requires longest { longest ≤ length trace.now.trace.letters }
    ensures placed { IfOk result (λ placed. ArePlaced trace.now.trace.letters (windows_of_pauses longest (length trace.now.trace.letters)) placed.points.items placed.places.items) }
    ensures goes { IfOk result (λ placed. GoOn trace.now.trace.letters placed.points.items) }
{
    let letters = letter_count(trace);
    let mut placed = Placed::new(alloc);
    if letters == 0 {
        return Ok(placed);
    }
    let mut window = longest.max(1);
    while window < letters {
        placed.add(trace, window)?;
        window = next_window(window);
    }
    placed.add(trace, letters)?;
    Ok(placed)
}

/// The floor of a window by rounds, if some are promised.
#[tactic(auto, using(mh_report::proofs::FloorLemmas::floor_fits))]
pub(crate) fn floor_by(round: Option<Round>, window: u64) -> Option<u64>
    ensures { result ≡ floor_by round window }
{
    let Round { every, quantum, .. } = round?;
    let both = every + quantum;
    Some(every * (window / both) + (window % both).saturating_sub(quantum))
}

/// The points as a picture has them.
pub(crate) fn drawn_points(
    alloc: Global,
    round: Option<Round>,
    points: &[WindowLeast],
) -> Result<Vec<CurvePoint>, NoMemory>
    ensures { IfOk result (λ drawn. drawn.items ≡ drawn_points round points.now) }
{
    let mut drawn = Vec::new(alloc);
    for point in points {
        drawn.push(CurvePoint {
            window: point.window,
            least: point.least,
            floor: floor_by(round, point.window),
        })?;
    }
    Ok(drawn)
}
