//! The points of the curve of a trace, one for each of its windows, exactly as `points_of` defines them.
//!
//! Windows grow by an eighth, and by 1 at least; the last is the whole trace. So a curve of a million units has some
//! hundred points, at nearly equal distances on a logarithmic scale. Each point has the fewest units of the mutator
//! in any stretch as long as its window, and the floor of the configuration. A trace without units has no point. The
//! trace stays as it is.
ghost use Rattle.std.specs.{Prelude.{◌≡◌, ◌<◌, IfOk, length}, List.All};
ghost use Rattle.mh_model.specs.declared.birth.TheConstants.{LIFE};
ghost use Rattle.mh_window_curve.specs.Points.{HasLeast, point_at, points_of};

use crate::point::CurvePoint;
use mh_model::config::Config;
use mh_model::memory::NoMemory;
use mh_report::report::report;
use mh_report::trace::Trace;
use mh_report::windows::next_window;
use std::alloc::Global;

/// How many units a trace has.
#[tactic(auto, using(crate::proofs::WindowLemmas::counts_length))]
pub(crate) fn letter_count(trace: &Trace) -> u64
    requires { length trace.now.trace.letters < LIFE }
    ensures { result ≡ length trace.now.trace.letters }
{
    trace.mutator_count() + trace.collector_count()
}

fn point_at(config: &Config, trace: &mut Trace, window: u64) -> CurvePoint
    ensures point { result ≡ point_at config.now trace.old.trace.letters window }
    ensures kept { trace.new ≡ trace.old }
{
    let report = report(trace, config, window);
    CurvePoint {
        window,
        least: report.least.unwrap_or(0),
        floor: report.floor,
    }
}

/// The points of the curve of a trace, one for each of its windows. It takes time for the whole trace once for each.
pub fn curve_points(
    alloc: Global,
    config: &Config,
    trace: &mut Trace,
) -> Result<Vec<CurvePoint>, NoMemory>
    requires { length trace.old.trace.letters < LIFE }
    ensures points { IfOk result (λ points. points.items ≡ points_of config.now trace.old.trace.letters) }
    ensures least { IfOk result (λ points. All (HasLeast trace.old.trace.letters) points.items) }
    ensures kept { trace.new.trace ≡ trace.old.trace }
{
    let letters = letter_count(trace);
    let mut points = Vec::new(alloc);
    if letters == 0 {
        return Ok(points);
    }
    let mut window = 1;
    while window < letters {
        points.push(point_at(config, trace, window))?;
        window = next_window(window);
    }
    points.push(point_at(config, trace, letters))?;
    Ok(points)
}
