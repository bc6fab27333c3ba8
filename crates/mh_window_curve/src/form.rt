//! The text of a curve, as a table or as a picture. It is written exactly, as a function of the counts and the
//! points. Of each window it has the fewest units of the mutator, their share and the floor.
ghost use Rattle.std.specs.{Prelude.{◌≡◌, IfOk}, String.string_bytes};
ghost use Rattle.mh_window_curve.specs.Texts.{curve_text};

use crate::picture::push_picture;
use crate::point::{CurvePoint, TraceCounts};
use crate::table::push_table;
use mh_model::memory::NoMemory;
use mh_orders::curve::CurveForm;
use std::alloc::Global;

/// The text of a curve.
pub fn curve_text(
    alloc: Global,
    form: CurveForm,
    counts: TraceCounts,
    points: &[CurvePoint],
) -> Result<String, NoMemory>
    ensures { IfOk result (λ text. string_bytes text ≡ curve_text form counts points.now) }
{
    let mut text = String::new(alloc);
    match form {
        CurveForm::Table => push_table(&mut text, counts, points)?,
        CurveForm::Picture => push_picture(&mut text, counts, points)?,
    }
    Ok(text)
}
