//! How the minimum mutator utilisation of a run is written, and what it is judged by.
use crate::promises::Promises;

/// What a curve is written as.
#[derive(Clone, Copy, Debug, PartialEq, Eq)]
pub enum CurveForm {
    /// A line for each window.
    Table,
    /// A picture in SVG.
    Picture,
}

/// How a curve is drawn, and what is promised of its trace.
#[derive(Clone, Copy, Debug, PartialEq, Eq)]
pub struct CurveOptions {
    pub form: CurveForm,
    pub promises: Promises,
}
