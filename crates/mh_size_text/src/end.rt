//! How the sizing of a text ended.
use mh_script::end::LineRefusal;

/// How a sizing ended.
#[derive(Debug, Drop)]
pub enum SizeEnd {
    /// A size was written.
    Sized,
    /// It was written that there is none.
    NoSize,
    /// The script was refused.
    Refused(LineRefusal),
}
