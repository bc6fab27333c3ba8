//! Of which texts, beside scripts, a curve is drawn.
/// A text that has units, whoever counted them.
#[derive(Clone, Copy, Debug, PartialEq, Eq)]
pub enum TextKind {
    /// A history of version 2.
    History,
    /// A log of pauses.
    Pauses,
}
