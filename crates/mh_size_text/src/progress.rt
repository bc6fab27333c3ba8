//! How far the sizing of a script has come, for whoever waits for it.

/// What is looked at next.
#[derive(Clone, Copy, Debug, PartialEq, Eq)]
pub enum Step {
    /// What is live.
    Live,
    /// The fewest pages.
    Fewest,
    /// A run in so many pages.
    Row(u32),
}

/// Hears what is looked at next. Nothing of what is written depends on it.
pub trait Progress {
    fn begins(&mut self, step: Step);
}

/// Nobody waits.
#[derive(Clone, Copy, Debug, Drop)]
pub struct Silent;

impl Progress for Silent {
    fn begins(&mut self, _step: Step) {}
}
