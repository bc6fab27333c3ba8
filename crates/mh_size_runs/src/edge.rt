//! Pages at which a search ends.
ghost use Rattle.std.specs.Prelude.{◌≤◌};

/// Pages that suffice with a trigger.
#[derive(Clone, Copy, Debug, PartialEq, Eq)]
pub struct Edge {
    pub pages: u32,
    pub trigger: u32,
    /// The event by which a run in one page less is full, with each of the triggers. None for one page.
    pub below: Option<u64>,
    pub ghost within: { (1 ≤ pages) × (pages ≤ 4096) },
}

/// What a search for the fewest pages came to.
#[derive(Clone, Copy, Debug, PartialEq, Eq)]
pub enum Fewest {
    Found(Edge),
    /// In the most pages some reply is a full heap with each trigger, to the event of this number at the latest.
    Nowhere(u64),
}
