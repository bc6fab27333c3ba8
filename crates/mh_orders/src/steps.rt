//! How the steps of a run are written. Whether the deeds of an event are asked for is read off its number. `--from`
//! and `--to` bound the deeds and not the entries, so each output has as many entries as the script has events.
ghost use Rattle.std.specs.Prelude.{◌≡◌};
ghost use Rattle.mh_orders.specs.Steps.{is_asked};

/// How steps are written.
#[derive(Clone, Copy, Debug, PartialEq, Eq)]
pub enum StepsForm {
    /// In words, below the entry of a history for each event.
    Text,
    /// One object of JSON a line.
    Json,
}

/// What the steps of a run show: their form, and the events, counted from 1, whose deeds stand below them.
#[derive(Clone, Copy, Debug, PartialEq, Eq)]
pub struct Steps {
    pub form: StepsForm,
    /// The first event whose deeds are written.
    pub from: u32,
    /// The last one.
    pub to: u32,
}

impl Steps {
    /// Whether the deeds of the event of this number are asked for.
    pub fn tells(self, number: u64) -> bool
        ensures { result ≡ is_asked self number }
    {
        u64::from(self.from) <= number && number <= u64::from(self.to)
    }
}
