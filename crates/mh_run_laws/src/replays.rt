//! Laws of a machine that goes through its events one by one.
ghost use Rattle.mh_run_laws.specs.Replays.{MachineAfterMore, MachineRepliesMore};

/// The machine after more events is that after these, from the machine after those before.
pub fn machine_after_more()
    ensures { MachineAfterMore }
{}

/// The replies to more events are those to the events before and then those from the machine after them.
pub fn machine_replies_more()
    ensures { MachineRepliesMore }
{}
