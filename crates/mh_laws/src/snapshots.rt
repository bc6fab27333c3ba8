//! Laws of snapshots: what steps, quanta and commands keep of a running cycle.
ghost use Rattle.mh_laws.specs.Snapshots.{ShadingKeepsTheSnapshot, QuantaKeepTheSnapshot, CommandsKeepTheSnapshot, CyclesStartFromTheView, MomentsKeepASnapshot, CollectorsStaySteady, HeapsStayKept};

/// Shading a root keeps what a running cycle has promised.
pub fn shading_keeps_the_snapshot()
    ensures { ShadingKeepsTheSnapshot }
{}

/// Each quantum in a running cycle keeps the snapshot, or ends the cycle with just what it keeps.
pub fn quanta_keep_the_snapshot()
    ensures { QuantaKeepTheSnapshot }
{}

/// Each command of a session keeps the snapshot.
pub fn commands_keep_the_snapshot()
    ensures { CommandsKeepTheSnapshot }
{}

/// A quantum that starts a cycle keeps what is reachable in the view at its entry.
pub fn cycles_start_from_the_view()
    ensures { CyclesStartFromTheView }
{}

/// At every moment of a run the running cycle keeps some snapshot, and references lead in one hop at most to held blocks.
pub fn moments_keep_a_snapshot()
    ensures { MomentsKeepASnapshot }
{}

/// A collector that keeps some snapshot still does at the start of a quantum, after a quantum and after each step.
pub fn collectors_stay_steady()
    ensures { CollectorsStaySteady }
{}

/// The first heap keeps a snapshot, and each command, each asking for a cycle and each quantum leaves one kept.
pub fn heaps_stay_kept()
    ensures { HeapsStayKept }
{}
