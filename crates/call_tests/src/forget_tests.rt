//! Machines that go on with the memory that they have.
use crate::scripts::every_kind;
use mh_model::command::{Control, Event};
use mh_model::config::Config;
use mh_scan::scan::OneScan;
use mh_state::machine::Machine;
use std::alloc::Global;
use std::test::Fail;
use test_support::famine::Famine;

/// Whether each event but the dumps is done.
fn does_all(machine: &mut Machine, events: &[Event], scanner: &mut OneScan) -> bool {
    for event in events {
        let is_dump = *event == Event::Control(Control::Dump);
        if !is_dump && machine.step(*event, scanner).is_err() {
            return false;
        }
    }
    true
}

/// Whether events of every kind are done twice without memory, of a machine that has room for them and forgets its trace
/// between.
fn does_all_without_memory(alloc: Global, config: &[u8]) -> Result<bool, Fail> {
    let script = every_kind(alloc, config, 0)?;
    let events = script.events();
    let mut scanner = OneScan::new(alloc);
    let mut machine = Machine::open(alloc, script.config())?;
    machine.reserve(events.len())?;
    let famine = Famine::begin(alloc)?;
    let first = does_all(&mut machine, events, &mut scanner);
    machine.forget();
    let second = does_all(&mut machine, events, &mut scanner);
    drop(famine);
    Ok(first && second)
}

#[test]
fn events_with_room_need_no_memory(rt: HostRuntime) -> Result<(), Fail> {
    assert!(rt; does_all_without_memory(rt.alloc(), b"config 8 209 0 0\n")?);
    assert!(rt; does_all_without_memory(rt.alloc(), b"config 8 209 8 1\n")?);
    Ok(())
}

#[test]
fn room_for_more_events_than_there_is_memory_is_refused(rt: HostRuntime) -> Result<(), Fail> {
    let config = Config::new(4, 353, 0, 0).ok_or("no configuration")?;
    let mut machine = Machine::open(rt.alloc(), config)?;
    assert!(rt; machine.reserve(usize::MAX).is_err());
    assert!(rt; machine.reserve(usize::MAX / 64).is_err());
    assert!(rt; machine.reserve(0).is_ok());
    Ok(())
}
