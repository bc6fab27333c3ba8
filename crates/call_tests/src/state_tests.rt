use crate::asked::{Asked, Course, ToTheEnd, told_by};
use crate::scripts::{KINDS, every_kind};
use crate::sweep::{Attempt, PLENTY, begin_with_plenty, refusals_of_last};
use mh_text::script::Script;
use std::alloc::Global;
use std::test::Fail;
use test_support::famine::Famine;

/// The first events with memory at hand, and then so many with more and more memory, of which the last has to be refused.
#[derive(Drop)]
struct Refused<'a> {
    famine: &'a mut Famine,
    first: usize,
    count: usize,
}

impl Course for Refused<'_> {
    fn run(&mut self, asked: &mut Asked<'_>) -> Result<String, Fail> {
        asked.go_on(self.first)?;
        if refusals_of_last(self.famine, asked, self.count)? == 0 {
            return Err(Fail::from("not refused without memory"));
        }
        asked.go_to_end()
    }
}

/// Whether a state goes this way to where it comes with memory at hand.
fn ends_alike<C: Course>(alloc: Global, script: &Script, course: &mut C) -> Result<bool, Fail> {
    let found = told_by(alloc, script, course)?;
    let wanted = told_by(alloc, script, &mut ToTheEnd)?;
    Ok(found == wanted)
}

/// Without a schedule, with a quantum after each command, and with one after each third unit.
const CONFIGS: [&[u8]; 3] = [
    b"config 8 209 0 0\n",
    b"config 8 209 8 1\n",
    b"config 8 209 8 3\n",
];

/// Whether a state comes there by events of every kind after so many stats, if the first events, so many, are answered with
/// memory at hand, and the next, so many, with more and more.
fn ends_alike_when_refused(
    alloc: Global,
    famine: &mut Famine,
    config: &[u8],
    stats: usize,
    first: usize,
    count: usize,
) -> Result<bool, Fail> {
    let script = every_kind(alloc, config, stats)?;
    let mut course = Refused {
        famine,
        first,
        count,
    };
    ends_alike(alloc, &script, &mut course)
}

#[test]
fn each_event_is_refused_in_turn(rt: HostRuntime) -> Result<(), Fail> {
    let mut famine = begin_with_plenty(rt.alloc())?;
    for config in CONFIGS {
        assert!(rt; ends_alike_when_refused(rt.alloc(), &mut famine, config, 0, 0, KINDS)?);
    }
    Ok(())
}

/// A history of 32 entries grows by the next.
#[test]
fn each_event_is_refused_where_the_history_grows(rt: HostRuntime) -> Result<(), Fail> {
    let mut famine = begin_with_plenty(rt.alloc())?;
    for before in 0..KINDS {
        let stats = 32 - before;
        assert!(rt; ends_alike_when_refused(rt.alloc(), &mut famine, CONFIGS[0], stats, 32, 1)?);
    }
    Ok(())
}

/// Five events, after which there is room for three more, and then the ninth.
#[derive(Drop)]
struct WithRoom<'a> {
    famine: &'a mut Famine,
}

impl Course for WithRoom<'_> {
    fn run(&mut self, asked: &mut Asked<'_>) -> Result<String, Fail> {
        asked.go_on(5)?;
        self.famine.leave(0)?;
        let are_done = asked.goes_on(3);
        let is_refused = !asked.goes_on(1);
        self.famine.leave(PLENTY)?;
        if !are_done || !is_refused {
            return Err(Fail::from("asks for other memory"));
        }
        asked.go_to_end()
    }
}

/// Whether a state comes there if events that have room are asked for in a famine.
fn ends_alike_with_room(alloc: Global) -> Result<bool, Fail> {
    let mut famine = begin_with_plenty(alloc)?;
    let script = every_kind(alloc, CONFIGS[0], 0)?;
    let mut course = WithRoom {
        famine: &mut famine,
    };
    ends_alike(alloc, &script, &mut course)
}

#[test]
fn an_event_with_room_asks_for_no_memory(rt: HostRuntime) -> Result<(), Fail> {
    assert!(rt; ends_alike_with_room(rt.alloc())?);
    Ok(())
}
