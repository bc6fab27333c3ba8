//! A Rattle program over the state: the script under "Collecting" in docs/SCRIPTS.md, asked event by event.
#![tactic(auto)]

use anyhow::Context;
use mh_model::command::{Command, Control, Event};
use mh_model::config::Config;
use mh_scan::scan::OneScan;
use mh_state::state::State;
use mh_text::reply_text::ReplyText;

/// A cycle, which one quantum ends here, and what it leaves.
const CYCLE: [Control; 4] = [
    Control::Start,
    Control::Quantum,
    Control::Dump,
    Control::Stat,
];

/// Does an event and prints its reply.
fn ask(
    rt: &impl Print,
    state: &mut State,
    scanner: &mut OneScan,
    event: Event,
) -> anyhow::Result<()> {
    let reply = state.apply(event, scanner)?;
    println!(rt; "{}", ReplyText(&reply))?;
    Ok(())
}

fn main(rt: HostRuntime) -> anyhow::Result<()> {
    let alloc = rt.alloc();
    let config = Config::new(4, 1000, 0, 0).context("outside the limits")?;
    let mut scanner = OneScan::new(alloc);
    let mut state = State::open(alloc, config)?;
    for slot in 0..6 {
        let new = Command::New {
            slot,
            references: 0,
            numbers: 60,
        };
        ask(&rt, &mut state, &mut scanner, Event::Session(0, new))?;
    }
    for slot in [1, 5] {
        let clear = Command::Clear { slot };
        ask(&rt, &mut state, &mut scanner, Event::Session(0, clear))?;
    }
    ask(&rt, &mut state, &mut scanner, Event::Control(Control::Dump))?;
    for _ in 0..2 {
        for control in CYCLE {
            ask(&rt, &mut state, &mut scanner, Event::Control(control))?;
        }
    }
    println!(&rt; "{} entries", state.history().len())?;
    Ok(())
}
