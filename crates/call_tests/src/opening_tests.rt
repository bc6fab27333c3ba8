use crate::asked::Asked;
use crate::called::Called;
use crate::scripts::every_kind;
use crate::sweep::{Attempt, begin_with_plenty, refusals};
use mh_text::script::Script;
use std::alloc::Global;
use std::sync::Wait;
use std::test::Fail;
use std::thread::Threads;

/// A state that is opened.
#[derive(Clone, Copy)]
struct OpenState<'a> {
    alloc: Global,
    script: &'a Script,
}

impl Attempt for OpenState<'_> {
    fn is_done(&mut self) -> bool {
        Asked::new(self.alloc, self.script).is_ok()
    }

    fn told(&self) -> Result<String, Fail> {
        Ok(String::new(self.alloc))
    }
}

/// A service that is opened.
#[derive(Drop)]
struct OpenService<'a, R> {
    rt: &'a R,
    alloc: Global,
    script: &'a Script,
}

impl<R: Threads + Wait> Attempt for OpenService<'_, R> {
    fn is_done(&mut self) -> bool {
        Called::new(self.rt, self.alloc, self.script).is_ok()
    }

    fn told(&self) -> Result<String, Fail> {
        Ok(String::new(self.alloc))
    }
}

/// How often an opening is refused before there is memory for it.
fn refusals_of<A: Attempt>(alloc: Global, opening: &mut A) -> Result<usize, Fail> {
    let mut famine = begin_with_plenty(alloc)?;
    refusals(&mut famine, opening)
}

#[test]
fn a_state_opens_or_tells_of_no_memory(rt: HostRuntime) -> Result<(), Fail> {
    let refused = {
        let script = every_kind(rt.alloc(), b"config 8 209 0 0\n", 0)?;
        let mut opening = OpenState {
            alloc: rt.alloc(),
            script: &script,
        };
        refusals_of(rt.alloc(), &mut opening)
    };
    assert!(rt; refused? > 0);
    Ok(())
}

#[test]
fn a_service_opens_or_tells_of_no_memory(rt: HostRuntime) -> Result<(), Fail> {
    let refused = {
        let script = every_kind(rt.alloc(), b"config 8 209 8 3\n", 0)?;
        let mut opening = OpenService {
            rt: &rt,
            alloc: rt.alloc(),
            script: &script,
        };
        refusals_of(rt.alloc(), &mut opening)
    };
    assert!(rt; refused? > 0);
    Ok(())
}
