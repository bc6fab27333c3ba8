//! What a session does next: a few commands that belong together. They are kept in an array, so a plan takes no
//! memory.
ghost use Rattle.std.specs.Prelude.{◌≤◌, length};

use mh_model::command::Command;

/// The most commands of a plan.
const LONGEST: usize = 8;

/// Commands of a session that are still to come, in order.
#[derive(Clone, Copy)]
pub(crate) struct Plan {
    commands: [Command; LONGEST],
    next: usize,
    end: usize,
    ghost few: { end ≤ 8 },
}

impl Plan {
    pub(crate) fn none() -> Plan {
        Plan {
            commands: [Command::End; LONGEST],
            next: 0,
            end: 0,
        }
    }

    pub(crate) fn of(commands: &[Command]) -> Plan
        requires { length commands.now ≤ LONGEST }
    {
        let mut all = [Command::End; LONGEST];
        for (place, command) in all.iter_mut().zip(commands) {
            *place = *command;
        }
        Plan {
            commands: all,
            next: 0,
            end: commands.len(),
        }
    }

    /// The next command, which is then no longer to come.
    pub(crate) fn take(&mut self) -> Option<Command> {
        if self.next >= self.end {
            return None;
        }
        let command = self.commands[self.next];
        self.next += 1;
        Some(command)
    }
}
