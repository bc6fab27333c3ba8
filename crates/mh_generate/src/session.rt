//! What is remembered of a session. It is a guess, since commands may be refused. By it most commands find an object
//! that has the field.

use crate::plan::Plan;
use crate::random::SLOTS;
use crate::say::make;
use mh_model::command::Command;
use mh_model::shape::Shape;

/// What an empty slot has.
const NOTHING: Shape = Shape {
    references: 0,
    numbers: 0,
};

/// What a slot may have that was taken from the board.
const SOMETHING: Shape = Shape {
    references: 1,
    numbers: 1,
};

/// What a session does next, and which shapes the objects in its slots are likely to have.
#[derive(Clone, Copy)]
pub(crate) struct Session {
    pub(crate) plan: Plan,
    shapes: [Shape; SLOTS as usize],
}

impl Session {
    pub(crate) fn new() -> Session {
        Session {
            plan: Plan::none(),
            shapes: [NOTHING; SLOTS as usize],
        }
    }

    /// The likely shape of the object in a slot.
    pub(crate) fn shape(&self, slot: u32) -> Shape {
        self.shapes.get(slot as usize).copied().unwrap_or(NOTHING)
    }

    /// Whether a slot likely names nothing.
    pub(crate) fn is_empty(&self, slot: u32) -> bool {
        self.shape(slot) == NOTHING
    }

    fn remember(&mut self, slot: u32, shape: Shape) {
        if slot < SLOTS {
            self.shapes[slot as usize] = shape;
        }
    }

    /// Remembers what a command is likely to leave. What a reference leads to is taken to have the shape of what has it.
    pub(crate) fn note(&mut self, command: Command) {
        match command {
            Command::New {
                slot,
                references,
                numbers,
            } => self.remember(
                slot,
                Shape {
                    references,
                    numbers,
                },
            ),
            Command::Get { slot, source, .. } | Command::Copy { slot, source } => {
                self.remember(slot, self.shape(source));
            }
            Command::Take { slot, .. } => self.remember(slot, SOMETHING),
            Command::Clear { slot } => self.remember(slot, NOTHING),
            _ => {}
        }
    }

    /// The command, or a new object in the slot that it would most likely find empty.
    pub(crate) fn mended(&self, command: Command) -> Command {
        let slot = match command {
            Command::Get { source, .. } => source,
            Command::Put { slot, .. }
            | Command::Read { slot, .. }
            | Command::Write { slot, .. }
            | Command::Shape { slot } => slot,
            _ => return command,
        };
        if self.is_empty(slot) {
            make(slot, 2, 2)
        } else {
            command
        }
    }
}
