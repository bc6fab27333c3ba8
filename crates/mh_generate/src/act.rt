//! Acts: what a session does in turn where a heap runs along with the script. A step of an act becomes a command when
//! it is due, by what its session sees then. A step that finds nothing to do is passed over.
ghost use Rattle.std.specs.Prelude.{◌<◌};

use crate::random::{Random, SLOTS};
use crate::say::{clear, copy, get, make, post, put, read, same, shape, take, write};
use crate::sight::Sight;
use mh_model::command::Command;

/// A slot that names nothing, and stays so.
const EMPTY: u32 = 15;

/// How many slots of a session keep objects, from the first on.
pub(crate) const KEPT: u32 = 6;

/// What is done with the first or the last number of an object, or with its counts.
#[derive(Clone, Copy)]
pub(crate) enum Touch {
    /// The numbers become the object's own, which no other object has.
    MarkFirst,
    MarkLast,
    /// The numbers become odd ones by chance.
    SpoilFirst,
    SpoilLast,
    ReadFirst,
    ReadLast,
    Shape,
}

/// A reference of an object: the one that was loaded last, any that leads nowhere, or somewhere, or the last one it has.
#[derive(Clone, Copy)]
pub(crate) enum Field {
    Loaded,
    Null,
    Set,
    Last,
}

/// A step of an act. Its slots are counted from one that the act has.
#[derive(Clone, Copy)]
pub(crate) enum Step {
    /// A new object of one of the sizes.
    Make(u32),
    /// A new object with many fields.
    MakeWide(u32),
    Touch(u32, Touch),
    Same(u32, u32),
    Copy(u32, u32),
    Clear(u32),
    /// A slot that keeps objects names what this one names.
    Keep(u32),
    /// This slot names what one that keeps objects names.
    Begin(u32),
    /// A slot that keeps objects is emptied.
    Forget,
    /// The first slot names what a reference of the object in the second leads to.
    Load(u32, u32),
    /// The same with its last reference, also if that leads nowhere.
    LoadLast(u32, u32),
    /// A reference of the object in the first slot leads to what the other names.
    Store(u32, Field, u32),
    /// A reference of the object in the slot leads nowhere.
    Cut(u32, Field),
    Post(u32),
    Take(u32),
    /// The slot of the board that was taken from is emptied.
    Withdraw,
    End,
}

/// What acts find and may use.
#[derive(Clone, Copy)]
pub(crate) struct Stage<'a> {
    pub(crate) sight: Sight<'a>,
    /// The sizes of objects: how many references and numbers.
    pub(crate) sizes: &'static [(u32, u32)],
    /// How many references and numbers a wide object has.
    pub(crate) wide: (u32, u32),
    /// How many slots of the board are used.
    pub(crate) boards: u32,
}

impl Stage<'_> {
    fn size(&self, random: &mut Random) -> (u32, u32) {
        let place = random.wide() as usize % self.sizes.len().max(1);
        self.sizes.get(place).copied().unwrap_or((1, 1))
    }

    /// What is done with the object in a slot. Of one without numbers the counts are read.
    fn touch(&self, slot: u32, touch: Touch, random: &mut Random) -> Option<Command> {
        let object = self.sight.object(slot)?;
        let Some(last) = self.sight.shape(object).numbers.checked_sub(1) else {
            return Some(shape(slot));
        };
        let own = object.0.saturating_add(1);
        Some(match touch {
            Touch::MarkFirst => write(slot, 0, own),
            Touch::MarkLast => write(slot, last, own),
            Touch::SpoilFirst => write(slot, 0, random.wide() | 1),
            Touch::SpoilLast => write(slot, last, random.wide() | 1),
            Touch::ReadFirst => read(slot, 0),
            Touch::ReadLast => read(slot, last),
            Touch::Shape => shape(slot),
        })
    }

    /// The slot, unless it names nothing.
    fn named(&self, slot: u32) -> Option<u32> {
        self.sight.object(slot).map(|_| slot)
    }

    /// A slot that keeps an object, searched from one by chance on.
    fn kept(&self, random: &mut Random) -> Option<u32> {
        let start = random.below(KEPT);
        (start..KEPT)
            .chain(0..start)
            .find(|slot| self.sight.object(*slot).is_some())
    }

    /// A slot of the board that names an object, searched from one by chance on.
    fn posted(&self, random: &mut Random) -> Option<u32> {
        let start = random.below(self.boards.max(1));
        (start..self.boards)
            .chain(0..start)
            .find(|board| self.sight.posted(*board).is_some())
    }
}

/// An act of a session, as far as it has come.
#[derive(Clone, Copy)]
pub(crate) struct Act {
    steps: &'static [Step],
    next: usize,
    /// The slot from which those of the steps are counted.
    base: u32,
    /// Which reference of the object in each slot was loaded last.
    loaded: [Option<u32>; SLOTS as usize],
    /// The slot of the board that was taken from last.
    board: Option<u32>,
}

impl Act {
    pub(crate) fn of(steps: &'static [Step], base: u32) -> Act {
        Act {
            steps,
            next: 0,
            base,
            loaded: [None; SLOTS as usize],
            board: None,
        }
    }

    /// The next command, if a step that is left finds one.
    pub(crate) fn next(&mut self, stage: &Stage<'_>, random: &mut Random) -> Option<Command> {
        for _ in self.next..self.steps.len() {
            let step = *self.steps.get(self.next)?;
            self.next += 1;
            let command = self.command(step, stage, random);
            if command.is_some() {
                return command;
            }
        }
        None
    }

    fn slot(&self, slot: u32) -> u32
        ensures { result < SLOTS }
    {
        self.base.saturating_add(slot).min(EMPTY)
    }

    fn command(&mut self, step: Step, stage: &Stage<'_>, random: &mut Random) -> Option<Command> {
        let command = match step {
            Step::Make(slot) => {
                let (references, numbers) = stage.size(random);
                make(self.slot(slot), references, numbers)
            }
            Step::MakeWide(slot) => make(self.slot(slot), stage.wide.0, stage.wide.1),
            Step::Same(left, right) => same(self.slot(left), self.slot(right)),
            Step::Copy(to, from) => copy(self.slot(to), self.slot(from)),
            Step::Clear(slot) => clear(stage.named(self.slot(slot))?),
            Step::Keep(slot) => copy(random.below(KEPT), stage.named(self.slot(slot))?),
            Step::Begin(slot) => copy(self.slot(slot), stage.kept(random)?),
            Step::Forget => clear(random.below(KEPT)),
            Step::Post(slot) => post(
                random.below(stage.boards.max(1)),
                stage.named(self.slot(slot))?,
            ),
            Step::Take(slot) => {
                let board = stage.posted(random)?;
                self.board = Some(board);
                take(self.slot(slot), board)
            }
            Step::Withdraw => post(self.board?, EMPTY),
            Step::End => Command::End,
            Step::Load(to, from) => self.load(self.slot(to), self.slot(from), stage, random)?,
            Step::LoadLast(to, from) => {
                let from = self.slot(from);
                let last = stage.sight.last_reference(stage.sight.object(from)?)?;
                get(self.slot(to), from, last)
            }
            Step::Store(slot, field, value) => {
                let value = stage.named(self.slot(value))?;
                self.store(self.slot(slot), field, value, stage, random)?
            }
            Step::Cut(slot, field) => self.store(self.slot(slot), field, EMPTY, stage, random)?,
            Step::Touch(slot, touch) => stage.touch(self.slot(slot), touch, random)?,
        };
        Some(command)
    }

    fn load(
        &mut self,
        to: u32,
        from: u32,
        stage: &Stage<'_>,
        random: &mut Random,
    ) -> Option<Command>
        requires { (to < SLOTS) × (from < SLOTS) }
    {
        let field = stage
            .sight
            .reference(stage.sight.object(from)?, true, random)?;
        self.loaded[from as usize] = Some(field);
        if to != from {
            self.loaded[to as usize] = None;
        }
        Some(get(to, from, field))
    }

    fn store(
        &self,
        slot: u32,
        field: Field,
        value: u32,
        stage: &Stage<'_>,
        random: &mut Random,
    ) -> Option<Command>
        requires { slot < SLOTS }
    {
        let object = stage.sight.object(slot)?;
        let field = match field {
            Field::Loaded => self.loaded[slot as usize]?,
            Field::Null => stage.sight.reference(object, false, random)?,
            Field::Set => stage.sight.reference(object, true, random)?,
            Field::Last => stage.sight.last_reference(object)?,
        };
        Some(put(slot, field, value))
    }
}
