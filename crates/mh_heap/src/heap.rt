//! The trait of heaps, and its laws.
//!
//! Each of the twelve commands of a session, on any heap, answers what `heap_step` answers on the heap's view: the
//! world's reply, or that the heap is full. It changes the view exactly as the world changes. Slots and references name
//! only objects that are there (`closed`). `make` alone may be answered that the heap is full or that there is no
//! memory. Both leave the view as it was. Out of memory is answered only if nothing refuses the command.
//!
//! A quantum, on any heap, leaves a view that agrees with the one before it: the same slots, ended sessions and next
//! birth, nothing changed or added, and nothing lost that is reachable. It spends at most the heap's limit and begins
//! at most one cycle. No command begins one.
//!
//! Each call promises exactly what its heap does (`performs`, `collects`). Laws of the trait say what that shows: the
//! world's step on the view, and for a quantum a view that agrees with the one before. So a heap proves the step from
//! its own relation to the view once, and not for each call.
//!
//! The calls return types of Rust, such as `Result<u64, Refusal>` for `read`, and no `Reply`. `make` returns
//! `Result<Result<(), Refusal>, NoMemory>`, since out of memory is no reply. The signatures stand here, in the plain
//! heap and in the heap of pages: an implementation spells them out.
ghost use Rattle.std.specs.Prelude.{◌≡◌, ◌<◌, ℕ, None, IfOk, OnErr};
ghost use Rattle.mh_model.specs.{declared.birth.TheConstants.LIFE, declared.command.Command.Command};
ghost use Rattle.mh_model.specs.{declared.reply.Reply.Reply, World.{births, sight_of, refusal, IsClosed}};
ghost use Rattle.mh_heap.specs.Outcome.{done_or, number_or, same_or, shape_or};
ghost use Rattle.mh_heap.specs.Shown.{Showing, ShowsCommand, ShowsQuantum};
ghost use Rattle.mh_model.specs.declared.command.Command.TheVariants as command;

use mh_model::cycle::Spent;
use mh_model::memory::NoMemory;
use mh_model::reply::Refusal;
use mh_model::shape::Shape;
use mh_scan::scan::Scanner;

/// A heap as its sessions see it: each call is the command of its name by the session `who`. What a heap shows is the
/// ever-growing world, with nothing at the births that it no longer holds. Each call promises what this heap states
/// exactly, and the laws say what that shows.
pub trait Heap {
    ghost shown: { Self → Showing };

    // What a command of a session answers and leaves.
    ghost performs: { Self → ℕ → Command → Reply → Self → Type 0 };

    // What is so of a heap to which memory was refused: nothing more, or what is false if it asks for none.
    ghost lacks: { Self → Type 0 };

    // What a quantum spends and leaves.
    ghost collects: { Self → ℕ → Self → Type 0 };

    fn make(
        &mut self,
        who: u8,
        slot: u32,
        references: u32,
        numbers: u32,
    ) -> Result<Result<(), Refusal>, NoMemory>
        requires { births (shown self.old).view < LIFE }
        ensures step { IfOk result
            (λ outcome. performs self.old who (command.New slot references numbers) (done_or outcome) self.new) }
        ensures lacks { OnErr result (lacks self.old) }
        ensures err { OnErr result (shown self.new ≡ shown self.old) }
        ensures asked { OnErr result
            (refusal (sight_of (shown self.old).is_full (shown self.old).view) who (command.New slot references numbers) ≡ None) };

    fn get(&mut self, who: u8, slot: u32, source: u32, field: u32) -> Result<(), Refusal>
        ensures { performs self.old who (command.Get slot source field) (done_or result) self.new };

    fn put(&mut self, who: u8, slot: u32, field: u32, value: u32) -> Result<(), Refusal>
        ensures { performs self.old who (command.Put slot field value) (done_or result) self.new };

    fn copy(&mut self, who: u8, slot: u32, source: u32) -> Result<(), Refusal>
        ensures { performs self.old who (command.Copy slot source) (done_or result) self.new };

    fn clear(&mut self, who: u8, slot: u32) -> Result<(), Refusal>
        ensures { performs self.old who (command.Clear slot) (done_or result) self.new };

    fn read(&self, who: u8, slot: u32, index: u32) -> Result<u64, Refusal>
        ensures { performs self.now who (command.Read slot index) (number_or result) self.now };

    fn write(&mut self, who: u8, slot: u32, index: u32, number: u64) -> Result<(), Refusal>
        ensures { performs self.old who (command.Write slot index number) (done_or result) self.new };

    fn same(&self, who: u8, left: u32, right: u32) -> Result<bool, Refusal>
        ensures { performs self.now who (command.Same left right) (same_or result) self.now };

    fn shape(&self, who: u8, slot: u32) -> Result<Shape, Refusal>
        ensures { performs self.now who (command.Shape slot) (shape_or result) self.now };

    fn post(&mut self, who: u8, board: u32, slot: u32) -> Result<(), Refusal>
        ensures { performs self.old who (command.Post board slot) (done_or result) self.new };

    fn take(&mut self, who: u8, slot: u32, board: u32) -> Result<(), Refusal>
        ensures { performs self.old who (command.Take slot board) (done_or result) self.new };

    fn end(&mut self, who: u8) -> Result<(), Refusal>
        ensures { performs self.old who command.End (done_or result) self.new };

    /// Runs a quantum of the collector. What is left and spent doesn't depend on the scanner.
    fn quantum<S: Scanner>(&mut self, scanner: &mut S) -> Spent
        requires { (shown self.old).number < LIFE }
        ensures { collects self.old result self.new };

    /// How many objects were made.
    fn births(&self) -> u64
        ensures { result ≡ births (shown self.now).view };

    /// How many cycles have begun.
    fn cycle_number(&self) -> u64
        ensures { result ≡ (shown self.now).number };

    /// The most work units that a quantum spends.
    fn limit(&self) -> u64
        ensures { result ≡ (shown self.now).limit };

    ghost closed: { (heap : Self) → IsClosed (shown heap).view };

    ghost shows_commands: { (old new : Self) (who : ℕ) (command : Command) (reply : Reply) → performs old who command reply new → ShowsCommand (shown old) who command reply (shown new) };

    ghost shows_quanta: { (old new : Self) (spent : ℕ) → collects old spent new → ShowsQuantum (shown old) spent (shown new) };
}
