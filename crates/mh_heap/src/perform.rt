//! Commands performed on any heap. Each is performed as the call of its name, and promises what that call promises and
//! what the laws of `Heap` say that this shows. Here the results of calls become replies. `Heap` has all twelve
//! commands, so `perform` needs no condition on its command.
ghost use Rattle.std.specs.Prelude.{◌≡◌, ◌<◌, None, IfOk, OnErr};
ghost use Rattle.mh_model.specs.declared.birth.TheConstants.{LIFE};
ghost use Rattle.mh_model.specs.World.{births, sight_of, refusal, IsClosed, IsNew, Performs};
ghost use Rattle.mh_heap.specs.Outcome.{done_or, number_or, same_or, shape_or};

use crate::heap::Heap;
use mh_model::command::Command;
use mh_model::memory::NoMemory;
use mh_model::reply::{Refusal, Reply};
use mh_model::shape::Shape;

fn done(outcome: Result<(), Refusal>) -> Reply
    ensures { result ≡ done_or outcome }
{
    outcome.map_or_else(Reply::Refused, |()| Reply::Done)
}

fn number(outcome: Result<u64, Refusal>) -> Reply
    ensures { result ≡ number_or outcome }
{
    outcome.map_or_else(Reply::Refused, Reply::Number)
}

fn same(outcome: Result<bool, Refusal>) -> Reply
    ensures { result ≡ same_or outcome }
{
    outcome.map_or_else(
        Reply::Refused,
        |same| if same { Reply::Yes } else { Reply::No },
    )
}

fn shape(outcome: Result<Shape, Refusal>) -> Reply
    ensures { result ≡ shape_or outcome }
{
    outcome.map_or_else(Reply::Refused, Reply::Shape)
}

/// Performs a command of the session `who`, and answers it. Only a new object that nothing refuses asks for memory.
// It has a second caller, which tells what commands do; the first runs every command of a script.
#[inline(always)]
pub fn perform<H: Heap>(heap: &mut H, who: u8, command: &Command) -> Result<Reply, NoMemory>
    requires { births (H.shown heap.old).view < LIFE }
    ensures exactly { IfOk result (λ reply. H.performs heap.old who command.now reply heap.new) }
    ensures step { IfOk result
        (λ reply. Performs (H.shown heap.old).is_full (H.shown heap.old).view who command.now reply (H.shown heap.new).view) }
    ensures lacks { OnErr result (H.lacks heap.old) }
    ensures err { OnErr result (H.shown heap.new ≡ H.shown heap.old) }
    ensures only_new { OnErr result (IsNew command.now) }
    ensures asked { OnErr result
        (refusal (sight_of (H.shown heap.old).is_full (H.shown heap.old).view) who command.now ≡ None) }
    ensures number { (H.shown heap.new).number ≡ (H.shown heap.old).number }
    ensures limit { (H.shown heap.new).limit ≡ (H.shown heap.old).limit }
    ensures closed { IsClosed (H.shown heap.new).view }
{
    let reply = match *command {
        Command::New {
            slot,
            references,
            numbers,
        } => done(heap.make(who, slot, references, numbers)?),
        Command::Get {
            slot,
            source,
            field,
        } => done(heap.get(who, slot, source, field)),
        Command::Put { slot, field, value } => done(heap.put(who, slot, field, value)),
        Command::Copy { slot, source } => done(heap.copy(who, slot, source)),
        Command::Clear { slot } => done(heap.clear(who, slot)),
        Command::Read { slot, index } => number(heap.read(who, slot, index)),
        Command::Write {
            slot,
            index,
            number,
        } => done(heap.write(who, slot, index, number)),
        Command::Same { left, right } => same(heap.same(who, left, right)),
        Command::Shape { slot } => shape(heap.shape(who, slot)),
        Command::Post { board, slot } => done(heap.post(who, board, slot)),
        Command::Take { slot, board } => done(heap.take(who, slot, board)),
        Command::End => done(heap.end(who)),
    };
    Ok(reply)
}
