//! What is done with whole texts: a text is read, something is made of it, and that is written.
//!
//! A text is read to its source's end, or until it is too long. Then a task is done with it, which knows no source. If
//! the source failed, or memory was refused for its bytes, nothing is written. Otherwise what is to be written was
//! written whole, or a prefix of it if the sink failed or memory was refused. A device failed exactly if it is blamed.
ghost use Rattle.std.specs.Prelude.{◌≡◌, ◌<◌, ◌++◌, ℕ, length, Result};
ghost use Rattle.mh_model.specs.Bytes.{Text};
ghost use Rattle.mh_script.specs.{declared.fault.ScriptFault.ScriptFault, Tasks.{IsDone, IsPerformed}};

use crate::fault::ScriptFault;
use mh_text::sink::Sink;
use mh_text::source::Source;
use mh_text::stream::read_text;
use std::alloc::Global;

/// What is done with a whole text.
pub trait Task {
    /// What is known once it is done.
    type Done: Drop;

    // the most bytes that a text has
    ghost most: { ℕ };

    // of a text, if that is how it ended, this is to be written, and the task is then this
    ghost does: { Self → Text → Result Self.Done ScriptFault → Text → Self → Type 0 };

    /// The most bytes that a text has. Of one that has more the same is done whatever comes after.
    fn most_bytes() -> usize
        ensures most { result ≡ most }
        ensures long { (old new : Self) (text rest : Text) (ended : Result Self.Done ScriptFault) (written : Text) → most < length text → does old text ended written new → does old (text ++ rest) ended written new };

    /// Does it with a text, of which more may be left if it is too long.
    fn perform<W: Sink>(
        &mut self,
        alloc: Global,
        text: &[u8],
        sink: &mut W,
    ) -> Result<Self::Done, ScriptFault>
        ensures { IsPerformed (λ text ended written. does self.old text ended written self.new) (W.device sink.old) (W.device sink.new) result text.now };
}

/// Reads a whole text, and does this with it.
pub fn done_with<T: Task, S: Source, W: Sink>(
    alloc: Global,
    task: &mut T,
    source: &mut S,
    sink: &mut W,
) -> Result<T::Done, ScriptFault>
    ensures { IsDone (λ text ended written. T.does task.old text ended written task.new) T.most (S.device source.old) (S.device source.new) (W.device sink.old) (W.device sink.new) result }
{
    let text = read_text(alloc, source, T::most_bytes())?;
    task.perform(alloc, text.as_slice(), sink)
}
