//! What the program writes of its words alone: the version, a random script, and sizes that are found without a script.
//! A size is made before it is written, so out of memory leaves nothing written.
ghost use Rattle.std.specs.Prelude.{◌≡◌, Err, IfOk, OnErr};
ghost use Rattle.mh_program.specs.{Auxiliary.IsMadeText, Program.{WritesScript, WritesSize, WritesVersion}};
ghost use Rattle.mh_size_counts.specs.Texts.{IsRoomText, IsTargetText};
ghost use Rattle.mh_script.specs.declared.fault.ScriptFault.TheVariants as fault;

use mh_command_line::version::VERSION_LINE;
use mh_generate::generate::generate;
use mh_model::memory::NoMemory;
use mh_orders::generate_options::Options;
use mh_orders::room_options::RoomOptions;
use mh_orders::target_options::TargetOptions;
use mh_script::fault::{ScriptFault, WriteError};
use mh_size_counts::room::room_text;
use mh_size_counts::target::target_text;
use mh_size_counts::text::SizeText;
use mh_size_text::end::SizeEnd;
use mh_text::sink::Sink;
use mh_text::stream::write_text;
use std::alloc::Global;

pub(crate) fn write_version<W: Sink>(sink: &mut W) -> Result<(), ScriptFault>
    ensures { WritesVersion (W.device sink.old) (W.device sink.new) result }
{
    match write_text(sink, VERSION_LINE.as_bytes()) {
        Ok(()) => Ok(()),
        Err(_) => Err(ScriptFault::Write),
    }
}

/// Writes a random script.
pub(crate) fn write_script<W: Sink>(
    alloc: Global,
    options: Options,
    sink: &mut W,
) -> Result<(), ScriptFault>
    ensures { WritesScript options (W.device sink.old) (W.device sink.new) result }
{
    match generate(alloc, &options, sink) {
        Ok(()) => Ok(()),
        Err(WriteError::Device) => Err(ScriptFault::Write),
        Err(WriteError::NoMemory) => Err(ScriptFault::NoMemory),
    }
}

/// Writes a text that was made, if there was memory for it.
fn write_size<W: Sink>(
    made: Result<SizeText, NoMemory>,
    sink: &mut W,
) -> Result<SizeEnd, ScriptFault>
    ensures made { IfOk made (λ made. WritesSize (IsMadeText made) (W.device sink.old) (W.device sink.new) result) }
    ensures none { OnErr made ((result ≡ Err fault.NoMemory) × (W.device sink.new ≡ W.device sink.old)) }
{
    let made = match made {
        Ok(made) => made,
        Err(NoMemory) => return Err(ScriptFault::NoMemory),
    };
    match write_text(sink, made.text.as_bytes()) {
        Ok(()) if made.is_found => Ok(SizeEnd::Sized),
        Ok(()) => Ok(SizeEnd::NoSize),
        Err(_) => Err(ScriptFault::Write),
    }
}

/// Writes the heap that has room.
pub(crate) fn write_room<W: Sink>(
    alloc: Global,
    options: &RoomOptions,
    sink: &mut W,
) -> Result<SizeEnd, ScriptFault>
    ensures { WritesSize (IsRoomText options.now) (W.device sink.old) (W.device sink.new) result }
{
    write_size(room_text(alloc, options), sink)
}

/// Writes which quantum keeps a share.
pub(crate) fn write_target<W: Sink>(
    alloc: Global,
    options: &TargetOptions,
    sink: &mut W,
) -> Result<SizeEnd, ScriptFault>
    ensures { WritesSize (IsTargetText options.now) (W.device sink.old) (W.device sink.new) result }
{
    write_size(target_text(alloc, options), sink)
}
