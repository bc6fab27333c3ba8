//! The calls of the static library, for programs in C and what calls C. `include/metroheap.h` describes them. Each is a
//! call of `mh_embed` over what its handle keeps. The law `calls_keep_the_promise` of that crate covers each that may
//! change what is kept (`ends_are_calls`). A closed handle answers so and stays closed. Those whose names end in
//! `_nonnull` have a shorthand in the header that takes null pointers too. Tests alone show that the header says what
//! the calls take, and that a C program finds them.
#![tactic(auto)]

ghost use Rattle.std.specs.Prelude.{◌≡◌, ◌==◌, not, None, option_map};
ghost use Rattle.mh_model.specs.Script.{line_of};
ghost use Rattle.mh_embed.specs.Configs.{numbered_config, world_config};
ghost use Rattle.mh_embed.specs.Driving.{first_driven, first_world_driven, without_newline};
ghost use Rattle.mh_embed.specs.Endings.{AnswerEnds, DeedEnds, ForgetEnds, ItemEnds, JudgeEnds, ReasonEnds, ReplyEnds, ReportEnds, ReserveEnds, SeeEnds, StepEnds, TellEnds, TextEnds, UnitsEnd};
ghost use Rattle.metroheap_c.specs.Calls.{AnswersSo, IsUntold, OnHandle, Opens, Reads, version_number};
ghost use Rattle.mh_model.specs.declared.command.Control.TheVariants as controls;

mod handle;
mod parts;

use handle::Handle;
use mh_embed::configs::{config_of, world_config_of};
use mh_embed::embedded::{Embedded, without_newline};
use mh_embed::numbers::{DeedNumbers, EventNumbers, ItemNumbers, ReplyNumbers, UnitNumbers};
use mh_embed::reasons::reason;
use mh_embed::status::Status;
use std::alloc::Global;

/// The number of the version, 2.0.0: 1,000,000 for each of its first number and 1,000 for each of the second.
#[unsafe(no_mangle)]
pub extern "C" fn metroheap_version() -> u32
    ensures { result ≡ version_number 2 0 0 }
{
    2_000_000
}

/// Opens a machine with these numbers, in place of the one that the handle may have.
#[unsafe(no_mangle)]
pub extern "C" fn metroheap_open(
    alloc: Global,
    heap: &mut Handle,
    pages: u32,
    quantum: u32,
    trigger: u32,
    every: u32,
    rules: u32,
) -> i32
    ensures { Opens (option_map first_driven (numbered_config pages quantum trigger every rules)) heap.old.value heap.new.value result }
{
    let Some(config) = config_of(pages, quantum, trigger, every, rules) else {
        return Status::BadConfig.code();
    };
    let Ok(embedded) = Embedded::open(alloc, config) else {
        return Status::NoMemory.code();
    };
    let Ok(kept) = Box::new(alloc, embedded) else {
        return Status::NoMemory.code();
    };
    heap.keep(kept);
    Status::Done.code()
}

/// Opens a world under these rules, in place of what the handle may have.
#[unsafe(no_mangle)]
pub extern "C" fn metroheap_open_world(alloc: Global, heap: &mut Handle, rules: u32) -> i32
    ensures { Opens (option_map first_world_driven (world_config rules)) heap.old.value heap.new.value result }
{
    let Some(config) = world_config_of(rules) else {
        return Status::BadConfig.code();
    };
    let Ok(kept) = Box::new(alloc, Embedded::open_world(alloc, config)) else {
        return Status::NoMemory.code();
    };
    heap.keep(kept);
    Status::Done.code()
}

/// Does the event of a line, which may end with a newline, and copies the text of its reply to the start of `out`.
#[unsafe(no_mangle)]
pub extern "C" fn metroheap_line_nonnull(
    alloc: Global,
    heap: &mut Handle,
    line: &[u8],
    out: &mut [u8],
    written: &mut usize,
) -> i32
    ensures { OnHandle (IsUntold out.old out.new written.new) (λ old new status. AnswerEnds old (line_of (without_newline line.now)) new out.old out.new written.new status) heap.old.value heap.new.value result }
{
    let Some(kept) = heap.take(alloc) else {
        *written = 0;
        return Status::Closed.code();
    };
    let mut embedded = kept;
    let status = embedded.answer(line, out, written);
    heap.keep(embedded);
    status.code()
}

/// Copies the text of the last reply to the start of `out`.
#[unsafe(no_mangle)]
pub extern "C" fn metroheap_last_text_nonnull(
    alloc: Global,
    heap: &mut Handle,
    out: &mut [u8],
    written: &mut usize,
) -> i32
    ensures { OnHandle (IsUntold out.old out.new written.new) (Reads (λ old. TextEnds old.reply out.old out.new written.new)) heap.old.value heap.new.value result }
{
    let Some(kept) = heap.take(alloc) else {
        *written = 0;
        return Status::Closed.code();
    };
    let mut embedded = kept;
    let status = embedded.text(out, written);
    heap.keep(embedded);
    status.code()
}

/// Copies why a line, which may end with a newline, is no event to the start of `out`.
#[unsafe(no_mangle)]
pub extern "C" fn metroheap_reason_nonnull(
    alloc: Global,
    line: &[u8],
    out: &mut [u8],
    written: &mut usize,
) -> i32
    ensures { AnswersSo (ReasonEnds (without_newline line.now) out.old out.new written.new) result }
{
    reason(alloc, without_newline(line), out, written).code()
}

/// Does an event, and shows its reply.
#[unsafe(no_mangle)]
pub extern "C" fn metroheap_step(
    alloc: Global,
    heap: &mut Handle,
    asked: &EventNumbers,
    shown: &mut ReplyNumbers,
) -> i32
    ensures { OnHandle (shown.new ≡ shown.old) (λ old new status. StepEnds old asked.now new shown.old shown.new status) heap.old.value heap.new.value result }
{
    let Some(kept) = heap.take(alloc) else {
        return Status::Closed.code();
    };
    let mut embedded = kept;
    let status = embedded.step(*asked, shown);
    heap.keep(embedded);
    status.code()
}

/// Shows the last reply.
#[unsafe(no_mangle)]
pub extern "C" fn metroheap_last_reply(
    alloc: Global,
    heap: &mut Handle,
    shown: &mut ReplyNumbers,
) -> i32
    ensures { OnHandle (shown.new ≡ shown.old) (Reads (λ old. ReplyEnds old.reply shown.old shown.new)) heap.old.value heap.new.value result }
{
    let Some(embedded) = heap.take(alloc) else {
        return Status::Closed.code();
    };
    let status = embedded.reply(shown);
    heap.keep(embedded);
    status.code()
}

/// Shows an item of the last reply, counted from 0.
#[unsafe(no_mangle)]
pub extern "C" fn metroheap_dump_item(
    alloc: Global,
    heap: &mut Handle,
    index: usize,
    shown: &mut ItemNumbers,
) -> i32
    ensures { OnHandle (shown.new ≡ shown.old) (Reads (λ old. ItemEnds old.reply index shown.old shown.new)) heap.old.value heap.new.value result }
{
    let Some(embedded) = heap.take(alloc) else {
        return Status::Closed.code();
    };
    let status = embedded.item(index, shown);
    heap.keep(embedded);
    status.code()
}

/// Does an event, and judges what another collector answered to it, or shows what is right.
#[unsafe(no_mangle)]
pub extern "C" fn metroheap_judge(
    alloc: Global,
    heap: &mut Handle,
    asked: &EventNumbers,
    given: &ReplyNumbers,
    right: &mut ReplyNumbers,
) -> i32
    ensures { OnHandle (right.new ≡ right.old) (λ old new status. JudgeEnds old asked.now given.now new right.old right.new status) heap.old.value heap.new.value result }
{
    let Some(kept) = heap.take(alloc) else {
        return Status::Closed.code();
    };
    let mut embedded = kept;
    let status = embedded.judge(*asked, given, right);
    heap.keep(embedded);
    status.code()
}

/// Shows what the last event added to the trace.
#[unsafe(no_mangle)]
pub extern "C" fn metroheap_last_units(
    alloc: Global,
    heap: &mut Handle,
    shown: &mut UnitNumbers,
) -> i32
    ensures { OnHandle (shown.new ≡ shown.old) (Reads (λ old. UnitsEnd old shown.old shown.new)) heap.old.value heap.new.value result }
{
    let Some(embedded) = heap.take(alloc) else {
        return Status::Closed.code();
    };
    let status = embedded.units(shown);
    heap.keep(embedded);
    status.code()
}

/// Has events keep their deeds, from the next one on, unless `tells` is 0.
#[unsafe(no_mangle)]
pub extern "C" fn metroheap_tell(alloc: Global, heap: &mut Handle, tells: u32) -> i32
    ensures { OnHandle (Unit {0}) (λ old new status. TellEnds old (not (tells == 0)) new status) heap.old.value heap.new.value result }
{
    let Some(kept) = heap.take(alloc) else {
        return Status::Closed.code();
    };
    let mut embedded = kept;
    let status = embedded.tell(tells != 0);
    heap.keep(embedded);
    status.code()
}

/// Shows a deed of the last event, counted from 0.
#[unsafe(no_mangle)]
pub extern "C" fn metroheap_deed_item(
    alloc: Global,
    heap: &mut Handle,
    index: usize,
    shown: &mut DeedNumbers,
) -> i32
    ensures { OnHandle (shown.new ≡ shown.old) (Reads (λ old. DeedEnds old.driver index shown.old shown.new)) heap.old.value heap.new.value result }
{
    let Some(embedded) = heap.take(alloc) else {
        return Status::Closed.code();
    };
    let status = embedded.deed(index, shown);
    heap.keep(embedded);
    status.code()
}

/// Shows what a `stat` would answer.
#[unsafe(no_mangle)]
pub extern "C" fn metroheap_see_stat(
    alloc: Global,
    heap: &mut Handle,
    shown: &mut ReplyNumbers,
) -> i32
    ensures { OnHandle (shown.new ≡ shown.old) (Reads (λ old. SeeEnds old.driver controls.Stat shown.old shown.new)) heap.old.value heap.new.value result }
{
    let Some(embedded) = heap.take(alloc) else {
        return Status::Closed.code();
    };
    let status = embedded.see_stat(shown);
    heap.keep(embedded);
    status.code()
}

/// Shows what a `left` would answer.
#[unsafe(no_mangle)]
pub extern "C" fn metroheap_see_left(
    alloc: Global,
    heap: &mut Handle,
    shown: &mut ReplyNumbers,
) -> i32
    ensures { OnHandle (shown.new ≡ shown.old) (Reads (λ old. SeeEnds old.driver controls.Left shown.old shown.new)) heap.old.value heap.new.value result }
{
    let Some(embedded) = heap.take(alloc) else {
        return Status::Closed.code();
    };
    let status = embedded.see_left(shown);
    heap.keep(embedded);
    status.code()
}

/// Shows the report of the trace since it was last forgotten, for windows of this length.
#[unsafe(no_mangle)]
pub extern "C" fn metroheap_see_report(
    alloc: Global,
    heap: &mut Handle,
    window: u64,
    shown: &mut ReplyNumbers,
) -> i32
    ensures { OnHandle (shown.new ≡ shown.old) (Reads (λ old. ReportEnds old.driver window shown.old shown.new)) heap.old.value heap.new.value result }
{
    let Some(kept) = heap.take(alloc) else {
        return Status::Closed.code();
    };
    let mut embedded = kept;
    let status = embedded.see_report(window, shown);
    heap.keep(embedded);
    status.code()
}

/// Makes room for so many events, none of which is then refused memory, unless it is a dump.
#[unsafe(no_mangle)]
pub extern "C" fn metroheap_reserve(alloc: Global, heap: &mut Handle, events: usize) -> i32
    ensures { OnHandle (Unit {0}) (λ old new status. ReserveEnds old events new status) heap.old.value heap.new.value result }
{
    let Some(kept) = heap.take(alloc) else {
        return Status::Closed.code();
    };
    let mut embedded = kept;
    let status = embedded.reserve(events);
    heap.keep(embedded);
    status.code()
}

/// Forgets the trace, from which reports count on then.
#[unsafe(no_mangle)]
pub extern "C" fn metroheap_forget(alloc: Global, heap: &mut Handle) -> i32
    ensures { OnHandle (Unit {0}) (λ old new status. ForgetEnds old new status) heap.old.value heap.new.value result }
{
    let Some(kept) = heap.take(alloc) else {
        return Status::Closed.code();
    };
    let mut embedded = kept;
    let status = embedded.forget();
    heap.keep(embedded);
    status.code()
}

/// Frees what a handle has.
#[unsafe(no_mangle)]
pub extern "C" fn metroheap_close_nonnull(alloc: Global, heap: &mut Handle)
    ensures { heap.new.value ≡ None }
{
    drop(heap.take(alloc));
}
