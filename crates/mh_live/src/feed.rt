//! Lines that are read from a source as they come.
//!
//! Those whose ends have come are answered before more bytes are read: no client is read on sooner (`prompt` of its
//! `read`). At the end of the source each line was answered, and a last line without its end was
//! refused. Whatever ends it earlier leaves the answers to the first lines, or a prefix of these. A failed read leaves
//! each whole line answered that came before it (`prompt`). A device failed exactly when it is blamed. The run ends
//! with out of memory only if the source gave some byte (`memory`). It ends so if memory is refused for the bytes of a
//! line, or for the text of a reply that is no dump. The number of workers changes nothing of this.
//!
//! Of a run that waits for its configuration, the answers show replies of an outcome that keeps the promise of `mh_promise`
//! (`promise`). It is the promise of the events that the answered lines did, however the run ends.
//!
//! The listener hears of exactly the lines that were refused, in order, each with its number and a reason that is true
//! of it. If the run ends early, it has heard of those whose answers were written whole. It hears after the answer, so
//! whoever waits for the answer never waits for the listener.
//!
//! The buffer of answers keeps its room, so that a short reply takes memory only once.
ghost use Rattle.std.specs.Prelude.{◌≡◌, ◌<◌, ◌≤◌, ◌++◌, [], Option, IfErr, OnOk, OnErr, IsErrOf, length};
ghost use Rattle.std.specs.Io.KnownBytes.{Appends};
ghost use Rattle.mh_model.specs.{Bytes.Text, Live.{Waits, unended_text}};
ghost use Rattle.mh_text.specs.Devices.{Fails, GivesSome, Works};
ghost use Rattle.mh_live.specs.Feeding.{AnswersAll, AnswersFront, AnswersSome, AnswersWhole, Blames, KeepsLivePromise};
ghost use Rattle.mh_live.specs.Auxiliary.{IsFed, MayBegin, TakesTurn, TurnsPartly, WritesPrefix, HeardRefusal, refusal_of};
ghost use Rattle.mh_live.specs.{Heard.unended_refusal, Talks.IsSilent};
ghost use Rattle.mh_model.specs.Live as model;

use crate::answer::refused;
use crate::client::Client;
use crate::listener::Listener;
use crate::live::Live;
use mh_promise::promise::replies_are_promised;
use mh_reasons::reason::{LineReason, ScriptReason};
use mh_scan::crew_scan::{CrewGate, CrewScan};
use mh_scan::scan::Scanner;
use mh_script::end::LineRefusal;
use mh_script::fault::{ScriptFault, WriteError};
use mh_text::pieces::split_at_byte;
use mh_text::sink::Sink;
use mh_text::stream::write_text;
use std::alloc::Global;
use std::thread::Threads;

/// The most bytes that are read at a time.
const CHUNK: usize = 65_536;

/// Tells what is wrong with a line, if anything is.
fn tell<L: Listener>(listener: &mut L, number: u64, why: Option<LineReason>)
    ensures { HeardRefusal L.hears listener.old (refusal_of number why) listener.new }
{
    if let Some(reason) = why {
        let reason = ScriptReason::Line(reason);
        listener.refused(&LineRefusal {
            line: number,
            reason,
        });
    }
}

/// The run, the number of the line that has begun, what came of it, and the answer that is being made.
#[derive(Drop)]
pub(crate) struct Feed {
    live: Live,
    number: u64,
    begun: Vec<u8>,
    answer: String,
}

impl Feed {
    fn new(alloc: Global, live: Live) -> Feed
        ensures live { result.live ≡ live }
        ensures number { result.number ≡ 1 }
        ensures begun { result.begun.items ≡ [] }
    {
        Feed {
            live,
            number: 1,
            begun: Vec::new(alloc),
            answer: String::new(alloc),
        }
    }

    /// Answers the line that has begun, and whose end has come. Then it tells what is wrong with it, if anything is.
    #[tactic(auto, using(crate::proofs::FeedLemmas::no_part, crate::proofs::FeedLemmas::part_written, crate::proofs::FeedLemmas::takes_turn, crate::proofs::FeedLemmas::turns_partly))]
    fn line<S: Scanner, W: Sink, L: Listener>(
        &mut self,
        scanner: &mut S,
        sink: &mut W,
        listener: &mut L,
    ) -> Result<(), WriteError>
        ensures done { OnOk result (TakesTurn (λ refusal. HeardRefusal L.hears listener.old refusal listener.new) self.old self.new (W.device sink.old).bytes (W.device sink.new).bytes) }
        ensures begun { IfErr result (TurnsPartly self.old (W.device sink.old).bytes (W.device sink.new).bytes) }
        ensures untold { OnErr result (listener.new ≡ listener.old) }
        ensures no_failure { OnOk result (Works (W.device sink.old) (W.device sink.new)) }
        ensures blamed { IsErrOf result WriteError.Device → Fails (W.device sink.old) (W.device sink.new) }
        ensures not_blamed { IsErrOf result WriteError.NoMemory → Works (W.device sink.old) (W.device sink.new) }
    {
        let Some(next) = self.number.checked_add(1) else {
            return Err(WriteError::NoMemory);
        };
        self.answer.clear();
        let line = self.begun.as_slice();
        let why = self
            .live
            .line(self.number, line, scanner, &mut self.answer)?;
        write_text(sink, self.answer.as_bytes())?;
        tell(listener, self.number, why);
        self.begun.clear();
        self.number = next;
        Ok(())
    }

    /// Answers the lines whose ends are among bytes that came, and keeps what follows the last of them.
    fn bytes<S: Scanner, W: Sink, L: Listener>(
        &mut self,
        bytes: &[u8],
        scanner: &mut S,
        sink: &mut W,
        listener: &mut L,
    ) -> Result<(), WriteError>
        ensures done { OnOk result ((opened : model.Live) (text : Text) (first : Option Text) (start : L) → IsFed opened (λ refusals. L.hears start refusals listener.old) text first (W.device sink.old).bytes self.old
            → IsFed opened (λ refusals. L.hears start refusals listener.new) (text ++ bytes.now) first (W.device sink.new).bytes self.new) }
        ensures begun { IfErr result (λ error. (opened : model.Live) (text : Text) (first : Option Text) (start : L) → IsFed opened (λ refusals. L.hears start refusals listener.old) text first (W.device sink.old).bytes self.old
            → AnswersSome opened (λ refusals. L.hears start refusals listener.new) (MayBegin error) (text ++ bytes.now) first (W.device sink.new).bytes) }
        ensures no_failure { OnOk result (Works (W.device sink.old) (W.device sink.new)) }
        ensures blamed { IsErrOf result WriteError.Device → Fails (W.device sink.old) (W.device sink.new) }
        ensures not_blamed { IsErrOf result WriteError.NoMemory → Works (W.device sink.old) (W.device sink.new) }
    {
        let mut rest = bytes;
        while let Some((piece, next)) = split_at_byte(rest, b'\n') {
            if self.begun.extend_from_slice(piece).is_err() {
                return Err(WriteError::NoMemory);
            }
            self.line(scanner, sink, listener)?;
            rest = next;
        }
        if self.begun.extend_from_slice(rest).is_err() {
            return Err(WriteError::NoMemory);
        }
        Ok(())
    }

    /// Refuses a last line without its end, and then tells of it.
    fn end<W: Sink, L: Listener>(
        &mut self,
        sink: &mut W,
        listener: &mut L,
    ) -> Result<(), WriteError>
        ensures done { OnOk result (Appends (W.device sink.old).bytes (W.device sink.new).bytes (unended_text self.old.number self.old.begun.items)) }
        ensures begun { IfErr result (WritesPrefix (unended_text self.old.number self.old.begun.items) (W.device sink.old).bytes (W.device sink.new).bytes) }
        ensures told { OnOk result (HeardRefusal L.hears listener.old (unended_refusal self.old.number self.old.begun.items) listener.new) }
        ensures some { OnErr result (0 < length self.old.begun.items) }
        ensures untold { OnErr result (listener.new ≡ listener.old) }
        ensures no_failure { OnOk result (Works (W.device sink.old) (W.device sink.new)) }
        ensures blamed { IsErrOf result WriteError.Device → Fails (W.device sink.old) (W.device sink.new) }
        ensures not_blamed { IsErrOf result WriteError.NoMemory → Works (W.device sink.old) (W.device sink.new) }
    {
        if self.begun.is_empty() {
            return Ok(());
        }
        self.answer.clear();
        refused(self.number, &mut self.answer)?;
        write_text(sink, self.answer.as_bytes())?;
        listener.refused(&LineRefusal {
            line: self.number,
            reason: ScriptReason::NoNewline,
        });
        Ok(())
    }
}

/// Reads lines to the end of what a client sends, for a run that has answered none. Those whose ends have come are answered before
/// more bytes are read. The listener hears of a line outside the grammar after its answer was written, and before the next line is answered. At most `workers`
/// threads scan at a time. Neither their number nor the hook changes an answer.
pub fn run_live<R: Threads, C: Client, W: Sink, L: Listener, G: CrewGate>(
    rt: &R,
    alloc: Global,
    live: Live,
    client: &mut C,
    sink: &mut W,
    listener: &mut L,
    workers: usize,
    gate: &G,
) -> Result<(), ScriptFault>
    requires workers { (0 < workers) × (workers ≤ 64) }
    requires silent { IsSilent (C.talk client.old) live (W.device sink.old).bytes }
    ensures promise { live ≡ Waits → KeepsLivePromise (C.device client.old).bytes (C.device client.new).bytes (W.device sink.old).bytes (W.device sink.new).bytes result }
    ensures answered { OnOk result (AnswersAll live (λ refusals. L.hears listener.old refusals listener.new) (C.device client.old).bytes (C.device client.new).bytes (W.device sink.old).bytes (W.device sink.new).bytes) }
    ensures begun { IfErr result (AnswersFront live (λ refusals. L.hears listener.old refusals listener.new) (C.device client.old).bytes (C.device client.new).bytes (W.device sink.old).bytes (W.device sink.new).bytes) }
    ensures prompt { IsErrOf result ScriptFault.Read → AnswersWhole live (λ refusals. L.hears listener.old refusals listener.new) (C.device client.old).bytes (C.device client.new).bytes (W.device sink.old).bytes (W.device sink.new).bytes }

    // Memory is taken only for bytes that the client sent.
    ensures memory { IsErrOf result ScriptFault.NoMemory → GivesSome (C.device client.old) (C.device client.new) }
    ensures blames { Blames (C.device client.old) (C.device client.new) (W.device sink.old) (W.device sink.new) result }
{
    replies_are_promised();
    let mut scanner = CrewScan::new(rt, alloc, workers, gate);
    let mut feed = Feed::new(alloc, live);
    let mut chunk = [0u8; CHUNK];
    for _ in 0..u64::MAX {
        let Ok(count) = client.read(&mut chunk, sink) else {
            return Err(ScriptFault::Read);
        };
        if count == 0 {
            feed.end(sink, listener)?;
            return Ok(());
        }
        feed.bytes(&chunk[..count], &mut scanner, sink, listener)?;
    }
    Err(ScriptFault::NoMemory)
}
