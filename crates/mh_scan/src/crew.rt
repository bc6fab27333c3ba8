//! A crew of workers, who draw the pieces of a batch and ask the blocks of each.
//!
//! Whatever the number of workers, 1 to 64, the answers are those of one thread, or there is no memory. A crew starts a
//! thread for each worker and batch, from the calling thread, which is one of the workers. A thread that can't be
//! started is no fault: the calling thread does its part. A crew says which blocks need no marking, and marks none.
ghost use Rattle.std.specs.Prelude.{◌≡◌, ◌<◌, ◌≤◌, ℕ, true, All, IfOk, length, remove, slice_index_or, vec_len};
ghost use Rattle.mh_model.specs.History.{times_drawn};
ghost use Rattle.mh_claims.specs.Seats.{DrawsFrom, IsBeforeItsDraws, seat_ended};
ghost use Rattle.mh_scan.specs.{Scanning.AreScannable, Asking.AreAnswers};
ghost use Rattle.mh_scan.specs.Auxiliary.{piece_count, piece_at, IsFound, times_found, drawn_by, IsHired, HasWorked};

use crate::answers::{Answers, Asks, ask_each};
use crate::gate::Gate;
use crate::team::on_each;
use mh_blocks::blocks::Blocks;
use mh_claims::claims::{Claims, DrawSeat};
use mh_model::memory::NoMemory;
use mh_model::place::Place;
use std::alloc::Global;
use std::thread::Threads;

/// How many places a piece has. The last of a batch may have fewer.
const PIECE: usize = 16;

/// What was found in a piece.
#[derive(Drop)]
struct Found {
    piece: u64,
    answers: Answers,
}

/// A worker: its right to draw pieces, what it found in those that it drew, and whether memory was refused to it.
#[derive(Drop)]
struct Worker {
    seat: DrawSeat,
    done: Vec<Found>,
    refused: bool,
}

/// How many pieces a batch of a length has.
fn pieces_in(count: usize) -> usize
    ensures { result ≡ piece_count count }
{
    count.div_ceil(PIECE)
}

/// The places of a piece.
fn piece_of(batch: &[Place], number: u64) -> &[Place]
    requires { number < piece_count (length batch.now) }
    ensures { result.now ≡ piece_at batch.now number }
{
    let start = number as usize * PIECE;
    let end = start + PIECE.min(batch.len() - start);
    &batch[start..end]
}

/// As many workers as are asked for, but no more than there are pieces, nor more than one for each 16 pieces begun beside
/// the calling thread: a thread costs more than the scan of a few pieces.
fn crew_size(workers: usize, pieces: usize) -> usize
    requires { 0 < workers }
    ensures some { 0 < result }
    ensures most { result ≤ workers }
{
    workers.min(pieces).min(1 + pieces.div_ceil(16)).max(1)
}

/// All pieces in their order, on this thread.
fn scan_alone<G: Gate>(
    alloc: Global,
    gate: &G,
    asks: Asks,
    blocks: &Blocks,
    batch: &[Place],
) -> Result<Answers, NoMemory>
    requires { AreScannable blocks.now batch.now }
    ensures { IfOk result (λ answers. AreAnswers blocks.now asks batch.now answers) }
{
    let mut answers = Answers::with_room(alloc, asks, batch.len())?;
    for index in 0..batch.len() {
        if index % PIECE == 0 {
            gate.piece(0, (index / PIECE) as u64);
        }
        answers.ask(asks, blocks, batch[index])?;
    }
    Ok(answers)
}

/// A worker for each seat.
fn hire(alloc: Global, claims: &Claims, mut seats: Vec<DrawSeat>) -> Result<Vec<Worker>, NoMemory>
    requires { All (IsBeforeItsDraws claims.now) seats.items }
    ensures count { IfOk result (λ hired. vec_len hired ≡ vec_len seats) }
    ensures hired { IfOk result (λ hired. All (IsHired claims.now) hired.items) }
{
    let _ = claims;
    let mut workers = Vec::with_capacity(alloc, seats.len())?;
    while let Some(seat) = seats.pop() {
        workers.push(Worker {
            seat,
            done: Vec::new(alloc),
            refused: false,
        })?;
    }
    Ok(workers)
}

/// A worker draws pieces and scans each, until none is left or memory is refused.
fn work<G: Gate>(
    alloc: Global,
    claims: &Claims,
    gate: &G,
    asks: Asks,
    blocks: &Blocks,
    batch: &[Place],
    index: usize,
    worker: &mut Worker,
)
    requires hired { IsHired claims.now worker.old }
    requires pieces { claims.now.bound ≡ piece_count (length batch.now) }
    requires scannable { AreScannable blocks.now batch.now }
    ensures { HasWorked claims.now blocks.now asks batch.now worker.new }
{
    while let Some(piece) = claims.draw(&mut worker.seat) {
        gate.piece(index, piece);
        let Ok(answers) = ask_each(alloc, asks, blocks, piece_of(batch, piece)) else {
            worker.refused = true;
            return;
        };
        let Ok(()) = worker.done.push(Found { piece, answers }) else {
            worker.refused = true;
            return;
        };
    }
}

/// Each worker in a thread of its own, and the last on this one.
fn work_all<G: Gate + Sync, R: Threads>(
    rt: &R,
    alloc: Global,
    claims: &Claims,
    gate: &G,
    asks: Asks,
    blocks: &Blocks,
    batch: &[Place],
    workers: &mut [Worker],
)
    requires hired { All (IsHired claims.now) workers.old }
    requires pieces { claims.now.bound ≡ piece_count (length batch.now) }
    requires few { length workers.old ≤ 64 }
    requires scannable { AreScannable blocks.now batch.now }
    ensures { All (HasWorked claims.now blocks.now asks batch.now) workers.new }
{
    let one = |index: usize, worker: &mut Worker|
        requires { IsHired claims.now worker.now × (claims.now.bound ≡ piece_count (length batch.now)) × AreScannable blocks.now batch.now }
        ensures { HasWorked claims.entry.now blocks.entry.now asks batch.entry.now worker.exit.now }
    { work(alloc, claims, gate, asks, blocks, batch, index, worker) };
    on_each(rt, workers, &one);
}

/// The seats of all workers and all that they found, if memory was refused to none.
fn gather(
    alloc: Global,
    claims: &Claims,
    asks: Asks,
    blocks: &Blocks,
    batch: &[Place],
    mut workers: Vec<Worker>,
) -> Result<(Vec<DrawSeat>, Vec<Found>), NoMemory>
    requires { All (HasWorked claims.now blocks.now asks batch.now) workers.items }
    ensures count { IfOk result (λ gathered. vec_len gathered.0 ≡ vec_len workers) }
    ensures ended { IfOk result (λ gathered. All (λ seat. DrawsFrom claims.now seat × (seat_ended seat ≡ true)) gathered.0.items) }
    ensures found { IfOk result (λ gathered. All (IsFound blocks.now asks batch.now) gathered.1.items) }
    ensures times { IfOk result (λ gathered. (number : ℕ) → number < claims.now.bound → times_drawn number (drawn_by gathered.0.items) ≡ times_found number gathered.1.items) }
{
    let _ = claims;
    let _ = asks;
    let _ = blocks;
    let _ = batch;
    let mut seats = Vec::new(alloc);
    let mut found = Vec::new(alloc);
    while let Some(worker) = workers.pop() {
        let Worker {
            seat,
            mut done,
            refused,
        } = worker;
        if refused {
            return Err(NoMemory);
        }
        seats.push(seat)?;
        found.append(&mut done)?;
    }
    Ok((seats, found))
}

/// Takes what was found in a piece.
fn take_piece(found: &mut Vec<Found>, piece: u64) -> Found
    requires { 0 < times_found piece found.old.items }
    ensures { (index : ℕ) × (index < length found.old.items) × (result.piece ≡ piece) × (result ≡ slice_index_or found.old.items index result) × (found.new.items ≡ remove found.old.items index) }
{
    for index in 0..found.len() {
        if found[index].piece == piece {
            return found.remove(index);
        }
    }
    unreachable!()
}

/// What was found in all pieces, in their order.
fn merge(
    alloc: Global,
    asks: Asks,
    blocks: &Blocks,
    batch: &[Place],
    mut found: Vec<Found>,
) -> Result<Answers, NoMemory>
    requires found { All (IsFound blocks.now asks batch.now) found.items }
    requires whole { (number : ℕ) → number < piece_count (length batch.now) → 0 < times_found number found.items }
    ensures { IfOk result (λ merged. AreAnswers blocks.now asks batch.now merged) }
{
    let _ = blocks;
    let mut merged = Answers::with_room(alloc, asks, batch.len())?;
    for piece in 0..pieces_in(batch.len()) {
        let taken = take_piece(&mut found, piece as u64);
        merged.append(taken.answers)?;
    }
    Ok(merged)
}

/// Asks each block of a batch, by as many workers at most as may be had. One of them is the calling thread, which does all
/// if there is one piece or one worker. A hook's `scan_by_crew` is one call of this.
pub fn scan<G: Gate + Sync, R: Threads>(
    rt: &R,
    alloc: Global,
    workers: usize,
    gate: &G,
    asks: Asks,
    blocks: &Blocks,
    batch: &[Place],
) -> Result<Answers, NoMemory>
    requires workers { (0 < workers) × (workers ≤ 64) }
    requires scannable { AreScannable blocks.now batch.now }
    ensures { IfOk result (λ answers. AreAnswers blocks.now asks batch.now answers) }
{
    let pieces = pieces_in(batch.len());
    let size = crew_size(workers, pieces);
    if size == 1 {
        return scan_alone(alloc, gate, asks, blocks, batch);
    }
    let (claims, seats) = Claims::new(alloc, pieces as u64, size)?;
    let mut crew = hire(alloc, &claims, seats)?;
    work_all(
        rt,
        alloc,
        &claims,
        gate,
        asks,
        blocks,
        batch,
        crew.as_mut_slice(),
    );
    let (seats, found) = gather(alloc, &claims, asks, blocks, batch, crew)?;
    claims.finish(seats);
    merge(alloc, asks, blocks, batch, found)
}
