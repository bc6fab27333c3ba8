//! Work at each place of a slice, in threads that are all started by the caller.
ghost use Rattle.std.specs.{Prelude.{◌≡◌, ◌^◌, ◌<◌, length}, Thread.{IsSync, IsSend}};
ghost use Rattle.std.specs.Fork.{AcceptsAt, ChangesAt, AcceptsEach, ChangesEach};
ghost use Rattle.mh_scan.specs.Auxiliary.{AllFrom, ChangesFrom};

use std::thread::{Threads, join_mut};

/// Calls `f(k, &mut items[k])` at each place, the last on this thread. No thread shares the runtime, and what a thread
/// can't be started for is done on this one.
pub fn on_each<R: Threads, T: Send, F: Fn(usize, &mut T) + Sync>(rt: &R, items: &mut [T], f: &F)
    requires room { length items.old < 2 ^ 63 }
    requires accepts { AcceptsEach F.Fn f.now items.old }
    ensures { ChangesEach F.Fn f.now items.old items.new }
{
    on_each_from(rt, f, 0, items);
}

#[cycle(team)]
fn on_each_from<R: Threads, T: Send, F: Fn(usize, &mut T) + Sync>(
    rt: &R,
    f: &F,
    base: usize,
    items: &mut [T],
)
    requires { AllFrom (AcceptsAt F.Fn f.now) base items.old }
    ensures { ChangesFrom (ChangesAt F.Fn f.now) base items.old items.new }
{
    if items.len() < 2 {
        at_most_one(f, base, items);
        return;
    }
    let (first, rest) = items.split_at_mut(1);
    first_and_rest(rt, f, base, first, base + 1, rest);
}

#[cycle(team)]
fn first_and_rest<R: Threads, T: Send, F: Fn(usize, &mut T) + Sync>(
    rt: &R,
    f: &F,
    base: usize,
    first: &mut [T],
    up: usize,
    rest: &mut [T],
)
    requires one { length first.old ≡ 1 }
    requires first { AllFrom (AcceptsAt F.Fn f.now) base first.old }
    requires rest { AllFrom (AcceptsAt F.Fn f.now) up rest.old }
    ensures first { ChangesFrom (ChangesAt F.Fn f.now) base first.old first.new }
    ensures rest { ChangesFrom (ChangesAt F.Fn f.now) up rest.old rest.new }
{
    let mut there = ||
        requires { IsSync F.row × IsSend T.row × (length first.now ≡ 1) × AllFrom (AcceptsAt F.Fn f.now) base first.now }
        ensures { ChangesFrom (ChangesAt F.Fn f.entry.now) base first.entry.now first.exit.now }
    { at_most_one(f, base, first) };
    let mut here = ||
        requires { AllFrom (AcceptsAt F.Fn f.now) up rest.now }
        ensures { ChangesFrom (ChangesAt F.Fn f.entry.now) up rest.entry.now rest.exit.now }
    { on_each_from(rt, f, up, rest) };
    join_mut(rt, &mut there, &mut here);
}

fn at_most_one<T, F: Fn(usize, &mut T)>(f: &F, base: usize, items: &mut [T])
    requires few { length items.old < 2 }
    requires accepts { AllFrom (AcceptsAt F.Fn f.now) base items.old }
    ensures { ChangesFrom (ChangesAt F.Fn f.now) base items.old items.new }
{
    if items.len() == 1 {
        at_one(f, base, &mut items[0]);
    }
}

fn at_one<T, F: Fn(usize, &mut T)>(f: &F, place: usize, item: &mut T)
    requires { AcceptsAt F.Fn f.now place item.old }
    ensures { ChangesAt F.Fn f.now place item.old item.new }
{
    f(place, item);
}
