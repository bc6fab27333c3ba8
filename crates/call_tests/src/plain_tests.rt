//! The heap that never collects.

use mh_heap::heap::Heap;
use mh_heap::plain::PlainHeap;
use mh_model::config::Config;
use mh_model::cycle::Spent;
use mh_scan::scan::OneScan;
use std::alloc::Global;
use std::test::Fail;

/// What a quantum of one thread spends, and the number of the cycle and the limit then.
fn quantum_of(alloc: Global, heap: &mut PlainHeap) -> (Spent, u64, u64) {
    let spent = heap.quantum(&mut OneScan::new(alloc));
    (spent, heap.cycle_number(), heap.limit())
}

#[test]
fn never_collects(rt: HostRuntime) -> Result<(), Fail> {
    let config = Config::new(4, 209, 0, 0).ok_or("no configuration")?;
    let found = quantum_of(rt.alloc(), &mut PlainHeap::open(rt.alloc(), config));
    assert_eq!(rt; found, (Spent(0), 0, 0));
    Ok(())
}
