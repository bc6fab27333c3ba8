use std::alloc::{AllocError, Global};
use std::test::Fail;
use std::thread;
use std::thread::Threads;
use test_support::famine::Famine;

const MEGABYTE: usize = 1 << 20;

/// The C library takes 16 bytes more for a block of this size.
const BLOCK: usize = 112;

const WHOLE_BLOCK: usize = 128;

/// More blocks than are left in the tests.
const MOST_BLOCKS: usize = 2_000;

/// Whether so many bytes can be had.
fn can_have(alloc: Global, bytes: usize) -> bool {
    Vec::<u8>::with_capacity(alloc, bytes).is_ok()
}

/// How many small blocks can be had at once.
fn block_count(alloc: Global, held: &mut Vec<Vec<u8>>) -> usize {
    for count in 0..MOST_BLOCKS {
        let Ok(block) = Vec::with_capacity(alloc, BLOCK) else {
            return count;
        };
        let _ = held.push(block);
    }
    MOST_BLOCKS
}

/// Whether so many bytes and no others can be had in one piece, and in small blocks, if there is room to hold these.
fn leaves(
    alloc: Global,
    famine: &mut Famine,
    held: &mut Vec<Vec<u8>>,
    bytes: usize,
) -> Result<bool, AllocError> {
    famine.leave(bytes)?;
    let is_one_piece = can_have(alloc, bytes.saturating_sub(64))
        && !can_have(alloc, bytes.saturating_add(64));
    famine.leave(bytes)?;
    let count = block_count(alloc, held);
    held.clear();
    Ok(is_one_piece && count == bytes / WHOLE_BLOCK)
}

#[test]
fn a_famine_leaves_what_it_is_asked_for_and_no_more(rt: HostRuntime) -> Result<(), Fail> {
    let alloc = rt.alloc();
    let mut held = Vec::with_capacity(alloc, MOST_BLOCKS)?;
    let mut famine = Famine::begin(alloc)?;
    let mut is_right = true;
    for bytes in [
        64, 1_024, 16_384, 60_000, 65_536, 70_000, 100_000, 200_000, 128,
    ] {
        is_right = is_right && leaves(alloc, &mut famine, &mut held, bytes)?;
    }
    drop(famine);
    assert!(rt; is_right);
    Ok(())
}

#[test]
fn a_famine_refuses_all_until_it_ends(rt: HostRuntime) -> Result<(), Fail> {
    let alloc = rt.alloc();
    let mut famine = Famine::begin(alloc)?;
    let is_refused = !can_have(alloc, MEGABYTE) && !can_have(alloc, 1);
    famine.leave(2 * MEGABYTE)?;
    let has_most = can_have(alloc, MEGABYTE);
    drop(famine);
    assert!(rt; is_refused && has_most);
    assert!(rt; can_have(alloc, MEGABYTE));
    Ok(())
}

/// Whether a thread can be started.
fn starts<R: Threads>(rt: &R) -> bool {
    match thread::spawn(rt, || 5) {
        Ok(child) => child.join(rt) == 5,
        Err(_) => false,
    }
}

#[test]
fn no_thread_starts_in_a_famine(rt: HostRuntime) -> Result<(), Fail> {
    let mut famine = Famine::begin(rt.alloc())?;
    let mut starts_with_little = starts(&rt);
    for megabytes in 0..8 {
        famine.leave(megabytes * MEGABYTE)?;
        starts_with_little = starts_with_little || starts(&rt);
    }
    drop(famine);
    assert!(rt; !starts_with_little);
    assert!(rt; starts(&rt));
    Ok(())
}
