use crate::cases::{Case, NONE};
use crate::trial::{Outcome, SOUND_DEVICES};
use crate::trouble::{Way, trouble_each_write};
use mh_tell_show::controls::CONTROLS;
use mh_tell_show::drawing::DRAWING;
use mh_tell_show::page::HEAD;
use std::alloc::{AllocError, Global};
use std::io::ErrorKind;
use std::test::Fail;
use test_support::troubled::Trouble;

const SCRIPT: &[u8] = b"config 4 353 0 0\na new 0 1 0\na clear 0\n";

const NUMBERS: &[u8] =
    b"{\"names\":[\"a\",0],\"config\":[2,4,353,0,0],\"all\":2,\"before\":[0,0,0,0,0,-1,0],\"heap\":[0],\"grey\":[0],\"roots\":[0],\"events\":[
[\"s0 new 0 1 0\",\"ok\",1,1,[[15,0,0,0,5,1,0,1],0],[[0,0],0],0],
[\"s0 clear 0\",\"ok\",1,1,[0],[[0,-1],0],0],
0],\"curve\":[[1,1,-1],[2,2,-1],0]}
";

// The first quantum ends amid the sweep. It spent all its 353 units: 288 on the roots, 1 on the block, 64 on its page. So page 0 has a
// block that is marked in cycle 1, the next place is 64, and the cycle that is asked for after it waits.
const PART: &[u8] =
    b"config 4 353 0 0\na new 0 0 0\n* start\n* quantum\n* start\nb clear 3\na clear 0\n";

const PART_NUMBERS: &[u8] =
    b"{\"names\":[\"a\",\"b\",0],\"config\":[2,4,353,0,0],\"all\":6,\"before\":[4,1,353,1,3,64,1],\"heap\":[[0,4,0],[0,0,0,1,-1,0,0],0],\"grey\":[0],\"roots\":[[0,0],0],\"events\":[
[\"s1 clear 3\",\"ok\",1,1,[0],[0],0],
0],\"curve\":[[1,1,-1],0]}
";

/// The page with these numbers.
fn page(alloc: Global, numbers: &[u8]) -> Result<Vec<u8>, AllocError> {
    let mut page = Vec::new(alloc);
    for piece in [HEAD, numbers, DRAWING, CONTROLS] {
        page.extend_from_slice(piece)?;
    }
    Ok(page)
}

/// A page is written in several pieces, and each write of one may fail.
#[test]
fn page_of_a_run(rt: HostRuntime) -> Result<(), Fail> {
    let page = page(rt.alloc(), NUMBERS)?;
    let case = Case {
        words: &[b"metroheap", b"show"],
        input: SCRIPT,
        outputs: &[page.as_slice()],
        told: NONE,
        status: 0,
    };
    let trial = SOUND_DEVICES.run(&rt, rt.alloc(), &case);
    assert_eq!(rt; trial.outcome, Outcome::Right);
    let way = Way {
        most: 10_000,
        trouble: Trouble::Error(ErrorKind::BrokenPipe),
        outcome: Outcome::WriteFailed,
    };
    trouble_each_write(&rt, rt.alloc(), &case, &way);
    Ok(())
}

/// A page of some events begins with the heap before them.
#[test]
fn page_of_one_event(rt: HostRuntime) -> Result<(), Fail> {
    let page = page(rt.alloc(), PART_NUMBERS)?;
    let case = Case {
        words: &[b"metroheap", b"show", b"--from", b"5", b"--to", b"5"],
        input: PART,
        outputs: &[page.as_slice()],
        told: NONE,
        status: 0,
    };
    let trial = SOUND_DEVICES.run(&rt, rt.alloc(), &case);
    assert_eq!(rt; trial.outcome, Outcome::Right);
    Ok(())
}
