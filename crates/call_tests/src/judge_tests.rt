//! Histories and records that are judged.

use mh_history::history::parse_history;
use mh_history::record::parse_record;
use mh_model::config::Config;
use mh_state::judge::{CheckFault, audit, check};
use std::alloc::Global;
use std::test::Fail;

/// A session makes an object, and another takes it from the board and asks for its shape.
const HISTORY: &[u8] =
    b"history 1\ns0 new 0 0 1 = ok\ns0 post 0 0 = ok\ns1 take 0 0 = ok\ns1 shape 0 = shape 0 1\n";

/// In its last entry the shape has a number too many.
const WRONG_HISTORY: &[u8] =
    b"history 1\ns0 new 0 0 1 = ok\ns0 post 0 0 = ok\ns1 take 0 0 = ok\ns1 shape 0 = shape 0 2\n";

fn checked(alloc: Global, text: &[u8]) -> Result<Result<(), CheckFault>, Fail> {
    let config = Config::first(4, 209, 0, 0).ok_or("no configuration")?;
    let history = parse_history(alloc, text)?;
    Ok(check(alloc, config, &history))
}

#[test]
fn checks_histories(rt: HostRuntime) -> Result<(), Fail> {
    assert!(rt; checked(rt.alloc(), HISTORY)?.is_ok());
    let wrong = checked(rt.alloc(), WRONG_HISTORY)?;
    assert!(rt; matches!(wrong, Err(CheckFault::FirstBad(4))));
    Ok(())
}

/// A quantum ends in the sweep of the second page.
const RECORD: &[u8] =
    b"history 2 rules 2 4 353 0 0\ns0 new 0 0 0 = ok units 1 0\n* start = ok units 0 0\n* quantum = spent 353 phase sweep units 0 353\n";

/// In its last entry the collector has a unit too few.
const WRONG_RECORD: &[u8] =
    b"history 2 rules 2 4 353 0 0\ns0 new 0 0 0 = ok units 1 0\n* start = ok units 0 0\n* quantum = spent 353 phase sweep units 0 352\n";

fn audited(alloc: Global, text: &[u8]) -> Result<Result<(), CheckFault>, Fail> {
    let record = parse_record(alloc, text)?;
    Ok(audit(alloc, record.config(), record.entries()))
}

#[test]
fn audits_records(rt: HostRuntime) -> Result<(), Fail> {
    assert!(rt; audited(rt.alloc(), RECORD)?.is_ok());
    let wrong = audited(rt.alloc(), WRONG_RECORD)?;
    assert!(rt; matches!(wrong, Err(CheckFault::FirstBad(3))));
    Ok(())
}
