use mh_classes::class::{Class, class_of};
use mh_model::place::Place;
use mh_pages::header::STAMP;
use mh_pages::pages::Pages;
use std::test::Fail;

/// Takes the least place of a class and writes the stamp of its block. Answers what stood there before.
fn take_stamped(pages: &mut Pages, class: Class, stamp: u64) -> Option<u64> {
    let place = pages.place(class)?;
    let _ = class.size();
    pages.take(class, place);
    let before = pages.word(place, STAMP);
    pages.set_word(place, STAMP, stamp);
    Some(before)
}

/// The stamp of the block at a place, as its header has it.
fn stamp(pages: &Pages, place: Place) -> Option<u64> {
    Some(pages.header(place)?.stamp)
}

/// What stood where the stamp of the only block is written, and the stamps of the first two places then.
fn stamps(pages: &mut Pages) -> Option<[Option<u64>; 3]> {
    let before = take_stamped(pages, class_of(10)?, 7);
    Some([before, stamp(pages, Place(0)), stamp(pages, Place(1))])
}

#[test]
fn words_are_written(rt: HostRuntime) -> Result<(), Fail> {
    let found = {
        let mut pages = Pages::open(rt.alloc(), 1)?;
        stamps(&mut pages)
    };
    assert_eq!(rt; found, Some([Some(0), Some(7), None]));
    Ok(())
}
