use mh_model::dump::{Dump, DumpItem};
use mh_model::memory::NoMemory;
use mh_model::reply::Reply;
use std::alloc::Global;
use std::test::Fail;

const PAGE: DumpItem = DumpItem::Page {
    page: 1,
    class_size: 4,
    is_flagged: false,
};

/// A dump of one item.
fn dump(alloc: Global) -> Result<Reply, Fail> {
    let mut items = Vec::new(alloc);
    items.push(PAGE)?;
    Ok(Reply::Dump(Dump::new(alloc, items)?))
}

/// Whether a copy of a reply is a dump of this item alone.
fn is_copied(reply: &Reply, item: DumpItem) -> Result<bool, NoMemory> {
    Ok(match &reply.copy()? {
        Reply::Dump(copy) => copy.items() == [item].as_slice(),
        _ => false,
    })
}

#[test]
fn a_reply_is_copied(rt: HostRuntime) -> Result<(), Fail> {
    let is_copied = is_copied(&dump(rt.alloc())?, PAGE);
    assert!(rt; is_copied?);
    Ok(())
}
