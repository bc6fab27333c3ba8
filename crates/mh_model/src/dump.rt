//! Dumps: what the table of blocks holds, page by page.
//!
//! A dump is the list that it was made of. A history, a log and a caller share its items. Each has a handle to them,
//! and a count of handles can be full: so a copy may be answered with `NoMemory`, as `Dump::new` may. An item is kept
//! as it is, in 32 bytes, and not packed: what a dump in a history may have are numbers of 64 bits each.
ghost use Rattle.std.specs.Prelude.{◌≡◌, IfOk};

use crate::memory::NoMemory;
use std::alloc::Global;
use std::marker::Model;
use std::sync::Arc;

/// One item of a dump: a page in use, or a block or forwarder of the page before it.
#[derive(Clone, Copy, Debug, PartialEq, Eq)]
pub enum DumpItem {
    Page {
        page: u64,
        class_size: u64,
        is_flagged: bool,
    },
    Block {
        slot: u64,
        birth: u64,
        part: u64,
    },
    /// Where a block was that moved.
    Forwarder {
        slot: u64,
        to_page: u64,
        to_slot: u64,
    },
}

/// What the table of blocks holds: each page in use, followed by its blocks. A dump and its clones share the items.
#[derive(Clone, Debug, Drop)]
pub struct Dump {
    items: Arc<Vec<DumpItem>, Global>,
}

impl Model for Dump {
    ghost use Rattle.std.specs.{Prelude.List, Arc.arc_value};
    ghost use Rattle.mh_model.specs.declared.dump.DumpItem.{DumpItem};

    ghost Value = { List DumpItem };

    ghost view = { λ dump. (arc_value dump.items).items };
}

impl Dump {
    pub fn new(alloc: Global, items: Vec<DumpItem>) -> Result<Dump, NoMemory>
        ensures { IfOk result (λ dump. dump ≡ items.items) }
    {
        let items = Arc::new(alloc, items)?;
        Ok(Dump { items })
    }

    pub fn items(&self) -> &[DumpItem]
        ensures { result.now ≡ self.now }
    {
        self.items.as_slice()
    }
}
