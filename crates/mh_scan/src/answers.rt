//! What is asked of the blocks of a batch, and what is found of them. All scanners ask block by block with these
//! functions. `scan_block` finds where the references of one block lead, in order.
ghost use Rattle.std.specs.Prelude.{◌≡◌, ◌++◌, [], ◌∷◌, IfOk, map};
ghost use Rattle.mh_model.specs.{Pages.Leads, Table.{references_at, target_of}};
ghost use Rattle.mh_scan.specs.Scanning.{IsScannable, AreScannable, is_reached, is_settled, lists};
ghost use Rattle.mh_scan.specs.Asking.{lists_asked, settled_asked, AreAnswers};

use arrayvec::ArrayVec;
use mh_blocks::blocks::Blocks;
use mh_model::memory::NoMemory;
use mh_model::place::Place;
use std::alloc::Global;

/// What is asked of each block of a batch.
#[derive(Clone, Copy)]
pub enum Asks {
    /// Where its references lead.
    Lists,
    /// Whether it is settled in this cycle.
    Settled(u64),
}

/// What was found of blocks, in order. That for which isn't asked is empty.
#[derive(Drop)]
pub struct Answers {
    pub lists: Vec<ArrayVec<Option<Place>, 60>>,
    pub settled: Vec<bool>,
}

/// Where the references of a block lead, in order.
pub fn scan_block(blocks: &Blocks, place: Place) -> ArrayVec<Option<Place>, 60>
    requires { IsScannable blocks.now place }
    ensures { result.items ≡ map (target_of blocks.now) (references_at blocks.now place) }
{
    let address = blocks.address(place);
    let mut found = ArrayVec::new();
    for index in 0..blocks.reference_count_from(address) {
        found.push(match blocks.reference_from(address, index) {
            None => None,
            Some(target) => Some(blocks.resolve(target)),
        });
    }
    found
}

/// Whether a reference is null or leads straight to a block that is marked in a cycle.
fn is_reached(blocks: &Blocks, cycle: u64, reference: Option<Place>) -> bool
    requires { Leads blocks.now reference }
    ensures { result ≡ is_reached blocks.now cycle reference }
{
    match reference {
        None => true,
        Some(place) => !blocks.is_forwarder(place) && blocks.is_marked(place, cycle),
    }
}

/// Whether each reference of a block is so.
fn is_settled(blocks: &Blocks, cycle: u64, place: Place) -> bool
    requires { IsScannable blocks.now place }
    ensures { result ≡ is_settled blocks.now cycle place }
{
    let address = blocks.address(place);
    for index in 0..blocks.reference_count_from(address) {
        if !is_reached(blocks, cycle, blocks.reference_from(address, index)) {
            return false;
        }
    }
    true
}

impl Answers {
    /// None, with room for those of so many blocks.
    pub(crate) fn with_room(alloc: Global, asks: Asks, count: usize) -> Result<Answers, NoMemory>
        ensures lists { IfOk result (λ answers. answers.lists.items ≡ []) }
        ensures settled { IfOk result (λ answers. answers.settled.items ≡ []) }
    {
        Ok(match asks {
            Asks::Lists => Answers {
                lists: Vec::with_capacity(alloc, count)?,
                settled: Vec::new(alloc),
            },
            Asks::Settled(_) => Answers {
                lists: Vec::new(alloc),
                settled: Vec::with_capacity(alloc, count)?,
            },
        })
    }

    /// Asks a block, and has its answer last.
    pub(crate) fn ask(&mut self, asks: Asks, blocks: &Blocks, place: Place) -> Result<(), NoMemory>
        requires { IsScannable blocks.now place }
        ensures lists { IfOk result (λ done. lists self.new.lists.items ≡ lists self.old.lists.items ++ lists_asked blocks.now asks (place ∷ [])) }
        ensures settled { IfOk result (λ done. self.new.settled.items ≡ self.old.settled.items ++ settled_asked blocks.now asks (place ∷ [])) }
    {
        match asks {
            Asks::Lists => self.lists.push(scan_block(blocks, place))?,
            Asks::Settled(cycle) => self.settled.push(is_settled(blocks, cycle, place))?,
        }
        Ok(())
    }

    /// Takes the answers of blocks that follow.
    pub(crate) fn append(&mut self, mut more: Answers) -> Result<(), NoMemory>
        ensures lists { IfOk result (λ done. self.new.lists.items ≡ self.old.lists.items ++ more.lists.items) }
        ensures settled { IfOk result (λ done. self.new.settled.items ≡ self.old.settled.items ++ more.settled.items) }
    {
        self.lists.append(&mut more.lists)?;
        self.settled.append(&mut more.settled)?;
        Ok(())
    }
}

/// Asks each block, one after the other on this thread.
pub(crate) fn ask_each(
    alloc: Global,
    asks: Asks,
    blocks: &Blocks,
    batch: &[Place],
) -> Result<Answers, NoMemory>
    requires { AreScannable blocks.now batch.now }
    ensures { IfOk result (λ answers. AreAnswers blocks.now asks batch.now answers) }
{
    let mut answers = Answers::with_room(alloc, asks, batch.len())?;
    for place in batch {
        answers.ask(asks, blocks, *place)?;
    }
    Ok(answers)
}
