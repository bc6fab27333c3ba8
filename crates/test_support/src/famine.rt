//! Refused memory in the whole process.

use std::alloc::{AllocError, Global};

/// The greatest block that is asked for is of 2 to this power bytes. No process has as much room as 16 such blocks.
const GREATEST: u32 = 44;

/// Above this many bytes the C library divides what is free, so blocks of powers of 2 take it all.
const SMALL: u32 = 11;

/// The C library keeps small blocks that were freed apart, by sizes that differ by so many bytes.
const STEP: usize = 16;

/// How many blocks are held at most.
const MOST_BLOCKS: usize = 200_000;

/// Once a block of so many bytes was given back, the C library takes all smaller ones from the memory that it divides. Until
/// then it asks the system for some of them alone, and can't divide what it gives back.
const DIVIDED: usize = 1 << 24;

/// How many bytes are asked for together with those that are left, so that these are one piece.
const MARGIN: usize = 65_536;

/// How many bytes of the stack are used before all memory is taken. From then on it can't grow.
const STACK: usize = 1 << 20;

/// Uses the stack as deep as what is tried later may need it.
fn use_stack(alloc: Global) -> Result<(), AllocError> {
    let mut room = [0u8; STACK];
    for (index, byte) in room.iter_mut().enumerate() {
        *byte = (index % 251) as u8;
    }
    drop(Vec::from_slice(alloc, &room)?);
    Ok(())
}

/// All memory that the system would give this process. It is held until this is dropped, and never written to.
#[derive(Drop)]
pub struct Famine {
    alloc: Global,
    held: Vec<Vec<u8>>,
}

impl Famine {
    /// Takes all memory. From then on each request in this process is refused, and no thread can be started.
    pub fn begin(alloc: Global) -> Result<Famine, AllocError> {
        use_stack(alloc)?;
        drop(Vec::<u8>::with_capacity(alloc, DIVIDED)?);
        let mut famine = Famine {
            alloc,
            held: Vec::with_capacity(alloc, MOST_BLOCKS)?,
        };
        famine.take_all();
        Ok(famine)
    }

    /// Leaves one piece of so many bytes, and takes all else.
    pub fn leave(&mut self, bytes: usize) -> Result<(), AllocError> {
        let piece = self.give_back(bytes.saturating_add(MARGIN))?;
        self.take_all();
        drop(piece);
        if let Ok(margin) = Vec::with_capacity(self.alloc, MARGIN) {
            let _ = self.held.push(margin);
        }
        Ok(())
    }

    /// Gives blocks back until a piece of so many bytes can be had.
    fn give_back(&mut self, bytes: usize) -> Result<Vec<u8>, AllocError> {
        for _ in 0..MOST_BLOCKS {
            let piece = Vec::with_capacity(self.alloc, bytes);
            if piece.is_ok() || self.held.pop().is_none() {
                return piece;
            }
        }
        Err(AllocError)
    }

    fn take_all(&mut self) {
        for power in 0..=GREATEST - SMALL {
            self.take_blocks(1 << (GREATEST - power));
        }
        for count in 0..1 << SMALL >> 4 {
            self.take_blocks((1 << SMALL) - STEP * count);
        }
    }

    /// Takes blocks of this size until one is refused.
    fn take_blocks(&mut self, size: usize) {
        for _ in self.held.len()..MOST_BLOCKS {
            let Ok(block) = Vec::with_capacity(self.alloc, size) else {
                return;
            };
            let _ = self.held.push(block);
        }
    }
}
