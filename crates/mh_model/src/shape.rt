//! The counts of an object's fields, which a reply and the header of a block have.

/// How many references and numbers an object has.
#[derive(Clone, Copy, Debug, PartialEq, Eq)]
pub struct Shape {
    pub references: u32,
    pub numbers: u32,
}
