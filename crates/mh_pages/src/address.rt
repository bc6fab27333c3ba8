//! Addresses of blocks. Calls that read or write several words of one block take one, so the class of the page is
//! looked up once. Each such call requires that the address is still right.
use mh_model::place::Place;
use std::marker::Model;

/// Where a block stands: its place, and the number of its first word among the words of all pages.
/// It holds as long as the class of the block's page does.
#[derive(Clone, Copy, Debug, PartialEq, Eq)]
pub struct Address {
    pub place: Place,
    pub word: usize,
}

// A struct with a field that has a model is passed by value more than once only if it has one too.
impl Model for Address {
    ghost use Rattle.mh_pages.specs.Addresses.{Address};

    ghost Value = { Address };

    ghost view = { λ address. record { place = address.place; word = address.word } };

    ghost inverse = { λ address. record { place = address.place; word = address.word } };
}
