//! Places of blocks. A place is a type of its own, which contracts see as its number. It has the model's page and slot.
ghost use Rattle.std.specs.Prelude.{◌≡◌};
ghost use Rattle.mh_model.specs.Pages.{page_number, slot_number};

use crate::limits::PLACES;
use std::marker::Model;
/// The place of a block: the number of its page times 64, and the number of its slot in the page.
#[derive(Clone, Copy, Debug, Default, PartialEq, Eq, Hash)]
pub struct Place(pub usize);

impl Model for Place {
    ghost use Rattle.std.specs.Prelude.{ℕ};

    ghost Value = { ℕ };

    ghost view = { λ place. place.0 };

    ghost inverse = { λ n. record { 0 = n } };
}

impl Place {
    /// The number of its page.
    pub fn page(self) -> usize
        ensures { result ≡ page_number self }
    {
        self.0 / PLACES
    }

    /// The number of its slot.
    pub fn slot(self) -> usize
        ensures { result ≡ slot_number self }
    {
        self.0 % PLACES
    }
}
