//! Positions of fields, which contracts see as the model's.
use mh_model::place::Place;
use std::marker::Model;

/// Where a field lies: the place of a block, and the number of the field in it, its references first.
#[derive(Clone, Copy, Debug, PartialEq, Eq)]
pub struct Position {
    pub place: Place,
    pub index: usize,
}

impl Model for Position {
    ghost use Rattle.mh_model.specs.Table as book;

    ghost Value = { book.Position };

    ghost view = { λ position. record { place = position.place; index = position.index } };

    ghost inverse = { λ position. record { place = position.place; index = position.index } };
}
