//! The table that the desks share: its words, its slots, what a seat sees, and the rule.
//!
//! The words are those of `control_word::packed::layout`. Slot `b - 1` has the token of the cell in which the value of
//! the object in block `b` lies: it is at home but while a make fills the cell, while a visit works on the value, and
//! while the last owner's leave takes it out.
use crate::slot::Slot;
use atomic_table::{Shared, TableRule};
use control_word::model::view::View;
use control_word::{Block, Shape};

/// What a seat sees: the shape of its domain, what its desk knows, and the block whose slot it has. No value of it
/// is made.
pub struct SeatView<V> {
    pub shape: Shape,
    pub view: View<V>,
    pub hand: Option<Block>,
}

/// Between any two steps the words stand for one legal history, and each slot is where it belongs.
pub struct Ruling;

impl<V> TableRule<Slot<V>, SeatView<V>, Shape> for Ruling {
    ghost use Rattle.control_block.specs.Rule.{Ruled, opens_with};

    ghost holds = { Ruled };

    ghost first = { opens_with };
}

pub type Table<V> = Shared<Slot<V>, SeatView<V>, Shape, Ruling>;

pub type Seat<V> = atomic_table::Seat<Slot<V>, SeatView<V>>;
