// What a book holds.
use cost::Cost;

mod entries;
mod looks;
mod openings;
mod searches;
mod writes;

// How many states a book has entries for.
pub(crate) const STATES: usize = 4096;

// For each of 4,096 states a bound, whether it is planned, and the action that is kept if it is
// planned and open.
// Bounds are lent as one list, and an action stays where its mark is dropped: so three arrays.
#[derive(Drop)]
pub struct Book {
    bounds: [Cost; STATES],
    planned: [bool; STATES],
    kept: [u8; STATES],
}
