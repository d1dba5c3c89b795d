// The way of a search from its start to the state that it is at.
use arrayvec::ArrayVec;

mod moves;

// The start of a search, and the states from there to the one that it is at: at most 4,096 in all.
#[derive(Drop)]
pub struct Trail {
    start: usize,
    states: ArrayVec<u16, 4095>,
}
