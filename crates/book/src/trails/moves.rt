// Going down a trail and back.
ghost use Rattle.std.specs.Prelude.{◌≡◌, [], length, MatchResult};
ghost use Rattle.book.specs.Trails.{Entered, Left, last_of};

use super::Trail;
use arrayvec::{ArrayVec, CapacityError};

impl Trail {
    // The trail that is at its start.
    pub fn new(start: usize) -> Trail
        ensures start { result.start ≡ start }
        ensures states { result.states.items ≡ [] }
    {
        Trail {
            start,
            states: ArrayVec::new(),
        }
    }

    // The state that the search is at.
    pub fn last(&self) -> usize
        ensures { result ≡ last_of self.now }
    {
        self.states
            .last()
            .map_or(self.start, |state| usize::from(*state))
    }

    // Goes on to a state, if there is room for it.
    pub fn enter(&mut self, state: u16) -> Result<(), CapacityError<u16>>
        ensures { MatchResult result (λ _. Entered self.old state self.new) (λ _. length self.old.states.items ≡ 4095) }
    {
        self.states.try_push(state)
    }

    // Goes back by one state, and stays at the start.
    pub fn leave(&mut self)
        ensures { Left self.old self.new }
    {
        self.states.pop();
    }
}
