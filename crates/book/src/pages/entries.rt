// Making a book and reading its entries.
ghost use Rattle.std.specs.Prelude.{◌≡◌};
ghost use Rattle.book.specs.Pages.{page, new_page, bound_at, planned_at, kept_plan};

use super::{Book, STATES};
use cost::Cost;

impl Book {
    // A book in which every bound is 0 and nothing is planned.
    pub fn new() -> Book
        ensures { page result ≡ new_page }
    {
        Book {
            bounds: [Cost::new(0); STATES],
            planned: [false; STATES],
            kept: [0; STATES],
        }
    }

    // The bound of a state; 0 past the last entry.
    pub fn bound(&self, state: usize) -> Cost
        ensures { result.value ≡ bound_at (page self.now) state }
    {
        self.bounds.get(state).copied().unwrap_or(Cost::new(0))
    }

    // Whether a state is planned.
    pub fn is_planned(&self, state: usize) -> bool
        ensures { result ≡ planned_at (page self.now) state }
    {
        self.planned.get(state).copied().unwrap_or(false)
    }

    // The action that is kept at a planned state.
    pub fn kept_action(&self, state: usize) -> Option<u8>
        ensures { result ≡ kept_plan (page self.now) state }
    {
        if self.is_planned(state) {
            self.kept.get(state).copied()
        } else {
            None
        }
    }
}
