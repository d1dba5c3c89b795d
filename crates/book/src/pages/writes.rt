// Raising a bound and marking a state as planned.
ghost use Rattle.std.specs.Prelude.{◌≡◌};
ghost use Rattle.book.specs.Pages.{page, marked_page, raised_page};

use super::{Book, STATES};
use cost::Cost;

impl Book {
    // Sets the bound of a state; past the last entry nothing.
    pub(crate) fn raise(&mut self, state: usize, cost: Cost)
        ensures { page self.new ≡ raised_page (page self.old) state cost.value }
    {
        // After `get_mut` a proof knows the list's length and no entry, so the place is tested.
        if state < STATES {
            self.bounds[state] = cost;
        }
    }

    // Marks a state as planned with an action that is kept; past the last entry nothing.
    pub(crate) fn mark(&mut self, state: usize, action: u8)
        ensures { page self.new ≡ marked_page (page self.old) state action }
    {
        // As in `raise`: after `get_mut` a proof knows no entry.
        if state < STATES {
            self.planned[state] = true;
            self.kept[state] = action;
        }
    }
}
