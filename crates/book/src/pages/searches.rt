// The search for a best plan from a start.
ghost use Rattle.std.specs.Prelude.{◌≡◌, ◌<◌, ◌≤◌, true, false, ◌⊎◌, length, MatchBool};
ghost use Rattle.cost.specs.Prices.{figures};
ghost use Rattle.model.specs.Reading.{Opens};
ghost use Rattle.book.specs.Pages.{page, bound_at, planned_at, Sound};
ghost use Rattle.book.specs.Searches.{Searched, Told};

use super::Book;
use super::looks::Look;
use crate::answers::{Found, SearchFault};
use crate::limits::{Allowance, Cap};
use crate::trails::Trail;
use cost::Rule;
use model::Model;
use plan::Problem;

impl Book {
    // Searches for a best plan from a start: raises bounds and marks states until the start is
    // planned, its bound is above the cap, or the raises that are allowed are used up.
    pub fn search<M: Model, R: Rule>(
        &mut self,
        problem: &Problem<'_, M, R>,
        start: usize,
        cap: Cap,
        allowance: Allowance,
    ) -> Result<Found, SearchFault>
        ensures { Opens (M.Model.meaning problem.now.model.now) → start < length (M.Model.meaning problem.now.model.now) → Sound (M.Model.meaning problem.now.model.now) R.Rule.value (figures problem.now.prices.now) (page self.old) → Searched (M.Model.meaning problem.now.model.now) R.Rule.value (figures problem.now.prices.now) start cap.value allowance.value (page self.old) (page self.new) result }
    {
        let mut trail = Trail::new(start);
        let mut raises = 0;
        while self.is_unsettled(start, cap) {
            let state = trail.last();
            let look = self
                .look(problem, state)
                .ok_or(SearchFault::Stopped(raises))?;
            match look {
                Look::Raise(cost) => {
                    if raises == allowance.get() {
                        return Err(SearchFault::Stopped(raises));
                    }
                    self.raise(state, cost);
                    raises += 1;
                    trail.leave();
                }
                Look::Mark(action) => {
                    self.mark(state, action);
                    trail.leave();
                }
                Look::Enter(outcome) => {
                    trail
                        .enter(outcome)
                        .map_err(|_| SearchFault::Stopped(raises))?;
                }
            }
        }
        self.verdict(start, cap, raises)
    }

    // Whether a start is not planned and its bound is within the cap.
    fn is_unsettled(&self, start: usize, cap: Cap) -> bool
        ensures { MatchBool result ((planned_at (page self.now) start ≡ false) × (bound_at (page self.now) start ≤ cap.value)) ((planned_at (page self.now) start ≡ true) ⊎ (cap.value < bound_at (page self.now) start)) }
    {
        !self.is_planned(start) && self.bound(start).get() <= cap.get()
    }

    // The answer at a start that is planned or has a bound above the cap.
    fn verdict(&self, start: usize, cap: Cap, raises: u32) -> Result<Found, SearchFault>
        ensures { Told (page self.now) start cap.value raises result }
    {
        let cost = self.bound(start);
        if cap.get() < cost.get() {
            Err(SearchFault::Above(raises))
        } else {
            Ok(Found { cost, raises })
        }
    }
}
