// What is to be done at a state.
ghost use Rattle.std.specs.Prelude.{◌≡◌, true, false, MatchOption};
ghost use Rattle.std.specs.List.{ContainsAt as Has, AllByRecursion};
ghost use Rattle.cost.specs.Prices.{figures};
ghost use Rattle.model.specs.Meaning.{action_at, outcomes};
ghost use Rattle.book.specs.Looks.{Followed, Seen};
ghost use Rattle.book.specs.Pages.{page, planned_at};

use super::{Book, STATES};
use cost::{Cost, Rule};
use model::{Model, outcomes_of};
use plan::Problem;

// What is to be done at an unplanned state.
#[derive(Clone, Copy)]
pub enum Look {
    // its bound is below its least action cost, which it holds
    Raise(Cost),
    // the action costs exactly the bound, and all its outcomes are planned
    Mark(u8),
    // an action costs exactly the bound, and this outcome of it is not planned
    Enter(u16),
}

impl Book {
    // What is to be done at a state; nothing, which a sound book never calls for, is none.
    pub(crate) fn look<M: Model, R: Rule>(
        &self,
        problem: &Problem<'_, M, R>,
        state: usize,
    ) -> Option<Look>
        ensures { Seen (M.Model.meaning problem.now.model.now) R.Rule.value (figures problem.now.prices.now) (page self.now) state result }
    {
        if state >= STATES || self.is_planned(state) {
            return None;
        }
        let least = problem.least_action(&self.bounds, state);
        let bound = self.bound(state);
        if bound < least.cost {
            return Some(Look::Raise(least.cost));
        }
        if least.cost < bound {
            return None;
        }
        let action = least.action?;
        self.follow(problem.model, state, action)
    }

    // What is to be done at a state of which an action costs exactly the bound.
    fn follow<M: Model>(&self, model: &M, state: usize, action: usize) -> Option<Look>
        ensures { Followed (M.Model.meaning model.now) (page self.now) state action result }
    {
        // An action whose number cannot be kept is not followed, so that nothing is done on its way.
        let kept = u8::try_from(action).ok()?;
        match self.first_unplanned(model, state, action) {
            Some(outcome) => Some(Look::Enter(u16::try_from(outcome).ok()?)),
            None => Some(Look::Mark(kept)),
        }
    }

    // The first outcome of an action that is not planned.
    fn first_unplanned<M: Model>(&self, model: &M, state: usize, action: usize) -> Option<usize>
        ensures { MatchOption result (AllByRecursion (λ o. planned_at (page self.now) o ≡ true) (outcomes (action_at (M.Model.meaning model.now) state action))) (λ o. Has (outcomes (action_at (M.Model.meaning model.now) state action)) o × (planned_at (page self.now) o ≡ false)) }
    {
        outcomes_of(model, state, action).find(|outcome| !self.is_planned(*outcome))
    }
}
