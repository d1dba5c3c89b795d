// The outcomes of an action, one after another.
ghost use Rattle.std.specs.Prelude.{◌≡◌, length};
ghost use Rattle.std.specs.Iterator.{YieldsFirst, item_count};
ghost use Rattle.model.specs.Meaning.{outcomes, action_at};
ghost use Rattle.model.specs.Outcomes.{outcomes_from};

use crate::questions::Model;
use std::ops::Range;

// The outcomes of an action of a model that were not taken yet, in the order of their list.
#[derive(Drop)]
pub struct Outcomes<'m, M: Model> {
    model: &'m M,
    state: usize,
    action: usize,
    places: Range<usize>,
    ghost whole: { places.end ≡ length (outcomes (action_at (M.Model.meaning model.now) state action)) },
}

// The outcomes of an action.
pub fn outcomes_of<M: Model>(model: &M, state: usize, action: usize) -> Outcomes<'_, M>
    ensures { outcomes_from (M.Model.meaning result.model.now) result.state result.action result.places.start ≡ outcomes (action_at (M.Model.meaning model.now) state action) }
{
    Outcomes {
        model,
        state,
        action,
        places: 0..model.outcomes(state, action),
    }
}

impl<M: Model> Iterator for Outcomes<'_, M> {
    type Item = usize;

    ghost next_gives = { YieldsFirst (λ o. outcomes_from (M.Model.meaning o.model.now) o.state o.action o.places.start) };

    ghost remaining = { item_count (λ o. outcomes_from (M.Model.meaning o.model.now) o.state o.action o.places.start) };

    fn next(&mut self) -> Option<usize> {
        let place = self.places.next()?;
        Some(self.model.outcome(self.state, self.action, place))
    }
}
