// What actions cost by given bounds.
ghost use Rattle.std.specs.Prelude.{◌≡◌, length};
ghost use Rattle.cost.specs.Prices.{figures};
ghost use Rattle.model.specs.Meaning.{actions, state_at};
ghost use Rattle.plan.specs.Bounds.{bounds_of, action_cost, least_cost, FirstLeast};
ghost use Rattle.plan.specs.Plans.{price_of};

use crate::problems::Problem;
use cost::{Cost, PriceList, Rule, Task};
use model::{Model, outcomes_of};

// The bound of a state; past the end of the list it is 0.
pub fn bound(bounds: &[Cost], state: usize) -> Cost
    ensures { result.value ≡ bounds_of bounds.now state }
{
    bounds.get(state).copied().unwrap_or(Cost::new(0))
}

// The price of a task as a cost; 0 where there is no such task.
fn price(prices: &PriceList, task: u8) -> Cost
    ensures { result.value ≡ price_of (figures prices.now) task }
{
    Task::new(task).map_or(Cost::new(0), |task| prices.price(task).into())
}

// The least action cost at a state, and the first free action that has it.
#[derive(Clone, Copy)]
pub struct Least {
    pub cost: Cost,
    pub action: Option<usize>,
}

impl<M: Model, R: Rule> Problem<'_, M, R> {
    // What an action costs by given bounds; the roof where it is barred or not there.
    pub fn action_cost(&self, bounds: &[Cost], state: usize, action: usize) -> Cost
        ensures { result.value ≡ action_cost (M.Model.meaning self.now.model.now) R.Rule.value (figures self.now.prices.now) (bounds_of bounds.now) state action }
    {
        if !self.model.is_free(state, action) {
            return Cost::new(Cost::ROOF);
        }
        let mut tally = self.rule.start();
        for outcome in outcomes_of(self.model, state, action) {
            self.rule.take(&mut tally, bound(bounds, outcome));
        }
        price(self.prices, self.model.task(state, action)).plus(self.rule.read(&tally))
    }

    // The least action cost at a state by given bounds, the roof where no action is free, and the
    // first free action that has it.
    pub fn least_action(&self, bounds: &[Cost], state: usize) -> Least
        ensures cost { result.cost.value ≡ least_cost (M.Model.meaning self.now.model.now) R.Rule.value (figures self.now.prices.now) (bounds_of bounds.now) state }
        ensures first { FirstLeast (M.Model.meaning self.now.model.now) R.Rule.value (figures self.now.prices.now) (bounds_of bounds.now) state (length (actions (state_at (M.Model.meaning self.now.model.now) state))) result.action }
    {
        let mut least = Least {
            cost: Cost::new(Cost::ROOF),
            action: None,
        };
        // The cost is kept beside the action: `min_by_key` gives the action alone, and its cost would
        // have to be worked out again.
        for action in 0..self.model.actions(state) {
            if self.model.is_free(state, action) {
                let cost = self.action_cost(bounds, state, action);
                // The first free action counts even at the roof, so it is not enough to compare costs.
                if least.action.is_none() || cost < least.cost {
                    least = Least {
                        cost,
                        action: Some(action),
                    };
                }
            }
        }
        least
    }
}
