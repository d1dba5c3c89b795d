// Best costs of every state, by rounds that lower them to the least action costs.
ghost use Rattle.std.specs.Prelude.{◌≡◌, ℕ, ◌<◌, ◌≤◌, min, length, drop, MatchBool, MatchResult};
ghost use Rattle.std.specs.Result.{result_err};
ghost use Rattle.cost.specs.Costs.{roof};
ghost use Rattle.cost.specs.Prices.{figures};
ghost use Rattle.model.specs.Meaning.{State, state_at};
ghost use Rattle.model.specs.Reading.{Opens};
ghost use Rattle.plan.specs.Bests.{Best};
ghost use Rattle.plan.specs.Bounds.{bounds_of};
ghost use Rattle.plan.specs.Rounds.{best_fault};
ghost use Rattle.plan.specs.Sweeps.{Above, Settled, highest, total};

use crate::faults::BestFault;
use crate::problems::Problem;
use cost::{Cost, Rule};
use model::{Model, check};

impl<M: Model, R: Rule> Problem<'_, M, R> {
    // Writes the best cost of every state to a list, and leaves the rest of the list.
    pub fn best_costs(&self, costs: &mut [Cost]) -> Result<(), BestFault>
        ensures fault { result_err result ≡ best_fault (M.Model.meaning self.now.model.now) (length costs.old) }
        ensures best { MatchResult result (λ _. (s : ℕ) → s < length (M.Model.meaning self.now.model.now) → Best (M.Model.meaning self.now.model.now) R.Rule.value (figures self.now.prices.now) s (bounds_of costs.new s)) (λ _. costs.new ≡ costs.old) }
        ensures rest { drop (length (M.Model.meaning self.now.model.now)) costs.new ≡ drop (length (M.Model.meaning self.now.model.now)) costs.old }
    {
        check(self.model)?;
        let states = self.model.states();
        if costs.len() < states {
            return Err(BestFault::Short);
        }
        let known = &mut costs[..states];
        set_highest(self.model, known);
        while self.lower_all(known) {}
        Ok(())
    }

    // One round over the costs of all states: lowers each to its least action cost, and tells whether
    // any was lowered.
    fn lower_all(&self, costs: &mut [Cost]) -> bool
        requires opens { Opens (M.Model.meaning self.now.model.now) }
        requires all { length costs.old ≡ length (M.Model.meaning self.now.model.now) }
        requires above { Above (M.Model.meaning self.now.model.now) R.Rule.value (figures self.now.prices.now) (bounds_of costs.old) }
        ensures above { Above (M.Model.meaning self.now.model.now) R.Rule.value (figures self.now.prices.now) (bounds_of costs.new) }
        ensures moved { MatchBool result (total (bounds_of costs.new) (length (M.Model.meaning self.now.model.now)) < total (bounds_of costs.old) (length (M.Model.meaning self.now.model.now))) (Settled (M.Model.meaning self.now.model.now) R.Rule.value (figures self.now.prices.now) (bounds_of costs.new) (length (M.Model.meaning self.now.model.now))) }
    {
        let mut lowered = false;
        // A round reads the list of costs while it lowers them, so it goes by the state's number.
        for state in 0..costs.len() {
            let least = self.least_action(costs, state).cost;
            if least < costs[state] {
                costs[state] = least;
                lowered = true;
            }
        }
        lowered
    }
}

// Sets a cost for each state: the end cost at ends and the roof at open states.
fn set_highest<M: Model>(model: &M, costs: &mut [Cost])
    requires opens { Opens (M.Model.meaning model.now) }
    requires all { length costs.old ≡ length (M.Model.meaning model.now) }
    ensures { (s : ℕ) → s < length (M.Model.meaning model.now) → bounds_of costs.new s ≡ highest (state_at (M.Model.meaning model.now) s) }
{
    for (state, cost) in costs.iter_mut().enumerate() {
        *cost = highest_cost(model, state);
    }
}

// The end cost of an end, and the roof for an open state.
fn highest_cost<M: Model>(model: &M, state: usize) -> Cost
    ensures { result.value ≡ min roof (highest (state_at (M.Model.meaning model.now) state)) }
{
    if model.is_end(state) {
        Cost::new(model.end_cost(state))
    } else {
        Cost::new(Cost::ROOF)
    }
}
