// Reading estimates before they become bounds.
ghost use Rattle.std.specs.Prelude.{◌≡◌, ℕ, min, not, slice_index};
ghost use Rattle.std.specs.Result.{result_err};
ghost use Rattle.cost.specs.Prices.{figures};
ghost use Rattle.model.specs.Firsts.{when};
ghost use Rattle.model.specs.Meaning.{state_at};
ghost use Rattle.plan.specs.Bounds.{bounds_of};
ghost use Rattle.book.specs.Estimates.{estimate_bounds, estimate_fault, estimate_right};
ghost use Rattle.book.specs.declared.faults.EstimateFault.TheVariants.{Estimate};

use crate::faults::EstimateFault;
use crate::pages::STATES;
use cost::{Cost, Rule};
use model::Model;
use plan::Problem;
use std::array;

// The first thing that is wrong with estimates: their number, unless there are none, then each in
// ascending order.
pub fn faulty_estimates<M: Model, R: Rule>(
    problem: &Problem<'_, M, R>,
    estimates: &[u32],
) -> Option<EstimateFault>
    ensures { result ≡ estimate_fault (M.Model.meaning problem.now.model.now) R.Rule.value (figures problem.now.prices.now) estimates.now }
{
    check_estimates(problem, estimates).err()
}

// Refuses estimates for the first thing that is wrong with them: their number, unless there are
// none, then each in ascending order.
pub fn check_estimates<M: Model, R: Rule>(
    problem: &Problem<'_, M, R>,
    estimates: &[u32],
) -> Result<(), EstimateFault>
    ensures { result_err result ≡ estimate_fault (M.Model.meaning problem.now.model.now) R.Rule.value (figures problem.now.prices.now) estimates.now }
{
    if estimates.is_empty() {
        return Ok(());
    }
    let states = problem.model.states();
    if estimates.len() != states {
        return Err(EstimateFault::Length(estimates.len()));
    }
    let costs = as_costs(estimates);
    for state in 0..states {
        check_estimate(problem, &costs, estimates, state)?;
    }
    Ok(())
}

// Refuses the estimate of a state that breaks its rule, by the costs that the estimates give.
fn check_estimate<M: Model, R: Rule>(
    problem: &Problem<'_, M, R>,
    costs: &[Cost],
    estimates: &[u32],
    state: usize,
) -> Result<(), EstimateFault>
    requires { bounds_of costs.now ≡ estimate_bounds estimates.now }
    ensures { result_err result ≡ when (not (estimate_right (M.Model.meaning problem.now.model.now) R.Rule.value (figures problem.now.prices.now) estimates.now state (state_at (M.Model.meaning problem.now.model.now) state))) (Estimate state) }
{
    if is_right(problem, costs, estimates, state) {
        Ok(())
    } else {
        Err(EstimateFault::Estimate(state))
    }
}

// The bounds that estimates give.
fn as_costs(estimates: &[u32]) -> [Cost; STATES]
    ensures { bounds_of result ≡ estimate_bounds estimates.now }
{
    array::from_fn(|state| Cost::new(estimate(estimates, state)))
}

// The estimate of a state; past the last it is 0.
pub(crate) fn estimate(estimates: &[u32], state: usize) -> u32
    ensures { result ≡ slice_index estimates.now state }
{
    estimates.get(state).copied().unwrap_or(0)
}

// Whether the estimate of a state keeps its rule, by the costs that the estimates give.
fn is_right<M: Model, R: Rule>(
    problem: &Problem<'_, M, R>,
    costs: &[Cost],
    estimates: &[u32],
    state: usize,
) -> bool
    requires { bounds_of costs.now ≡ estimate_bounds estimates.now }
    ensures { result ≡ estimate_right (M.Model.meaning problem.now.model.now) R.Rule.value (figures problem.now.prices.now) estimates.now state (state_at (M.Model.meaning problem.now.model.now) state) }
{
    let estimate = estimate(estimates, state);
    if problem.model.is_end(state) {
        estimate == problem.model.end_cost(state)
    } else {
        estimate <= problem.least_action(costs, state).cost.get()
    }
}
