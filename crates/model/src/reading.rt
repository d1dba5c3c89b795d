// The reading of a model that opening it and writing it share.
ghost use Rattle.std.specs.Prelude.{◌≡◌, ◌<◌, length};
ghost use Rattle.std.specs.Result.{result_err};
ghost use Rattle.model.specs.Reading.{first_fault, FirstFault, state_fault, action_fault, outcome_fault};

use crate::faults::ModelFault;
use crate::questions::Model;

// The first thing that is wrong with a model, as `check` tells it.
pub fn first_fault<M: Model>(model: &M) -> Option<ModelFault>
    ensures value { result ≡ first_fault (M.Model.meaning model.now) }
    ensures first { FirstFault (M.Model.meaning model.now) result }
{
    check(model).err()
}

// Refuses a model for the first thing that is wrong with it. It reads the number of states, then
// states, actions and outcomes in ascending order, and passes over barred actions.
pub fn check<M: Model>(model: &M) -> Result<(), ModelFault>
    ensures value { result_err result ≡ first_fault (M.Model.meaning model.now) }
    ensures first { FirstFault (M.Model.meaning model.now) (result_err result) }
{
    let states = model.states();
    if !(1..=4096).contains(&states) {
        return Err(ModelFault::States(states));
    }
    for state in 0..states {
        check_state(model, state)?;
    }
    Ok(())
}

// Refuses a state for the first thing that is wrong with it or one of its actions.
fn check_state<M: Model>(model: &M, state: usize) -> Result<(), ModelFault>
    ensures { result_err result ≡ state_fault (M.Model.meaning model.now) state }
{
    if 16 < model.actions(state) {
        return Err(ModelFault::Actions(state));
    }
    if 1_000_000 < model.end_cost(state) {
        return Err(ModelFault::EndCost(state));
    }
    for action in 0..model.actions(state) {
        check_action(model, state, action)?;
    }
    Ok(())
}

// Refuses an action for the first thing that is wrong with it or one of its outcomes.
fn check_action<M: Model>(model: &M, state: usize, action: usize) -> Result<(), ModelFault>
    ensures { result_err result ≡ action_fault (M.Model.meaning model.now) state action }
{
    if 63 < model.task(state, action) {
        return Err(ModelFault::Task(state, action));
    }
    let outcomes = model.outcomes(state, action);
    if model.is_free(state, action) && !(1..=16).contains(&outcomes) {
        return Err(ModelFault::Outcomes(state, action));
    }
    // By place, since the fault tells it and the outcome before it is looked at too: an iterator over
    // outcomes would have to carry both.
    for place in 0..outcomes {
        check_outcome(model, state, action, place)?;
    }
    Ok(())
}

// Refuses the outcome at a place of an action's list for what is wrong with it.
fn check_outcome<M: Model>(
    model: &M,
    state: usize,
    action: usize,
    place: usize,
) -> Result<(), ModelFault>
    ensures { result_err result ≡ outcome_fault (M.Model.meaning model.now) state action place }
{
    let outcome = model.outcome(state, action, place);
    if model.states() <= outcome {
        return Err(ModelFault::Outcome(state, action, place));
    }
    if 0 < place && outcome <= model.outcome(state, action, place - 1) {
        return Err(ModelFault::Outcome(state, action, place));
    }
    Ok(())
}
