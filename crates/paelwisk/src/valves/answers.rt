// What is answered about a state of a valve model.
ghost use Rattle.std.specs.Prelude.{◌≡◌, map, IfOk, MatchResult};
ghost use Rattle.model.specs.Meaning.{actions, state_at};
ghost use Rattle.valve.specs.Valves.{meaning_of};
ghost use Rattle.paelwisk.specs.Answers.{action_of, Tells, Untold, Told, NotTold};

use crate::failures::{Failure, NoState};
use model::Model;
use std::alloc::{AllocError, Global};
use valve::{Split, ValveModel};

// A state that is an end has a cost; any other has, for each test, what it does there, and nothing
// where it is barred.
#[derive(Drop)]
pub enum Finding {
    End(u32),
    Open(Vec<Option<Split>>),
}

// The answer about a state.
#[derive(Drop)]
pub struct Answer {
    pub state: usize,
    pub finding: Finding,
}

// The answers about states, in their order.
pub fn all(
    heap: Global,
    model: &ValveModel,
    states: &[usize],
) -> Result<Vec<Answer>, Failure<'static>>
    ensures { MatchResult result (λ v. Told (meaning_of model.now) states.now v.items) (NotTold (meaning_of model.now) states.now) }
{
    let mut answers = Vec::new(heap);
    for state in states {
        answers.push(about(heap, model, *state)?)?;
    }
    Ok(answers)
}

// The answer about a state, which has to be there.
fn about(heap: Global, model: &ValveModel, state: usize) -> Result<Answer, Failure<'static>>
    ensures { MatchResult result (Tells (meaning_of model.now) state) (Untold (meaning_of model.now) state) }
{
    let states = model.states();
    if states <= state {
        return Err(Failure::State(NoState { state, states }));
    }
    let finding = if model.is_end(state) {
        Finding::End(model.end_cost(state))
    } else {
        Finding::Open(splits(heap, model, state)?)
    };
    Ok(Answer { state, finding })
}

// What each test does in a state.
fn splits(heap: Global, model: &ValveModel, state: usize) -> Result<Vec<Option<Split>>, AllocError>
    ensures { IfOk result (λ v. map action_of v.items ≡ actions (state_at (meaning_of model.now) state)) }
{
    (0..model.actions(state))
        .map(|test| model.split(state, test))
        .collect(heap)
}
