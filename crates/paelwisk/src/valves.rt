// The command `valves`: reads a valve set-up and answers about its states.
ghost use Rattle.std.specs.Prelude.{◌≡◌, string_bytes, MatchResult};
ghost use Rattle.model.specs.Reading.{Opens};
ghost use Rattle.valve.specs.Valves.{meaning_of};
ghost use Rattle.paelwisk.specs.Answers.{NotTold};
ghost use Rattle.paelwisk.specs.Asks.{AllLines};
ghost use Rattle.paelwisk.specs.SetUps.{Answered, NotAnswered};

use crate::failures::Failure;
use crate::words::Words;
use cost::Cost;
use model::Model;
use std::alloc::Global;
use valve::ValveModel;

mod answers;
mod asks;
mod lines;
mod set_up;
#[cfg(test)]
mod tests;

use asks::Ask;
use set_up::SetUp;

// The lines that answer an input.
pub fn run<'t>(heap: Global, text: &'t str) -> Result<String, Failure<'t>> {
    let words: Vec<&'t str> = text.split_whitespace().collect(heap)?;
    let set_up = set_up::read(heap, Words::new(&words))?;
    Ok(answer(heap, &set_up)?)
}

// The lines about the states that are asked about, and about what is asked after them.
fn answer(heap: Global, set_up: &SetUp) -> Result<String, Failure<'static>>
    ensures { MatchResult result (λ t. Answered set_up.now (string_bytes t)) (NotAnswered set_up.now) }
{
    let model = ValveModel::new(&set_up.repairs, &set_up.tests)?;
    about(heap, &model, &set_up.states, &set_up.asks)
}

// The lines about states of a model, and about what is asked after them.
fn about(
    heap: Global,
    model: &ValveModel,
    states: &[usize],
    asks: &[Ask],
) -> Result<String, Failure<'static>>
    requires { Opens (meaning_of model.now) }
    ensures { MatchResult result (λ t. AllLines (meaning_of model.now) states.now asks.now (string_bytes t)) (NotTold (meaning_of model.now) states.now) }
{
    let answers = answers::all(heap, model, states)?;
    let mut lines = lines::of_answers(heap, &answers)?;
    let mut costs = vec![in heap; Cost::new(0); model.states()]?;
    asks::write_all(&mut lines, model, states, asks, &mut costs)?;
    Ok(lines)
}
