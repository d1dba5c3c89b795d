// What can be wrong with a model.
ghost use Rattle.std.specs.Prelude.{◌≡◌, Some};
ghost use Rattle.model.specs.Refusals.{model_refusal, model_words};

use crate::refusals::{Refusal, Values};
use std::error::Error;
use std::fmt;

// What can be wrong with a model that is read, each cause with its place.
#[derive(Clone, Copy, PartialEq, Eq, Debug)]
pub enum ModelFault {
    // no states, or more than 4,096; holds their number
    States(usize),
    // more than 16 actions, at a state
    Actions(usize),
    // an end cost over 1,000,000, at a state
    EndCost(usize),
    // a task over 63, at a state and an action
    Task(usize, usize),
    // no outcomes, or more than 16, at a state and an action
    Outcomes(usize, usize),
    // an outcome not below the number of states, or not above the one before it, at a state, an
    // action and a place in the list of outcomes
    Outcome(usize, usize, usize),
}

impl ModelFault {
    // The number of the refusal and the values that it returns.
    // No `From`: `fault.refusal()` reads alike for every fault, one of which has none.
    pub fn refusal(self) -> Refusal
        ensures { result ≡ model_refusal self }
    {
        match self {
            ModelFault::States(count) => Refusal::new(4, Values::One(count)),
            ModelFault::Actions(state) => Refusal::new(5, Values::One(state)),
            ModelFault::EndCost(state) => Refusal::new(6, Values::One(state)),
            ModelFault::Task(state, action) => Refusal::new(7, Values::Two(state, action)),
            ModelFault::Outcomes(state, action) => Refusal::new(8, Values::Two(state, action)),
            ModelFault::Outcome(state, action, place) => {
                Refusal::new(9, Values::Three(state, action, place))
            }
        }
    }

    // The cause in words, which say what each value of the refusal is.
    pub fn words(self) -> &'static str
        ensures { result.now ≡ model_words self }
    {
        match self {
            ModelFault::States(_) => "number of states not from 1 to 4096",
            ModelFault::Actions(_) => "state with more than 16 actions",
            ModelFault::EndCost(_) => "state with an end cost over 1000000",
            ModelFault::Task(_, _) => "state and action with a task over 63",
            ModelFault::Outcomes(_, _) =>
                "state and action with a number of outcomes not from 1 to 16",
            ModelFault::Outcome(_, _, _) => {
                "state, action and place of an outcome that is no state, or not above the one before it"
            }
        }
    }
}

// A fault prints its cause in words.
impl fmt::Display for ModelFault {
    ghost output = { λ f. Some (model_words f) };

    fn fmt<W: fmt::Write>(&self, f: &mut fmt::Formatter<W>) -> fmt::Result {
        f.write_str(self.words())
    }
}

impl Error for ModelFault {}
