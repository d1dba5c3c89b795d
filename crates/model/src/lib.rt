// Models: what they mean, how they are asked, how they are read, and the layer Trim.
#![tactic(auto)]

// A refusal as it is shown: its number and the values that it returns.
pub mod refusals;
// What can be wrong with a model.
pub mod faults;
// The questions that every model answers.
pub mod questions;
// The outcomes of an action, one after another.
pub mod outcomes;
// The reading of a model that opening it and writing it share.
pub mod reading;
// The layer Trim, over any model.
pub mod layers;
// What is true of Trim over any model.
pub mod facts;

pub use faults::ModelFault;
pub use layers::Trim;
pub use outcomes::{Outcomes, outcomes_of};
pub use questions::Model;
pub use reading::{check, first_fault};
pub use refusals::{Refusal, Values};
