// The valve model: one of several candidates is at fault, and tests find out which.
#![tactic(auto)]

// What can be wrong with a set-up.
pub mod faults;
// Sets of candidates, tests, and what the model answers.
pub mod valves;
// What is true of the parts into which a test splits a set.
pub mod facts;

pub use faults::ValveFault;
pub use valves::{Split, Test, ValveModel};
