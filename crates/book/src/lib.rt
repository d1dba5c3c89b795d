// The book: the bounds, marks and kept actions of a planner, and how they change.
#![tactic(auto)]

// What can be wrong with estimates.
pub mod faults;
// What a search answers.
pub mod answers;
// The limits that a search is given.
pub mod limits;
// Reading estimates before they become bounds.
pub mod estimates;
// What a book holds.
pub mod pages;
// The way of a search from its start to the state that it is at.
mod trails;

pub use answers::{Found, SearchFault};
pub use estimates::{check_estimates, faulty_estimates};
pub use faults::EstimateFault;
pub use limits::{Allowance, Cap, Within, allowance_of, cap_of};
pub use pages::Book;
