// Plans and best costs: what actions cost by given bounds, and the facts behind the planner.
#![tactic(auto)]

// What plans are costed by.
pub mod problems;
// What actions cost by given bounds, and the least action cost.
pub mod actions;
// Why best costs are not told.
pub mod faults;
// Best costs of every state, by rounds.
pub mod rounds;
// What is true of plans, best costs and bounds.
pub mod facts;

pub use actions::{Least, bound};
pub use faults::BestFault;
pub use problems::Problem;
