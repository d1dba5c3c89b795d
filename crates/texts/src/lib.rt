// The text in which a model, its prices and its best costs are told.
#![tactic(auto)]

// The lines of a model and of the prices.
pub mod showing;
// The lines of best costs.
pub mod costs;

// What is told of a sheet.
pub mod sheets;

pub use costs::best;
pub use sheets::{best_sheet, show_sheet};
pub use showing::show;
