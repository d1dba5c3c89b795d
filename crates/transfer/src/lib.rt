// Sheets and models carried over: a sheet read into tables of its own, a sheet read and written
// again, and a model written and read again.
#![tactic(auto)]

// Why nothing is carried over.
pub mod faults;
// A sheet that was read into tables of its own.
pub mod loading;
// A sheet read and written again, and a model written and read again.
pub mod copying;

pub use copying::{copy_model, copy_sheet};
pub use faults::TransferFault;
pub use loading::{Loaded, load};
