// Writing a table model and its prices as a sheet.
#![tactic(auto)]

// Why no sheet is written.
pub mod faults;
// Writing bytes one after the other.
mod places;
// Writing the fields of prices, states and actions.
mod fields;
// Writing a whole sheet.
pub mod writing;

pub use faults::WriteFault;
pub use writing::write;
