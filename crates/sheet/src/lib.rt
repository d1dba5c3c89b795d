// The sheet: the byte format in which models and prices travel, field by field.
#![tactic(auto)]

// What can be wrong with a sheet.
pub mod faults;
// The fields of a sheet.
pub mod fields;
// Reading numbers out of the body of a field.
pub mod bodies;
// How far the reading of a sheet has come.
pub mod progress;
// What is true of all sheets.
pub mod facts;

pub use faults::{Cause, SheetFault};
pub use fields::{Field, Split, split_field};
pub use progress::Due;
