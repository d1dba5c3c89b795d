// The reader: a sheet read into tables and a price list.
#![tactic(auto)]

// How large a model is.
pub mod sizes;
// Taking the next field of a sheet.
mod steps;
// Checking a whole sheet before anything is written.
mod checking;
// Writing what one field says.
mod putting;
// Writing what all fields say.
mod filling;
// Reading a sheet into tables.
pub mod reading;

pub use reading::{measure, read};
pub use sizes::Size;
