// The table model: a model that reads three tables.
#![tactic(auto)]

// The tables, and what they answer.
pub mod tables;

pub use tables::{ActionRow, Span, StateRow, TableModel};
