// Examples that the libraries must get right: a table that is proved as a whole, and tests by subject.
#![tactic(auto)]

// Best costs of worked examples.
#[cfg(test)]
mod bests;
// A count over all plans of small models, compared with best costs.
#[cfg(test)]
mod brute;
// Capped addition and the counting rules.
#[cfg(test)]
mod costs;
// Small random models, compared with the count over all plans.
#[cfg(test)]
mod drawn;
// The table of worked examples, proved as a whole.
pub mod examples;
// Tasks, prices and the price list.
#[cfg(test)]
mod prices;
// The faults of a model.
#[cfg(test)]
mod readings;
// Rows of tables that the tests share.
#[cfg(test)]
mod rows;
// Searches over books.
#[cfg(test)]
mod searches;
// A large model.
#[cfg(test)]
mod speed;
// The table model and Trim.
#[cfg(test)]
mod tables;
// The valve model.
#[cfg(test)]
mod valves;
