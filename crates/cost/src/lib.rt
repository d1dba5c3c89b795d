// Costs, prices, and the rules that count the costs of several outcomes as one.
#![tactic(auto)]

// A cost, from 0 to the roof, and capped addition.
pub mod amount;
// Tasks, their prices, and the list of all prices.
pub mod prices;
// What a counting rule is.
pub mod counting;
// The rule that counts the largest cost.
pub mod worst;
// The rule that adds the costs up.
pub mod total;

pub use amount::Cost;
pub use counting::Rule;
pub use prices::{Price, PriceList, Task};
pub use total::Sum;
pub use worst::Largest;
