// A cost: a whole number from 0 to the roof.
ghost use Rattle.std.specs.Prelude.{◌≤◌};
ghost use Rattle.cost.specs.Costs.{roof};

// A whole number from 0 to the roof, 1,000,000,001.
// The roof stands for every cost above 1,000,000,000 and for "no plan".
#[derive(Clone, Copy, PartialEq, Eq, PartialOrd, Ord, Debug)]
pub struct Cost {
    value: u32,
    ghost within: { value ≤ roof },
}

mod sums;
