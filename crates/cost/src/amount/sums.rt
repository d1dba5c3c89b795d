// Making costs, reading them, adding them up and printing them.
ghost use Rattle.std.specs.Prelude.{◌≡◌, ◌+◌, ◌<◌, ◌≤◌, min, Some};
ghost use Rattle.cost.specs.Costs.{roof, capped, cost_text};

use super::Cost;
use std::fmt;

impl Cost {
    // The largest cost as a plain number.
    pub const ROOF: u32 = 1_000_000_001;

    // The cost of a plain number; what is above the roof counts as the roof, which a `From` would not say.
    pub fn new(number: u32) -> Cost
        ensures { result.value ≡ min roof number }
    {
        Cost {
            value: number.min(Self::ROOF),
        }
    }

    // The cost as a plain number.
    pub fn get(self) -> u32
        ensures { result ≡ self.value }
    {
        self.value
    }

    // The sum, or the roof where the sum would pass it.
    pub fn plus(self, other: Cost) -> Cost
        ensures sum { result.value ≡ capped self.value other.value }
        ensures first_at_roof { self.value ≡ roof → result.value ≡ roof }
        ensures second_at_roof { other.value ≡ roof → result.value ≡ roof }
        ensures past_roof { roof < self.value + other.value → result.value ≡ roof }
        ensures below_roof { self.value + other.value ≤ roof → result.value ≡ self.value + other.value }
    {
        // A rule of this project: the four cases in their order, to be ticked off beside the rule.
        if self.get() == Self::ROOF {
            self
        } else if other.get() == Self::ROOF {
            other
        } else if Self::ROOF < self.get() + other.get() {
            Cost { value: Self::ROOF }
        } else {
            Cost {
                value: self.get() + other.get(),
            }
        }
    }
}

impl fmt::Display for Cost {
    ghost output = { λ c. Some (cost_text c.value) };

    fn fmt<W: fmt::Write>(&self, f: &mut fmt::Formatter<W>) -> fmt::Result {
        if self.value == Self::ROOF {
            write!(f, "roof")
        } else {
            let number = self.value;
            write!(f, "{number}")
        }
    }
}
