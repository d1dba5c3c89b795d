// Making limits from plain numbers, and reading them, by the names of std's NonZeroU32.
ghost use Rattle.std.specs.Prelude.{◌≡◌, ◌≤◌};
ghost use Rattle.std.specs.Option.{SomeIff, option_map};

use super::{Allowance, Cap, Within};

impl<const LEAST: u32, const MOST: u32> Within<LEAST, MOST> {
    // The limit of that number; none outside LEAST to MOST. An error of a `TryFrom` would tell no more
    // than `None`.
    pub fn new(value: u32) -> Option<Self>
        ensures { SomeIff (option_map (λ w. w.value) result) ((LEAST ≤ value) × (value ≤ MOST)) value }
    {
        if LEAST <= value && value <= MOST {
            Some(Within { value })
        } else {
            None
        }
    }

    pub fn get(self) -> u32
        ensures { result ≡ self.entry.value }
    {
        self.value
    }
}

// The cap of a number, as `Cap::new` makes it. Its contract has the limit as a number, so that the check
// holds what the name stands for.
pub fn cap_of(value: u32) -> Option<Cap>
    ensures { SomeIff (option_map (λ w. w.value) result) (value ≤ 1000000000) value }
{
    Cap::new(value)
}

// The allowance of a number, as `Allowance::new` makes it, with its limits as numbers.
pub fn allowance_of(value: u32) -> Option<Allowance>
    ensures { SomeIff (option_map (λ w. w.value) result) ((1 ≤ value) × (value ≤ 1000000)) value }
{
    Allowance::new(value)
}
