// The limits that a search is given.
ghost use Rattle.std.specs.Prelude.{◌≤◌};

mod entries;

pub use entries::{allowance_of, cap_of};

// A whole number from LEAST to MOST.
#[derive(Clone, Copy, PartialEq, Eq, Debug)]
pub struct Within<const LEAST: u32, const MOST: u32> {
    value: u32,
    ghost least: { LEAST ≤ value },
    ghost most: { value ≤ MOST },
}

// The largest cost that a search asks for: a whole number up to 1,000,000,000.
pub type Cap = Within<0, 1_000_000_000>;

// How many raises a search may use: a whole number from 1 to 1,000,000.
pub type Allowance = Within<1, 1_000_000>;
