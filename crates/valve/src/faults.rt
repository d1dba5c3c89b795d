// What can be wrong with a valve set-up.
ghost use Rattle.std.specs.Prelude.{◌≡◌, Some};
ghost use Rattle.valve.specs.Refusals.{valve_refusal, valve_words};

use model::{Refusal, Values};
use std::error::Error;
use std::fmt;

// What can be wrong with a valve set-up.
#[derive(Clone, Copy, PartialEq, Eq, Debug)]
pub enum ValveFault {
    // fewer than 2 candidates, or more than 12; holds their number
    Candidates(usize),
    // no tests, or more than 16; holds their number
    Tests(usize),
    // a task over 63, or a set with a candidate that is not there; holds the test
    Test(usize),
    // a repair cost over 1,000,000; holds the candidate
    Repair(usize),
}

impl ValveFault {
    // The number of the refusal and the value that it returns.
    // No `From`: `fault.refusal()` reads alike for every fault, one of which has none.
    pub fn refusal(self) -> Refusal
        ensures { result ≡ valve_refusal self }
    {
        match self {
            ValveFault::Candidates(count) => Refusal::new(27, Values::One(count)),
            ValveFault::Tests(count) => Refusal::new(27, Values::One(count)),
            ValveFault::Test(test) => Refusal::new(27, Values::One(test)),
            ValveFault::Repair(candidate) => Refusal::new(27, Values::One(candidate)),
        }
    }

    // The cause in words, which say what each value of the refusal is.
    pub fn words(self) -> &'static str
        ensures { result.now ≡ valve_words self }
    {
        match self {
            ValveFault::Candidates(_) => "number of candidates not from 2 to 12",
            ValveFault::Tests(_) => "number of tests not from 1 to 16",
            ValveFault::Test(_) =>
                "test with a task over 63, or with a candidate in its set that is not there",
            ValveFault::Repair(_) => "candidate with a repair cost over 1000000",
        }
    }
}

// A fault prints its cause in words.
impl fmt::Display for ValveFault {
    ghost output = { λ f. Some (valve_words f) };

    fn fmt<W: fmt::Write>(&self, f: &mut fmt::Formatter<W>) -> fmt::Result {
        f.write_str(self.words())
    }
}

impl Error for ValveFault {}
