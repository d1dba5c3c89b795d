// What a search answers.
ghost use Rattle.std.specs.Prelude.{◌≡◌, Some};
ghost use Rattle.book.specs.Refusals.{search_refusal, search_words};

use cost::Cost;
use model::{Refusal, Values};
use std::error::Error;
use std::fmt;

// A search that found a plan: the start is planned.
#[derive(Clone, Copy, PartialEq, Eq, Debug)]
pub struct Found {
    // what the plan costs
    pub cost: Cost,
    // how many raises were used
    pub raises: u32,
}

// Why a search found no plan, each cause with the number of raises that were used.
#[derive(Clone, Copy, PartialEq, Eq, Debug)]
pub enum SearchFault {
    // the bound of the start is above the cap
    Above(u32),
    // all raises that are allowed were used, and a further one is called for
    Stopped(u32),
}

impl SearchFault {
    // The number of the refusal and the value that it returns.
    // A method, as that of each fault: one of them, want of memory, has none.
    pub fn refusal(self) -> Refusal
        ensures { result ≡ search_refusal self }
    {
        match self {
            SearchFault::Above(raises) => Refusal::new(15, Values::One(raises as usize)),
            SearchFault::Stopped(raises) => Refusal::new(16, Values::One(raises as usize)),
        }
    }

    // The cause in words, which say what the value of the refusal is.
    pub fn words(self) -> &'static str
        ensures { result.now ≡ search_words self }
    {
        match self {
            SearchFault::Above(_) => {
                "number of raises after which the bound of the start is above the cap"
            }
            SearchFault::Stopped(_) => "number of raises, which are all that are allowed",
        }
    }
}

// A fault prints its cause in words.
impl fmt::Display for SearchFault {
    ghost output = { λ f. Some (search_words f) };

    fn fmt<W: fmt::Write>(&self, f: &mut fmt::Formatter<W>) -> fmt::Result {
        f.write_str(self.words())
    }
}

impl Error for SearchFault {}
