// What can be wrong with estimates.
ghost use Rattle.std.specs.Prelude.{◌≡◌, Some};
ghost use Rattle.book.specs.Refusals.{estimate_refusal, estimate_words};

use model::{Refusal, Values};
use std::error::Error;
use std::fmt;

// What can be wrong with the estimates that a book is opened with.
#[derive(Clone, Copy, PartialEq, Eq, Debug)]
pub enum EstimateFault {
    // there are some, and not as many as states; holds their number
    Length(usize),
    // an estimate breaks its rule, at a state
    Estimate(usize),
}

impl EstimateFault {
    // The number of the refusal and the value that it returns.
    // A method, as that of each fault: one of them, want of memory, has none.
    pub fn refusal(self) -> Refusal
        ensures { result ≡ estimate_refusal self }
    {
        match self {
            EstimateFault::Length(count) => Refusal::new(10, Values::One(count)),
            EstimateFault::Estimate(state) => Refusal::new(11, Values::One(state)),
        }
    }

    // The cause in words, which say what the value of the refusal is.
    pub fn words(self) -> &'static str
        ensures { result.now ≡ estimate_words self }
    {
        match self {
            EstimateFault::Length(_) => "number of estimates, which is not that of the states",
            EstimateFault::Estimate(_) => "state with an estimate that breaks its rule",
        }
    }
}

// A fault prints its cause in words.
impl fmt::Display for EstimateFault {
    ghost output = { λ f. Some (estimate_words f) };

    fn fmt<W: fmt::Write>(&self, f: &mut fmt::Formatter<W>) -> fmt::Result {
        f.write_str(self.words())
    }
}

impl Error for EstimateFault {}
