// A refusal as it is shown: its number and the values that it returns.
ghost use Rattle.std.specs.Prelude.{◌≡◌, Some};
ghost use Rattle.model.specs.Refusals.{refused, refusal_text};

use std::fmt;

// The values that a refusal returns, at most three, in the order of the table of refusals. No list: the
// cause says how many there are, and a refusal is copied.
#[derive(Clone, Copy, PartialEq, Eq, Debug)]
pub enum Values {
    Nothing,
    One(usize),
    Two(usize, usize),
    Three(usize, usize, usize),
}

// What a refused call answers: the number of the cause and the values that go with it. Inside, each
// cause is a variant of a fault; the number is what the caller is shown.
#[derive(Clone, Copy, PartialEq, Eq, Debug)]
pub struct Refusal {
    pub number: u8,
    pub values: Values,
}

impl Refusal {
    pub fn new(number: u8, values: Values) -> Refusal
        ensures { result ≡ refused number values }
    {
        Refusal { number, values }
    }
}

impl fmt::Display for Refusal {
    ghost output = { λ r. Some (refusal_text r.number r.values) };

    fn fmt<W: fmt::Write>(&self, f: &mut fmt::Formatter<W>) -> fmt::Result {
        let number = self.number;
        match self.values {
            Values::Nothing => write!(f, "refused {number}"),
            Values::One(a) => write!(f, "refused {number} {a}"),
            Values::Two(a, b) => write!(f, "refused {number} {a} {b}"),
            Values::Three(a, b, c) => write!(f, "refused {number} {a} {b} {c}"),
        }
    }
}
