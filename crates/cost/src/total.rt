// The rule that adds the costs up: what all outcomes cost together.
ghost use Rattle.std.specs.Prelude.{◌≡◌};
ghost use Rattle.cost.specs.Rules.{capped_sum};
ghost use Rattle.cost.specs.SumLaws.{sum_lawful};

use crate::amount::Cost;
use crate::counting::Rule;

// The sum of the costs, stopped at the roof. It shares with Largest what the trait says; its function
// and laws are its own, and a rule made of a function would hide them behind a parameter.
#[derive(Clone, Copy, Debug)]
pub struct Sum;

impl Rule for Sum {
    type Tally = Cost;

    ghost value = { capped_sum };

    ghost took = { λ t l. t.value ≡ capped_sum l };

    ghost lawful = { sum_lawful };

    fn start(&self) -> Cost {
        Cost::new(0)
    }

    fn take(&self, tally: &mut Cost, cost: Cost) {
        *tally = tally.plus(cost);
    }

    fn read(&self, taken: &Cost) -> Cost {
        *taken
    }
}
