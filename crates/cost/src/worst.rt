// The rule that counts the largest cost: what the worst outcome costs.
ghost use Rattle.std.specs.Prelude.{◌≡◌};
ghost use Rattle.cost.specs.Rules.{largest};
ghost use Rattle.cost.specs.LargestLaws.{largest_lawful};

use crate::amount::Cost;
use crate::counting::Rule;

// The largest of the costs.
#[derive(Clone, Copy, Debug)]
pub struct Largest;

impl Rule for Largest {
    type Tally = Cost;

    ghost value = { largest };

    ghost took = { λ t l. t.value ≡ largest l };

    ghost lawful = { largest_lawful };

    fn start(&self) -> Cost {
        Cost::new(0)
    }

    fn take(&self, tally: &mut Cost, cost: Cost) {
        *tally = (*tally).max(cost);
    }

    fn read(&self, taken: &Cost) -> Cost {
        *taken
    }
}
