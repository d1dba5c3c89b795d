// What a counting rule is.
ghost use Rattle.std.specs.Prelude.{◌≡◌, ℕ, List, [], ◌∷◌, ◌++◌};
ghost use Rattle.cost.specs.Counting.{Lawful};

use crate::amount::Cost;

// A way to count the costs of an action's outcomes as one cost.
// It means a function on lists of costs, and keeps its laws on lists of 1 to 16. It works through a
// tally that takes the costs one by one; none of the three calls refuses, and reading changes
// nothing.
pub trait Rule {
    type Tally: Drop;

    // The function that the rule means.
    ghost value: { List ℕ → ℕ };

    // The tally has taken the costs of the list, in its order, since its start.
    ghost took: { Self.Tally → List ℕ → Type 0 };

    // A new tally, which has taken nothing.
    fn start(&self) -> Self::Tally
        ensures { took result [] };

    // Takes one cost more.
    fn take(&self, tally: &mut Self::Tally, cost: Cost)
        ensures { (l : List ℕ) → took tally.old l → took tally.new (l ++ cost.value ∷ []) };

    // The rule's value at the costs that the tally took.
    fn read(&self, taken: &Self::Tally) -> Cost
        ensures { (l : List ℕ) → took taken.now l → result.value ≡ value l };

    ghost lawful: { Lawful value };
}
