// The table of worked examples, proved as a whole.
ghost use Rattle.acceptance.specs.Examples.{AllAreBest, Estimates};

// The best costs of every example in the table, and the two lists of estimates.
pub fn examples_hold()
    ensures best { AllAreBest }
    ensures estimates { Estimates }
{}
