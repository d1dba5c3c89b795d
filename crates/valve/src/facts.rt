// What is true of the parts into which a test splits a set, stated by the contract of a function
// that does nothing, so that the check asks for its proof.
ghost use Rattle.valve.specs.Parts.{TestsPartSets};

// A test parts a set into what is inside the test's set and what is outside it.
pub fn tests_part_sets()
    ensures { TestsPartSets }
{}
