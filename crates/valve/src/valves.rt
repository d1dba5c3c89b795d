// The model of a valve fault: one of several candidates is at fault, and tests find out which.
ghost use Rattle.std.specs.Prelude.{◌≡◌, false, length, take, is_some};
ghost use Rattle.valve.specs.SetUp.{set_up_fault};

mod sets;
mod setting;

// A test: its task and the set of candidates that it tells from the others. The candidates of a
// set are the one bits of its number.
#[derive(Clone, Copy, PartialEq, Eq, Debug)]
pub struct Test {
    pub task: u8,
    pub set: u16,
}

// What a test does to a set of candidates: the task, and the part inside the test's set and the
// part outside it, the smaller number first.
#[derive(Clone, Copy, PartialEq, Eq, Debug)]
pub struct Split {
    pub task: u8,
    pub smaller: usize,
    pub larger: usize,
}

// A valve model: what it costs to repair each candidate, and the tests there are. It holds its own
// copy of both lists, which have at most 12 and 16 entries.
// Arrays with their lengths beside them: the model is `Copy`, takes no heap and outlives the lists that it
// is made from, as no list type does.
#[derive(Clone, Copy, Debug)]
pub struct ValveModel {
    candidates: usize,
    repairs: [u32; 12],
    count: usize,
    tests: [Test; 16],
    ghost costed: { length (take candidates repairs) ≡ candidates },
    ghost tested: { length (take count tests) ≡ count },
    ghost sound: { is_some (set_up_fault (take candidates repairs) (take count tests)) ≡ false },
}
