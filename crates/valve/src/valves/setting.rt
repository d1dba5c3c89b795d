// Setting up a valve model.
ghost use Rattle.std.specs.Prelude.{◌≡◌, ◌≤◌, length, take, nat_lt, IfOk, Some, None, MatchResult};
ghost use Rattle.std.specs.List.{position};
ghost use Rattle.std.specs.Result.{result_err};
ghost use Rattle.model.specs.Firsts.{IsFirst};
ghost use Rattle.model.specs.Reading.{Opens};
ghost use Rattle.valve.specs.SetUp.{is_faulty, set_up_fault, SetUpHolds, set_up_place};
ghost use Rattle.valve.specs.Valves.{repairs_of, tests_of, meaning_of};

use super::{Test, ValveModel};
use crate::faults::ValveFault;

impl ValveModel {
    // The model of a set-up within its limits, or the first fault of the set-up.
    pub fn new(repairs: &[u32], tests: &[Test]) -> Result<ValveModel, ValveFault>
        ensures value { MatchResult result (λ v. (set_up_fault repairs.now tests.now ≡ None) × (repairs_of v ≡ repairs.now) × (tests_of v ≡ tests.now)) (λ f. set_up_fault repairs.now tests.now ≡ Some f) }
        ensures first { IsFirst (SetUpHolds repairs.now tests.now) set_up_place (result_err result) }
        ensures opens { IfOk result (λ v. Opens (meaning_of v)) }
    {
        let candidates = repairs.len();
        if candidates < 2 || 12 < candidates {
            return Err(ValveFault::Candidates(candidates));
        }
        let count = tests.len();
        if count < 1 || 16 < count {
            return Err(ValveFault::Tests(count));
        }
        if let Some(test) = faulty_test(candidates, tests) {
            return Err(ValveFault::Test(test));
        }
        if let Some(candidate) = faulty_repair(repairs) {
            return Err(ValveFault::Repair(candidate));
        }
        let nothing = Test { task: 0, set: 0 };
        Ok(ValveModel {
            candidates,
            repairs: held(0, repairs),
            count,
            tests: held(nothing, tests),
        })
    }
}

// A copy of a list that begins an array.
fn held<T: Copy, const N: usize>(rest: T, items: &[T]) -> [T; N]
    requires { length items.now ≤ N }
    ensures { take (length items.now) result ≡ items.now }
{
    let mut array = [rest; N];
    array[..items.len()].copy_from_slice(items);
    array
}

// The first test whose task or set is outside its limits.
fn faulty_test(candidates: usize, tests: &[Test]) -> Option<usize>
    requires { candidates ≤ 12 }
    ensures { result ≡ position (is_faulty candidates) tests.now }
{
    let sets = 1u16 << candidates;
    tests
        .iter()
        .position(|test| 63 < test.task || sets <= test.set)
}

// The first candidate whose repair cost is outside its limits.
fn faulty_repair(repairs: &[u32]) -> Option<usize>
    ensures { result ≡ position (nat_lt 1000000) repairs.now }
{
    repairs.iter().position(|repair| 1_000_000 < *repair)
}
