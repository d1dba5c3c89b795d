// The valve model: the worked example, and each refusal of a set-up at its edge.
use model::{Model, Refusal, Values};
use std::test::Fail;
use valve::{Split, Test, ValveFault, ValveModel};

fn test(task: u8, set: u16) -> Test {
    Test { task, set }
}

// What a set-up is refused for.
fn fault(repairs: &[u32], tests: &[Test]) -> Option<ValveFault> {
    ValveModel::new(repairs, tests).err()
}

fn parts(split: Option<Split>) -> Option<(u8, usize, usize)> {
    split.map(|split| (split.task, split.smaller, split.larger))
}

#[test]
fn tests_split_a_set(rt: HostRuntime) -> Result<(), Fail> {
    let tests = [test(0, 3), test(1, 5), test(2, 1)];
    let model = ValveModel::new(&[0, 10, 20, 30], &tests)?;
    assert_eq!(rt; model.states(), 16);
    assert_eq!(rt; parts(model.split(15, 0)), Some((0, 3, 12)));
    assert_eq!(rt; parts(model.split(15, 1)), Some((1, 5, 10)));
    assert_eq!(rt; parts(model.split(15, 2)), Some((2, 1, 14)));
    assert_eq!(rt; parts(model.split(10, 0)), Some((0, 2, 8)));
    assert_eq!(rt;
        (parts(model.split(10, 1)), parts(model.split(10, 2))),
        (None, None)
    );
    assert_eq!(rt;
        (
            model.actions(15),
            model.actions(10),
            model.actions(8),
            model.actions(16),
        ),
        (3, 3, 0, 0)
    );
    assert!(rt; model.is_free(15, 2) && !model.is_free(10, 2) && !model.is_free(15, 3));
    assert_eq!(rt;
        (
            model.task(15, 1),
            model.outcomes(15, 1),
            model.outcomes(10, 1),
        ),
        (1, 2, 0)
    );
    assert_eq!(rt;
        (
            model.outcome(15, 2, 0),
            model.outcome(15, 2, 1),
            model.outcome(15, 2, 2),
        ),
        (1, 14, 0)
    );
    Ok(())
}

#[test]
fn a_set_of_none_or_one_is_an_end(rt: HostRuntime) -> Result<(), Fail> {
    let model = ValveModel::new(&[5, 10, 20, 30], &[test(0, 3)])?;
    assert!(rt; model.is_end(0) && model.is_end(1) && model.is_end(8) && !model.is_end(3));
    assert!(rt; !model.is_end(16) && !model.is_end(usize::MAX));
    assert_eq!(rt;
        (
            model.end_cost(0),
            model.end_cost(1),
            model.end_cost(2),
            model.end_cost(8),
        ),
        (0, 5, 10, 30)
    );
    assert_eq!(rt; (model.end_cost(3), model.end_cost(16)), (0, 0));
    Ok(())
}

#[test]
fn numbers_of_candidates_and_tests_have_limits(rt: HostRuntime) {
    let one = [test(0, 1)];
    assert_eq!(rt; fault(&[0], &one), Some(ValveFault::Candidates(1)));
    assert_eq!(rt; fault(&[0; 2], &one), None);
    assert_eq!(rt; fault(&[0; 12], &one), None);
    assert_eq!(rt; fault(&[0; 13], &one), Some(ValveFault::Candidates(13)));
    assert_eq!(rt; fault(&[0; 4], &[]), Some(ValveFault::Tests(0)));
    assert_eq!(rt; fault(&[0; 4], &[test(0, 1); 16]), None);
    assert_eq!(rt;
        fault(&[0; 4], &[test(0, 1); 17]),
        Some(ValveFault::Tests(17))
    );
}

#[test]
fn tests_and_repair_costs_have_limits(rt: HostRuntime) {
    assert_eq!(rt; fault(&[0; 4], &[test(63, 15)]), None);
    assert_eq!(rt;
        fault(&[0; 4], &[test(0, 1), test(64, 1)]),
        Some(ValveFault::Test(1))
    );
    assert_eq!(rt; fault(&[0; 4], &[test(0, 16)]), Some(ValveFault::Test(0)));
    assert_eq!(rt; fault(&[0, 1_000_000], &[test(0, 1)]), None);
    assert_eq!(rt;
        fault(&[0, 1_000_001], &[test(0, 1)]),
        Some(ValveFault::Repair(1))
    );
}

#[test]
fn the_first_fault_of_a_set_up_is_told(rt: HostRuntime) {
    assert_eq!(rt; fault(&[2_000_000], &[]), Some(ValveFault::Candidates(1)));
    assert_eq!(rt; fault(&[2_000_000; 2], &[]), Some(ValveFault::Tests(0)));
    assert_eq!(rt;
        fault(&[2_000_000; 2], &[test(99, 0), test(0, 99)]),
        Some(ValveFault::Test(0))
    );
    assert_eq!(rt;
        fault(&[0, 2_000_000, 2_000_000], &[test(0, 1)]),
        Some(ValveFault::Repair(1))
    );
    assert_eq!(rt;
        ValveFault::Repair(1).refusal(),
        Refusal {
            number: 27,
            values: Values::One(1),
        }
    );
}
