// Each fault of a model at its edge, and of two faults the earlier one.
use crate::rows::{action, opened};
use model::{ModelFault, Trim, first_fault};
use table::{ActionRow, StateRow, TableModel};

const END: StateRow = StateRow::End(0);

// What is wrong with the model of three tables.
fn fault<'a>(
    states: &'a [StateRow],
    actions: &'a [ActionRow],
    outcomes: &'a [u16],
) -> Option<ModelFault> {
    first_fault(&TableModel {
        states,
        actions,
        outcomes,
    })
}

#[test]
fn a_model_has_1_to_4096_states(rt: HostRuntime) {
    assert_eq!(rt; fault(&[], &[], &[]), Some(ModelFault::States(0)));
    assert_eq!(rt; fault(&[END], &[], &[]), None);
    assert_eq!(rt; fault(&[END; 4096], &[], &[]), None);
    assert_eq!(rt;
        fault(&[END; 4097], &[], &[]),
        Some(ModelFault::States(4097))
    );
}

#[test]
fn actions_and_end_costs_have_limits(rt: HostRuntime) {
    let actions = [action(0, 0, 1); 17];
    assert_eq!(rt; fault(&[opened(0, 16)], &actions, &[0]), None);
    assert_eq!(rt;
        fault(&[END, opened(0, 17)], &actions, &[0]),
        Some(ModelFault::Actions(1))
    );
    assert_eq!(rt; fault(&[StateRow::End(1_000_000)], &[], &[]), None);
    assert_eq!(rt;
        fault(&[END, StateRow::End(1_000_001)], &[], &[]),
        Some(ModelFault::EndCost(1))
    );
}

#[test]
fn tasks_and_numbers_of_outcomes_have_limits(rt: HostRuntime) {
    let up = [0, 1, 2, 3, 4, 5, 6, 7, 8, 9, 10, 11, 12, 13, 14, 15, 16];
    let mut states = [END; 17];
    states[0] = opened(0, 2);
    assert_eq!(rt;
        fault(&states, &[action(0, 0, 1), action(63, 0, 16)], &up),
        None
    );
    assert_eq!(rt;
        fault(&states, &[action(0, 0, 1), action(64, 0, 16)], &up),
        Some(ModelFault::Task(0, 1))
    );
    assert_eq!(rt;
        fault(&states, &[action(0, 0, 1), action(0, 0, 0)], &up),
        Some(ModelFault::Outcomes(0, 1))
    );
    assert_eq!(rt;
        fault(&states, &[action(0, 0, 1), action(0, 0, 17)], &up),
        Some(ModelFault::Outcomes(0, 1))
    );
}

#[test]
fn outcomes_are_states_that_ascend(rt: HostRuntime) {
    let states = [opened(0, 1), END, END];
    let actions = [action(0, 0, 3)];
    assert_eq!(rt; fault(&states, &actions, &[0, 1, 2]), None);
    assert_eq!(rt;
        fault(&states, &actions, &[0, 1, 3]),
        Some(ModelFault::Outcome(0, 0, 2))
    );
    assert_eq!(rt;
        fault(&states, &actions, &[0, 2, 2]),
        Some(ModelFault::Outcome(0, 0, 2))
    );
    assert_eq!(rt;
        fault(&states, &actions, &[1, 0, 2]),
        Some(ModelFault::Outcome(0, 0, 1))
    );
    assert_eq!(rt;
        fault(&states, &actions, &[5, 0, 0]),
        Some(ModelFault::Outcome(0, 0, 0))
    );
}

#[test]
fn of_two_faults_the_earlier_is_told(rt: HostRuntime) {
    let far = StateRow::End(2_000_000);
    assert_eq!(rt;
        fault(&[opened(0, 1), far], &[action(0, 0, 1)], &[7]),
        Some(ModelFault::Outcome(0, 0, 0))
    );
    assert_eq!(rt;
        fault(&[far, opened(0, 1)], &[action(0, 0, 1)], &[7]),
        Some(ModelFault::EndCost(0))
    );
    assert_eq!(rt;
        fault(&[opened(0, 1)], &[action(99, 0, 0)], &[]),
        Some(ModelFault::Task(0, 0))
    );
    assert_eq!(rt;
        fault(&[opened(0, 2)], &[action(0, 0, 1), action(99, 0, 1)], &[7]),
        Some(ModelFault::Outcome(0, 0, 0))
    );
    assert_eq!(rt;
        fault(&[far; 4097], &[], &[]),
        Some(ModelFault::States(4097))
    );
}

#[test]
fn barred_actions_are_passed_over(rt: HostRuntime) {
    let states = [opened(0, 2), END];
    let actions = [action(99, 0, 1), action(0, 1, 1)];
    let under = TableModel {
        states: &states,
        actions: &actions,
        outcomes: &[0, 1],
    };
    assert_eq!(rt; first_fault(&under), Some(ModelFault::Task(0, 0)));
    assert_eq!(rt; first_fault(&Trim { under }), None);
}
