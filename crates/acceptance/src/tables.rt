// The table model and Trim over it: what they answer, also about what is not there.
use crate::rows::{action, opened};
use model::{Model, Trim};
use table::{StateRow, TableModel};

#[test]
fn a_table_model_answers_from_its_tables(rt: HostRuntime) {
    let states = [opened(0, 2), opened(2, 2), StateRow::End(4), opened(0, 0)];
    let actions = [
        action(0, 0, 2),
        action(1, 2, 2),
        action(0, 0, 2),
        action(2, 3, 1),
    ];
    let model = TableModel {
        states: &states,
        actions: &actions,
        outcomes: &[0, 2, 1, 2],
    };
    assert_eq!(rt; model.states(), 4);
    assert!(rt; !model.is_end(0) && model.is_end(2) && !model.is_end(3) && !model.is_end(4));
    assert_eq!(rt;
        (model.end_cost(2), model.end_cost(0), model.end_cost(9)),
        (4, 0, 0)
    );
    assert_eq!(rt;
        (
            model.actions(0),
            model.actions(2),
            model.actions(3),
            model.actions(4),
        ),
        (2, 0, 0, 0)
    );
    assert!(rt; model.is_free(0, 1) && !model.is_free(0, 2) && !model.is_free(2, 0));
    assert_eq!(rt;
        (model.task(1, 1), model.task(1, 2), model.task(2, 0)),
        (2, 0, 0)
    );
    assert_eq!(rt;
        (
            model.outcomes(0, 0),
            model.outcomes(1, 1),
            model.outcomes(3, 0),
        ),
        (2, 1, 0)
    );
    assert_eq!(rt;
        (
            model.outcome(0, 1, 0),
            model.outcome(0, 1, 1),
            model.outcome(0, 1, 2),
        ),
        (1, 2, 0)
    );
}

#[test]
fn a_span_that_leaves_its_table_has_no_entries(rt: HostRuntime) {
    let states = [
        opened(1, 1),
        opened(1, 2),
        opened(2, 0),
        opened(u32::MAX, u32::MAX),
    ];
    let actions = [action(5, u32::MAX, 1), action(6, 0, 3)];
    let model = TableModel {
        states: &states,
        actions: &actions,
        outcomes: &[0, 1],
    };
    assert_eq!(rt;
        (
            model.actions(0),
            model.actions(1),
            model.actions(2),
            model.actions(3),
        ),
        (1, 0, 0, 0)
    );
    assert!(rt; model.is_free(0, 0) && !model.is_free(1, 0));
    assert_eq!(rt;
        (
            model.task(0, 0),
            model.outcomes(0, 0),
            model.outcome(0, 0, 0),
        ),
        (6, 0, 0)
    );
}

#[test]
fn trim_bars_what_returns_to_its_own_state(rt: HostRuntime) {
    let states = [opened(0, 2), opened(0, 1), StateRow::End(7)];
    let actions = [action(3, 0, 2), action(4, 1, 1)];
    let model = Trim {
        under: TableModel {
            states: &states,
            actions: &actions,
            outcomes: &[0, 2],
        },
    };
    assert_eq!(rt;
        (
            model.states(),
            model.actions(0),
            model.actions(1),
            model.end_cost(2),
        ),
        (3, 2, 1, 7)
    );
    assert!(rt; !model.is_free(0, 0) && model.is_free(0, 1) && model.is_free(1, 0));
    assert_eq!(rt;
        (
            model.task(0, 0),
            model.outcomes(0, 0),
            model.outcome(0, 0, 1),
        ),
        (0, 0, 0)
    );
    assert_eq!(rt;
        (
            model.task(1, 0),
            model.outcomes(1, 0),
            model.outcome(1, 0, 1),
        ),
        (3, 2, 2)
    );
}
