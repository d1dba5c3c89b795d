// Best costs on models worked out by hand, and what is refused.
use cost::{Cost, Largest, Price, PriceList, Rule, Sum, Task};
use model::{Model, ModelFault, Trim};
use plan::{BestFault, Problem};
use std::process::Abort;
use std::test::Fail;
use table::{ActionRow, Span, StateRow, TableModel};
use valve::{Test, ValveModel};

const STATES: [StateRow; 4] = [
    StateRow::Open(Span { first: 0, count: 2 }),
    StateRow::Open(Span { first: 2, count: 2 }),
    StateRow::End(4),
    StateRow::Open(Span { first: 0, count: 0 }),
];

const ACTIONS: [ActionRow; 4] = [
    ActionRow {
        task: 0,
        outcomes: Span { first: 0, count: 2 },
    },
    ActionRow {
        task: 1,
        outcomes: Span { first: 2, count: 2 },
    },
    ActionRow {
        task: 0,
        outcomes: Span { first: 0, count: 2 },
    },
    ActionRow {
        task: 2,
        outcomes: Span { first: 3, count: 1 },
    },
];

const OUTCOMES: [u16; 4] = [0, 2, 1, 2];

// Three tests that tell four candidates apart.
pub const TESTS: [Test; 3] = [
    Test { task: 0, set: 3 },
    Test { task: 1, set: 5 },
    Test { task: 2, set: 1 },
];

// Two open states that lead to each other and to an end of cost 4, and one without actions.
pub fn ring() -> TableModel<'static> {
    TableModel {
        states: &STATES,
        actions: &ACTIONS,
        outcomes: &OUTCOMES,
    }
}

// The list with these prices for the first tasks, and 1 for the others.
pub fn priced(first: &[u16]) -> PriceList {
    let mut prices = PriceList::new();
    for (number, value) in (0..64).zip(first) {
        if let (Some(task), Some(price)) = (Task::new(number), Price::new(*value)) {
            prices.set(task, price);
        }
    }
    prices
}

// The cost at a place of a list, and 7 past its end.
pub fn told(costs: &[Cost], place: usize) -> u32 {
    costs.get(place).map_or(7, |cost| cost.get())
}

// The first five costs of a list.
fn five(costs: &[Cost]) -> (u32, u32, u32, u32, u32) {
    (
        told(costs, 0),
        told(costs, 1),
        told(costs, 2),
        told(costs, 3),
        told(costs, 4),
    )
}

// Whether these are the best costs of four states, with a fifth entry left as it was.
fn check_four<M: Model, R: Rule>(
    rt: &impl Abort,
    model: &M,
    rule: &R,
    prices: &PriceList,
    best: (u32, u32, u32, u32),
) -> Result<(), Fail> {
    let mut costs = [Cost::new(99); 5];
    let problem = Problem {
        model,
        rule,
        prices,
    };
    problem.best_costs(&mut costs)?;
    assert_eq!(rt; five(&costs), (best.0, best.1, best.2, best.3, 99));
    Ok(())
}

#[test]
fn a_ring_has_best_costs(rt: HostRuntime) -> Result<(), Fail> {
    let prices = priced(&[1, 2, 5]);
    check_four(&rt, &ring(), &Largest, &prices, (11, 9, 4, Cost::ROOF))?;
    check_four(&rt, &ring(), &Sum, &prices, (15, 9, 4, Cost::ROOF))
}

#[test]
fn a_cheaper_task_lowers_best_costs(rt: HostRuntime) -> Result<(), Fail> {
    let prices = priced(&[1, 2, 4]);
    check_four(&rt, &ring(), &Largest, &prices, (10, 8, 4, Cost::ROOF))?;
    check_four(&rt, &ring(), &Sum, &prices, (14, 8, 4, Cost::ROOF))
}

#[test]
fn trim_keeps_best_costs(rt: HostRuntime) -> Result<(), Fail> {
    let prices = priced(&[1, 2, 5]);
    let trimmed = Trim { under: ring() };
    check_four(&rt, &trimmed, &Largest, &prices, (11, 9, 4, Cost::ROOF))?;
    check_four(&rt, &trimmed, &Sum, &prices, (15, 9, 4, Cost::ROOF))
}

#[test]
fn valves_have_best_costs(rt: HostRuntime) -> Result<(), Fail> {
    let model = ValveModel::new(&[0; 4], &TESTS)?;
    let prices = &priced(&[3, 2, 1]);
    let mut costs = [Cost::new(0); 16];
    let largest = Problem {
        model: &model,
        rule: &Largest,
        prices,
    };
    largest.best_costs(&mut costs)?;
    assert_eq!(rt; (told(&costs, 15), told(&costs, 10)), (5, 3));
    let sum = Problem {
        model: &model,
        rule: &Sum,
        prices,
    };
    sum.best_costs(&mut costs)?;
    assert_eq!(rt; (told(&costs, 15), told(&costs, 10)), (6, 3));
    Ok(())
}

#[test]
fn a_short_list_is_refused_and_kept(rt: HostRuntime) {
    let problem = Problem {
        model: &ring(),
        rule: &Largest,
        prices: &PriceList::new(),
    };
    let mut costs = [Cost::new(99); 3];
    assert_eq!(rt; problem.best_costs(&mut costs), Err(BestFault::Short));
    assert_eq!(rt; five(&costs), (99, 99, 99, 7, 7));
}

#[test]
fn a_faulty_model_is_refused_by_its_fault(rt: HostRuntime) {
    let model = TableModel {
        states: &[StateRow::End(0), StateRow::End(1_000_001)],
        actions: &[],
        outcomes: &[],
    };
    let problem = Problem {
        model: &model,
        rule: &Sum,
        prices: &PriceList::new(),
    };
    let fault = BestFault::Model(ModelFault::EndCost(1));
    let mut costs = [Cost::new(99); 2];
    assert_eq!(rt; problem.best_costs(&mut costs), Err(fault));
    assert_eq!(rt; five(&costs), (99, 99, 7, 7, 7));
    assert_eq!(rt; problem.best_costs(&mut []), Err(fault));
}
