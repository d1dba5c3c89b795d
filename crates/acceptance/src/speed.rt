// Best costs of a model of the largest size, whose plans are 20 steps deep.
use crate::rows::{action, opened};
use cost::{Cost, Largest, PriceList, Rule, Sum};
use plan::Problem;
use std::alloc::{AllocError, Global};
use std::process::Abort;
use std::test::Fail;
use table::{ActionRow, StateRow, TableModel};

// The open states are 20 layers of 204, and the last 16 states are ends.
fn rows(heap: Global) -> Result<Vec<StateRow>, AllocError> {
    (0..4096u32).map(|state| row(state)).collect(heap)
}

fn row(state: u32) -> StateRow {
    if state < 4080 {
        opened(state.saturating_mul(16), 16)
    } else {
        StateRow::End(0)
    }
}

fn actions(heap: Global) -> Result<Vec<ActionRow>, AllocError> {
    (0..65_536u32)
        .map(|place| action((place % 64) as u8, place.saturating_mul(16), 16))
        .collect(heap)
}

// The first outcome of an action: twelve actions lead to the next layer, and four to their own.
fn first_outcome(state: u32, action: u32) -> u32 {
    let layer = state / 204;
    let target = if action < 12 {
        layer.saturating_add(1)
    } else {
        layer
    };
    let spread = state.wrapping_mul(7).wrapping_add(action.wrapping_mul(13)) % 189;
    let first = target.saturating_mul(204);
    if target < 20 {
        first.saturating_add(spread)
    } else {
        first
    }
}

// The outcomes of each action are 16 states in a row.
fn outcomes(heap: Global) -> Result<Vec<u16>, AllocError> {
    (0..1_048_576u32).map(|place| outcome(place)).collect(heap)
}

fn outcome(place: u32) -> u16 {
    let first = first_outcome(place / 256, place / 16 % 16);
    (first.saturating_add(place % 16) % 4096) as u16
}

// What the sum of a state costs that is some layers before the ends, with every price 1.
fn summed(layers: u32) -> u32 {
    let mut cost = 0u32;
    for _ in 0..layers {
        cost = cost.saturating_mul(16).saturating_add(1).min(Cost::ROOF);
    }
    cost
}

// Whether a state's best cost by a rule is what its number of layers before the ends is counted as.
fn check_rule<R: Rule, F: Fn(u32) -> u32>(
    rt: &impl Abort,
    model: &TableModel,
    rule: &R,
    counted: &F,
) -> Result<(), Fail>
    requires { F.IsAlwaysCallable counted.now }
{
    let mut costs = [Cost::new(0); 4096];
    let problem = Problem {
        model,
        rule,
        prices: &PriceList::new(),
    };
    problem.best_costs(&mut costs)?;
    for (state, cost) in (0..4096u32).zip(&costs) {
        let layers = 20u32.saturating_sub(state / 204);
        assert_eq!(rt; cost.get(), counted(layers));
    }
    Ok(())
}

#[test]
fn the_largest_model_has_best_costs(rt: HostRuntime) -> Result<(), Fail> {
    let states = rows(rt.alloc())?;
    let actions = actions(rt.alloc())?;
    let outcomes = outcomes(rt.alloc())?;
    let model = TableModel {
        states: &states,
        actions: &actions,
        outcomes: &outcomes,
    };
    assert_eq!(rt; (summed(3), summed(8)), (273, 286_331_153));
    assert_eq!(rt; summed(9), Cost::ROOF);
    check_rule(&rt, &model, &Largest, &|layers: u32| layers)?;
    check_rule(&rt, &model, &Sum, &|layers: u32| summed(layers))
}
