// Best costs against a count of all plans of small models.
use crate::bests::{priced, ring};
use cost::{Cost, Largest, Rule, Sum};
use model::{Model, Trim, outcomes_of};
use plan::Problem;
use std::array;
use std::process::Abort;
use std::test::Fail;
use valve::{Test, ValveModel};

// What stands for a cost that is not known.
const UNKNOWN: u32 = u32::MAX;

// The prices of the tasks 0 to 3.
const PRICES: [u16; 4] = [1, 2, 5, 3];

// How the costs of several outcomes are counted as one, two at a time.
pub trait Counting {
    fn both(&self, one: u32, other: u32) -> u32;
}

// The largest cost.
pub struct Most;

impl Counting for Most {
    fn both(&self, one: u32, other: u32) -> u32 {
        one.max(other)
    }
}

// The sum of the costs.
pub struct All;

impl Counting for All {
    fn both(&self, one: u32, other: u32) -> u32 {
        one.saturating_add(other)
    }
}

// The cost at a place of a list, where it is known.
pub fn known_at(known: &[u32; 5], place: usize) -> u32 {
    known.get(place).copied().unwrap_or(UNKNOWN)
}

fn price_of(task: u8) -> u32 {
    PRICES
        .get(usize::from(task))
        .map_or(1, |price| u32::from(*price))
}

// The action that a plan, told by its number, gives a state; 3 stands for none.
fn chosen(plan: usize, state: usize) -> usize {
    let mut digits = plan;
    for _ in 0..state {
        digits = digits / 4;
    }
    digits % 4
}

// What an action costs where the costs of all its outcomes are known.
fn action_by<M: Model, C: Counting>(
    model: &M,
    count: &C,
    known: &[u32; 5],
    state: usize,
    action: usize,
) -> u32 {
    if !model.is_free(state, action) {
        return UNKNOWN;
    }
    let mut counted = 0u32;
    for outcome in outcomes_of(model, state, action) {
        let cost = known_at(known, outcome);
        if cost == UNKNOWN {
            return UNKNOWN;
        }
        counted = count.both(counted, cost);
    }
    price_of(model.task(state, action))
        .saturating_add(counted)
        .min(Cost::ROOF)
}

// What a plan costs at a state, by the costs that are known.
fn state_by<M: Model, C: Counting>(
    model: &M,
    count: &C,
    known: &[u32; 5],
    state: usize,
    plan: usize,
) -> u32 {
    if model.is_end(state) {
        model.end_cost(state)
    } else {
        action_by(model, count, known, state, chosen(plan, state))
    }
}

// One sweep over the states, which tells what a plan costs where that is known by now.
fn swept<M: Model, C: Counting>(model: &M, count: &C, known: &[u32; 5], plan: usize) -> [u32; 5] {
    let mut next = [UNKNOWN; 5];
    for (state, cost) in next.iter_mut().enumerate() {
        *cost = state_by(model, count, known, state, plan);
    }
    next
}

// What a plan costs at each state; unknown where it is not closed or not proper.
fn plan_costs<M: Model, C: Counting>(model: &M, count: &C, plan: usize) -> [u32; 5] {
    let mut known = [UNKNOWN; 5];
    for _ in 0..6 {
        known = swept(model, count, &known, plan);
    }
    known
}

// The smaller of two costs at each state.
fn smaller(a: &[u32; 5], b: &[u32; 5]) -> [u32; 5] {
    array::from_fn(|state| known_at(a, state).min(known_at(b, state)))
}

// The least that any plan costs at each state, and the roof where none has a cost.
pub fn least_of_all<M: Model, C: Counting>(model: &M, count: &C) -> [u32; 5] {
    let mut least = [Cost::ROOF; 5];
    for plan in 0..1024 {
        least = smaller(&least, &plan_costs(model, count, plan));
    }
    least
}

// Whether the best costs of a model are the least costs of its plans.
fn check_rule<M: Model, R: Rule, C: Counting>(
    rt: &impl Abort,
    model: &M,
    rule: &R,
    count: &C,
) -> Result<(), Fail> {
    let least = least_of_all(model, count);
    let mut costs = [Cost::new(Cost::ROOF); 5];
    let problem = Problem {
        model,
        rule,
        prices: &priced(&PRICES),
    };
    problem.best_costs(&mut costs)?;
    for (cost, best) in costs.iter().zip(&least) {
        assert_eq!(rt; cost.get(), *best);
    }
    Ok(())
}

// The same by both rules.
pub fn check_model<M: Model>(rt: &impl Abort, model: &M) -> Result<(), Fail> {
    check_rule(rt, model, &Largest, &Most)?;
    check_rule(rt, model, &Sum, &All)
}

#[test]
fn the_ring_costs_what_its_plans_cost(rt: HostRuntime) -> Result<(), Fail> {
    let most = least_of_all(&ring(), &Most);
    assert_eq!(rt; (most[0], most[1], most[2]), (11, 9, 4));
    let all = least_of_all(&ring(), &All);
    assert_eq!(rt; (all[0], all[1], all[2]), (15, 9, 4));
    assert_eq!(rt; (most[3], most[4]), (Cost::ROOF, Cost::ROOF));
    check_model(&rt, &ring())?;
    check_model(&rt, &Trim { under: ring() })
}

#[test]
fn valves_cost_what_their_plans_cost(rt: HostRuntime) -> Result<(), Fail> {
    let tests = [
        Test { task: 2, set: 1 },
        Test { task: 0, set: 3 },
        Test { task: 3, set: 2 },
    ];
    let model = ValveModel::new(&[6, 8], &tests)?;
    let most = least_of_all(&model, &Most);
    assert_eq!(rt; (most[0], most[1], most[2], most[3]), (0, 6, 8, 11));
    check_model(&rt, &model)
}
