// Small table models drawn from a seed, and their best costs against a count of all plans.
use crate::brute::{All, Most, check_model, known_at, least_of_all};
use crate::rows::{action, opened};
use cost::Cost;
use model::{Model, Trim, first_fault};
use std::test::Fail;
use table::{ActionRow, StateRow, TableModel};

// A seed from which numbers are drawn.
#[derive(Clone, Copy)]
struct Lot {
    seed: u32,
}

impl Lot {
    // The next number below a bound.
    fn below(&mut self, bound: u32) -> u32 {
        self.seed = self
            .seed
            .wrapping_mul(1_664_525)
            .wrapping_add(1_013_904_223);
        if bound == 0 {
            0
        } else {
            (self.seed >> 8) % bound
        }
    }
}

// Three tables, with no heap so that they can be copied: up to five states, three actions for each,
// and the lists of all sets of states.
#[derive(Clone, Copy)]
pub struct Tables {
    count: usize,
    states: [StateRow; 5],
    actions: [ActionRow; 15],
    outcomes: [u16; 160],
}

impl Tables {
    pub fn model(&self) -> TableModel<'_> {
        TableModel {
            states: self.states.get(..self.count).unwrap_or(&self.states),
            actions: &self.actions,
            outcomes: &self.outcomes,
        }
    }
}

// The lists of all sets of states, each in ascending order and with five places.
fn all_sets() -> [u16; 160] {
    let mut lists = [0; 160];
    for (set, list) in lists.chunks_exact_mut(5).enumerate() {
        write_set(list, set);
    }
    lists
}

// Writes the states of a set in ascending order.
fn write_set(list: &mut [u16], set: usize) {
    let states = (0..5u16).filter(|state| (set >> *state) & 1 == 1);
    for (entry, state) in list.iter_mut().zip(states) {
        *entry = state;
    }
}

// One state in three is an end; the others have up to three actions.
fn draw_states(lot: &mut Lot) -> [StateRow; 5] {
    let mut states = [StateRow::End(0); 5];
    for (row, state) in states.iter_mut().zip(0..5u32) {
        *row = if lot.below(3) == 0 {
            StateRow::End(lot.below(30))
        } else {
            let first = state.saturating_mul(3);
            let count = lot.below(4).max(lot.below(4));
            opened(first, count)
        };
    }
    states
}

// An action whose outcomes are a set of states, with a number from 1 to the largest.
fn draw_action(lot: &mut Lot, largest: u32) -> ActionRow {
    let task = (lot.below(4) % 4) as u8;
    let one = lot.below(largest).saturating_add(1);
    let other = lot.below(largest).saturating_add(1);
    let both = one & other;
    let set = if both == 0 { one } else { both };
    action(task, set.saturating_mul(5), set.count_ones())
}

fn draw_actions(lot: &mut Lot, largest: u32) -> [ActionRow; 15] {
    let mut actions = [action(0, 0, 0); 15];
    for row in &mut actions {
        *row = draw_action(lot, largest);
    }
    actions
}

// Tables of two, four or five states.
pub fn draw_tables(seed: u32) -> Tables {
    let mut lot = Lot { seed };
    let _ = lot.below(2);
    let (count, largest) = match lot.below(4) {
        0 => (2, 3),
        1 => (4, 15),
        _ => (5, 31),
    };
    let states = draw_states(&mut lot);
    let actions = draw_actions(&mut lot, largest);
    Tables {
        count,
        states,
        actions,
        outcomes: all_sets(),
    }
}

#[test]
fn drawn_models_cost_what_their_plans_cost(rt: HostRuntime) -> Result<(), Fail> {
    for seed in 0..1_000 {
        let tables = draw_tables(seed);
        let model = tables.model();
        assert_eq!(rt; first_fault(&model), None);
        check_model(&rt, &model)?;
        check_model(&rt, &Trim { under: model })?;
    }
    Ok(())
}

// How many states of a model are ends, are open with a plan, and are open without one.
fn kinds<M: Model>(model: &M) -> (u32, u32, u32) {
    let least = least_of_all(model, &Most);
    let mut ends = 0u32;
    let mut planned = 0u32;
    let mut stuck = 0u32;
    for state in 0..model.states() {
        if model.is_end(state) {
            ends = ends.saturating_add(1);
        } else if known_at(&least, state) < Cost::ROOF {
            planned = planned.saturating_add(1);
        } else {
            stuck = stuck.saturating_add(1);
        }
    }
    (ends, planned, stuck)
}

#[test]
fn trim_keeps_what_plans_of_drawn_models_cost(rt: HostRuntime) {
    for seed in 0..1_000 {
        let tables = draw_tables(seed);
        let under = tables.model();
        assert_eq!(rt;
            least_of_all(&Trim { under }, &All),
            least_of_all(&under, &All)
        );
    }
}

#[test]
fn drawn_models_have_states_of_all_kinds(rt: HostRuntime) {
    let mut all = (0u32, 0u32, 0u32);
    for seed in 0..1_000 {
        let (ends, planned, stuck) = kinds(&draw_tables(seed).model());
        all = (
            all.0.saturating_add(ends),
            all.1.saturating_add(planned),
            all.2.saturating_add(stuck),
        );
    }
    assert_eq!(rt; all, (1351, 1038, 1606));
}
