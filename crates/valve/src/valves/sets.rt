// What a valve model answers.
ghost use Rattle.std.specs.Prelude.{◌≡◌};
ghost use Rattle.std.specs.Option.{option_map, unwrap_or};
ghost use Rattle.model.specs.Meaning.{Barred, action_at};
ghost use Rattle.valve.specs.Valves.{meaning_of, split_action};

use super::{Split, Test, ValveModel};
use model::Model as WorkModel;

impl ValveModel {
    // What a test does in a state; none where it is barred or not there.
    pub fn split(&self, state: usize, test: usize) -> Option<Split>
        ensures { unwrap_or (option_map split_action result) Barred ≡ action_at (meaning_of self.now) state test }
    {
        if self.actions(state) <= test {
            return None;
        }
        let Test { task, set } = self.tests[test];
        let inside = state & set as usize;
        let outside = state - inside;
        if inside == 0 || outside == 0 {
            return None;
        }
        Some(Split {
            task,
            smaller: inside.min(outside),
            larger: inside.max(outside),
        })
    }
}

impl WorkModel for ValveModel {
    ghost meaning = { meaning_of };

    fn states(&self) -> usize {
        1 << self.candidates
    }

    fn is_end(&self, state: usize) -> bool {
        state < self.states() && state.count_ones() < 2
    }

    fn end_cost(&self, state: usize) -> u32 {
        if state < self.states() && state.count_ones() == 1 {
            self.repairs[state.trailing_zeros() as usize]
        } else {
            0
        }
    }

    fn actions(&self, state: usize) -> usize {
        if state < self.states() && 2 <= state.count_ones() {
            self.count
        } else {
            0
        }
    }

    fn is_free(&self, state: usize, action: usize) -> bool {
        self.split(state, action).is_some()
    }

    fn task(&self, state: usize, action: usize) -> u8 {
        self.split(state, action).map_or(0, |split| split.task)
    }

    fn outcomes(&self, state: usize, action: usize) -> usize {
        self.split(state, action).map_or(0, |_| 2)
    }

    fn outcome(&self, state: usize, action: usize, place: usize) -> usize {
        match (self.split(state, action), place) {
            (Some(split), 0) => split.smaller,
            (Some(split), 1) => split.larger,
            _ => 0,
        }
    }
}
