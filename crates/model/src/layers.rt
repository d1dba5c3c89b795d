// A layer over a model that bars the actions that may return to their own state.
ghost use Rattle.std.specs.Prelude.{◌≡◌};
ghost use Rattle.model.specs.Meaning.{outcomes, action_at};
ghost use Rattle.model.specs.Trims.{lists, trimmed};

use crate::questions::Model as WorkModel;

// The model under it, with each action barred that lists its own state as an outcome. The test stands in
// each answer, since the answers have types of their own.
#[derive(Clone, Copy, Drop, Debug)]
pub struct Trim<M> {
    pub under: M,
}

// Whether an action lists its own state as an outcome.
fn lists_itself<M: WorkModel>(model: &M, state: usize, action: usize) -> bool
    ensures { result ≡ lists state (outcomes (action_at (M.Model.meaning model.now) state action)) }
{
    // By place: over `outcomes_of` it takes twice the time, and Trim asks this for every outcome.
    for place in 0..model.outcomes(state, action) {
        if model.outcome(state, action, place) == state {
            return true;
        }
    }
    false
}

impl<M: WorkModel> WorkModel for Trim<M> {
    ghost meaning = { λ t. trimmed (M.Model.meaning t.under) };

    fn states(&self) -> usize {
        self.under.states()
    }

    fn is_end(&self, state: usize) -> bool {
        self.under.is_end(state)
    }

    fn end_cost(&self, state: usize) -> u32 {
        self.under.end_cost(state)
    }

    fn actions(&self, state: usize) -> usize {
        self.under.actions(state)
    }

    fn is_free(&self, state: usize, action: usize) -> bool {
        self.under.is_free(state, action) && !lists_itself(&self.under, state, action)
    }

    fn task(&self, state: usize, action: usize) -> u8 {
        if lists_itself(&self.under, state, action) {
            0
        } else {
            self.under.task(state, action)
        }
    }

    fn outcomes(&self, state: usize, action: usize) -> usize {
        if lists_itself(&self.under, state, action) {
            0
        } else {
            self.under.outcomes(state, action)
        }
    }

    fn outcome(&self, state: usize, action: usize, place: usize) -> usize {
        if lists_itself(&self.under, state, action) {
            0
        } else {
            self.under.outcome(state, action, place)
        }
    }
}
