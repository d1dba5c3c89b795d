// The questions that every model answers.
ghost use Rattle.std.specs.Prelude.{◌≡◌, List, length};
ghost use Rattle.model.specs.Meaning.{State, is_end, end_cost, actions, is_free, outcomes, state_at, action_at, outcome_at};
ghost use Rattle.model.specs.Meaning.{task as task_of};

// A planning model. Every answer comes from its meaning; about what is not there the answer is 0
// or no. Asking changes nothing and never refuses. A yes or no stands beside the value that it speaks
// of, and is no Option around it, since callers ask for one without the other.
pub trait Model {
    // The list of its states.
    ghost meaning: { Self → List State };

    // How many states there are.
    fn states(&self) -> usize
        ensures { result ≡ length (meaning self.now) };

    // Whether a state is an end.
    fn is_end(&self, state: usize) -> bool
        ensures { result ≡ is_end (state_at (meaning self.now) state) };

    // The cost of an end.
    fn end_cost(&self, state: usize) -> u32
        ensures { result ≡ end_cost (state_at (meaning self.now) state) };

    // How many actions an open state has, barred ones counted.
    fn actions(&self, state: usize) -> usize
        ensures { result ≡ length (actions (state_at (meaning self.now) state)) };

    // Whether an action is free.
    fn is_free(&self, state: usize, action: usize) -> bool
        ensures { result ≡ is_free (action_at (meaning self.now) state action) };

    // The task of a free action.
    fn task(&self, state: usize, action: usize) -> u8
        ensures { result ≡ task_of (action_at (meaning self.now) state action) };

    // How many outcomes a free action has.
    fn outcomes(&self, state: usize, action: usize) -> usize
        ensures { result ≡ length (outcomes (action_at (meaning self.now) state action)) };

    // The outcome at a place of a free action's list.
    fn outcome(&self, state: usize, action: usize, place: usize) -> usize
        ensures { result ≡ outcome_at (meaning self.now) state action place };
}
