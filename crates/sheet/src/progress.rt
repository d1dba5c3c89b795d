// How far the reading of a sheet has come.
ghost use Rattle.std.specs.Prelude.{◌+◌, ◌*◌, ◌≤◌};

mod steps;

// What is known after some fields of a sheet, and so which fields may come next.
#[derive(Clone, Copy, PartialEq, Eq, Debug)]
pub struct Due {
    // the number of states; 0 before it was read, so that no state is due then
    pub count: usize,
    // the lowest task that may be named next
    pub task: usize,
    // how many states were read
    pub states: usize,
    // how many more actions the latest state may have
    pub room: usize,
    // how many actions and outcomes were read
    pub actions: usize,
    pub outcomes: usize,
    ghost count_within: { count ≤ 4096 },
    ghost task_within: { task ≤ 64 },
    ghost states_within: { states ≤ count },
    ghost room_within: { room ≤ 16 },
    ghost actions_within: { actions + room ≤ 16 * states },
    ghost outcomes_within: { outcomes ≤ 16 * actions },
}
