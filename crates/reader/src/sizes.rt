// How large a model is.
ghost use Rattle.std.specs.Prelude.{◌≡◌};
ghost use Rattle.sheet.specs.Stages.{stage};
ghost use Rattle.reader.specs.Reads.{stage_size};

use sheet::Due;

// How many states, actions and outcomes a model has.
#[derive(Clone, Copy, PartialEq, Eq, Debug)]
pub struct Size {
    pub states: usize,
    pub actions: usize,
    pub outcomes: usize,
}

// What a stage of reading counted.
impl From<Due> for Size {
    ghost from_gives = { λ d s. s ≡ stage_size (stage d) };

    fn from(due: Due) -> Size {
        Size {
            states: due.states,
            actions: due.actions,
            outcomes: due.outcomes,
        }
    }
}
