// The model that reads three tables: states, actions and outcomes.

mod rows;
mod spans;

// A run of entries of a table: the first one's place and how many there are.
// A span and no list of its own, since the tables are lent whole and nothing is allocated.
#[derive(Clone, Copy, PartialEq, Eq, Default, Debug)]
pub struct Span {
    pub first: u32,
    pub count: u32,
}

// A state: an end with its cost, or an open state with the span of its actions.
#[derive(Clone, Copy, PartialEq, Eq, Debug)]
pub enum StateRow {
    End(u32),
    Open(Span),
}

// A free action: its task and the span of its outcomes.
#[derive(Clone, Copy, PartialEq, Eq, Debug)]
pub struct ActionRow {
    pub task: u8,
    pub outcomes: Span,
}

// A model over three tables that are lent to it. It bars nothing.
#[derive(Clone, Copy, Debug)]
pub struct TableModel<'a> {
    pub states: &'a [StateRow],
    pub actions: &'a [ActionRow],
    pub outcomes: &'a [u16],
}
