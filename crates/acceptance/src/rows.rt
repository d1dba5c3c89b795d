// Rows of tables that the tests share.
use table::{ActionRow, Span, StateRow};

pub fn span(first: u32, count: u32) -> Span {
    Span { first, count }
}

// An open state with the span of its actions.
pub fn opened(first: u32, count: u32) -> StateRow {
    StateRow::Open(span(first, count))
}

// An action with its task and the span of its outcomes.
pub fn action(task: u8, first: u32, count: u32) -> ActionRow {
    ActionRow {
        task,
        outcomes: span(first, count),
    }
}
