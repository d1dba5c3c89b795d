// What a table model answers.
ghost use Rattle.std.specs.Prelude.{◌≡◌};
ghost use Rattle.std.specs.Option.{option_map, unwrap_or};
ghost use Rattle.model.specs.Meaning.{Barred, state_at, action_at};
ghost use Rattle.table.specs.Tables.{meaning_of, table_state, table_action};

use super::{ActionRow, Span, StateRow, TableModel};
use model::Model as WorkModel;

impl TableModel<'_> {
    // The row of a state; past the last, a row without actions.
    fn row(&self, state: usize) -> StateRow
        ensures { table_state self.now.actions.now self.now.outcomes.now result ≡ state_at (meaning_of self.now) state }
    {
        let no_actions = StateRow::Open(Span::default());
        self.states.get(state).copied().unwrap_or(no_actions)
    }

    // The row of an action; none at an end and past the last action.
    fn action_row(&self, state: usize, action: usize) -> Option<ActionRow>
        ensures { unwrap_or (option_map (table_action self.now.outcomes.now) result) Barred ≡ action_at (meaning_of self.now) state action }
    {
        match self.row(state) {
            StateRow::Open(span) => span.entry(self.actions, action),
            StateRow::End(_) => None,
        }
    }
}

impl WorkModel for TableModel<'_> {
    ghost meaning = { meaning_of };

    fn states(&self) -> usize {
        self.states.len()
    }

    fn is_end(&self, state: usize) -> bool {
        matches!(self.row(state), StateRow::End(_))
    }

    fn end_cost(&self, state: usize) -> u32 {
        match self.row(state) {
            StateRow::End(cost) => cost,
            StateRow::Open(_) => 0,
        }
    }

    fn actions(&self, state: usize) -> usize {
        match self.row(state) {
            StateRow::Open(span) => span.entries(self.actions),
            StateRow::End(_) => 0,
        }
    }

    fn is_free(&self, state: usize, action: usize) -> bool {
        self.action_row(state, action).is_some()
    }

    fn task(&self, state: usize, action: usize) -> u8 {
        self.action_row(state, action).map_or(0, |row| row.task)
    }

    fn outcomes(&self, state: usize, action: usize) -> usize {
        self.action_row(state, action)
            .map_or(0, |row| row.outcomes.entries(self.outcomes))
    }

    fn outcome(&self, state: usize, action: usize, place: usize) -> usize {
        let Some(row) = self.action_row(state, action) else {
            return 0;
        };
        usize::from(row.outcomes.entry(self.outcomes, place).unwrap_or(0))
    }
}
