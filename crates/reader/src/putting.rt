// Writing what one field says.
ghost use Rattle.std.specs.Prelude.{◌≡◌, ◌≤◌, length, slice_set};
ghost use Rattle.cost.specs.Prices.{figures};
ghost use Rattle.sheet.specs.Blocks.{shown, body_of};
ghost use Rattle.sheet.specs.Stages.{Stage, stage};
ghost use Rattle.reader.specs.Puts.{put_state, put_action, put_outcomes, put_price};

use cost::{Price, PriceList, Task};
use sheet::bodies::{byte_at, end_cost_in, outcomes_in, pair_at, places_in};
use sheet::{Due, Field};
use table::{ActionRow, Span, StateRow};

// Writes one entry of a list; past its end nothing is written.
fn put_at<T: Copy>(list: &mut [T], place: usize, entry: T)
    ensures { list.new ≡ slice_set list.old place entry }
{
    // After get_mut of a slice a proof knows its length and no entry, so the place is tested.
    if place < list.len() {
        list[place] = entry;
    }
}

// Writes a state, or one action more of the latest state.
pub(crate) fn put_state(field: Field<'_>, due: &Due, states: &mut [StateRow])
    ensures { states.new ≡ put_state (stage due.now) (shown field.entry) states.old }
{
    match field {
        Field::End(body) => put_at(states, due.states, StateRow::End(end_cost_in(body))),
        Field::Open(_) => {
            let none = Span {
                first: due.actions as u32,
                count: 0,
            };
            put_at(states, due.states, StateRow::Open(none));
        }
        Field::Action(_) => {
            let earlier = 16 - due.room;
            let one_more = Span {
                first: due.actions.saturating_sub(earlier) as u32,
                count: earlier as u32 + 1,
            };
            put_at(
                states,
                due.states.saturating_sub(1),
                StateRow::Open(one_more),
            );
        }
        Field::States(_) | Field::Price(_) => {}
    }
}

// Writes an action.
pub(crate) fn put_action(field: Field<'_>, due: &Due, actions: &mut [ActionRow])
    requires { length (body_of (shown field)) ≤ 33 }
    ensures { actions.new ≡ put_action (stage due.now) (shown field.entry) actions.old }
{
    if let Field::Action(body) = field {
        let outcomes = Span {
            first: due.outcomes as u32,
            count: places_in(body) as u32,
        };
        let task = byte_at(body, 0);
        put_at(actions, due.actions, ActionRow { task, outcomes });
    }
}

// Writes the outcomes of an action.
pub(crate) fn put_outcomes(field: Field<'_>, due: &Due, outcomes: &mut [u16])
    requires { length (body_of (shown field)) ≤ 33 }
    ensures { outcomes.new ≡ put_outcomes (stage due.now) (shown field.entry) outcomes.old }
{
    if let Field::Action(body) = field {
        for (place, outcome) in outcomes_in(body).iter().enumerate() {
            put_at(outcomes, due.outcomes + place, u16::from_be_bytes(*outcome));
        }
    }
}

// Writes the price of a task.
pub(crate) fn put_price(field: Field<'_>, prices: &mut PriceList)
    ensures { (d : Stage) → figures prices.new ≡ put_price d (shown field.entry) (figures prices.old) }
{
    if let Field::Price(body) = field
        && let Some(task) = Task::new(byte_at(body, 0))
        && let Some(price) = Price::new(pair_at(body, 1))
    {
        prices.set(task, price);
    }
}
