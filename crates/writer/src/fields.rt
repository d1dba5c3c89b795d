// Writing the fields of prices, states and actions.
ghost use Rattle.std.specs.Prelude.{◌≡◌, [], ◌∷◌};
ghost use Rattle.std.specs.List.{flat_map};
ghost use Rattle.cost.specs.Prices.{figures};
ghost use Rattle.model.specs.Meaning.{actions, outcomes, state_at, action_at};
ghost use Rattle.model.specs.Reading.{Opens};
ghost use Rattle.sheet.specs.Blocks.{block, two, four, blocks_bytes};
ghost use Rattle.sheet.specs.Sheets.{action_fields, state_fields, price_field, price_fields};
ghost use Rattle.writer.specs.Puts.{Puts};

use crate::places::Page;
use cost::PriceList;
use model::{Model, outcomes_of};

// Writes the prices of all tasks.
pub(crate) fn put_prices(page: &mut Page<'_>, prices: &PriceList)
    ensures { Puts page.old page.new (blocks_bytes (price_fields 0 (figures prices.now))) }
{
    let prices = prices.as_slice();
    for (task, price) in prices.iter().enumerate() {
        put_price(page, task as u8, price.get());
    }
}

// Writes a task and its price, unless the price is 1.
fn put_price(page: &mut Page<'_>, task: u8, price: u16)
    ensures { Puts page.old page.new (blocks_bytes (price_field task price)) }
{
    if price != 1 {
        page.put_head(2, 3);
        page.put(task);
        page.put_two(price);
    }
}

// Writes all states, each with its actions.
pub(crate) fn put_states<M: Model>(page: &mut Page<'_>, model: &M)
    requires { Opens (M.Model.meaning model.now) }
    ensures { Puts page.old page.new (blocks_bytes (flat_map state_fields (M.Model.meaning model.now))) }
{
    for state in 0..model.states() {
        put_state(page, model, state);
    }
}

// Writes a state and its actions.
fn put_state<M: Model>(page: &mut Page<'_>, model: &M, state: usize)
    requires { Opens (M.Model.meaning model.now) }
    ensures { Puts page.old page.new (blocks_bytes (state_fields (state_at (M.Model.meaning model.now) state))) }
{
    if model.is_end(state) {
        put_end(page, model.end_cost(state));
    } else {
        page.put_head(4, 0);
        put_actions(page, model, state);
    }
}

// Writes an end of some cost.
fn put_end(page: &mut Page<'_>, cost: u32)
    ensures { Puts page.old page.new (blocks_bytes (block 3 (four cost) ∷ [])) }
{
    page.put_head(3, 4);
    page.put_four(cost);
}

// Writes the actions of a state.
fn put_actions<M: Model>(page: &mut Page<'_>, model: &M, state: usize)
    requires { Opens (M.Model.meaning model.now) }
    ensures { Puts page.old page.new (blocks_bytes (flat_map action_fields (actions (state_at (M.Model.meaning model.now) state)))) }
{
    for action in 0..model.actions(state) {
        put_action(page, model, state, action);
    }
}

// Writes an action, unless it is barred. A model, a state and an action go together as its questions
// ask for them, and a struct of the three would be taken apart by each.
#[tactic(auto, using(crate::proofs::Limits::outcomes_few))]
fn put_action<M: Model>(page: &mut Page<'_>, model: &M, state: usize, action: usize)
    requires { Opens (M.Model.meaning model.now) }
    ensures { Puts page.old page.new (blocks_bytes (action_fields (action_at (M.Model.meaning model.now) state action))) }
{
    if model.is_free(state, action) {
        page.put_head(5, 1 + 2 * model.outcomes(state, action) as u16);
        page.put(model.task(state, action));
        put_outcomes(page, model, state, action);
    }
}

// Writes the outcomes of an action.
fn put_outcomes<M: Model>(page: &mut Page<'_>, model: &M, state: usize, action: usize)
    requires { Opens (M.Model.meaning model.now) }
    ensures { Puts page.old page.new (flat_map two (outcomes (action_at (M.Model.meaning model.now) state action))) }
{
    for outcome in outcomes_of(model, state, action) {
        page.put_two(outcome as u16);
    }
}
