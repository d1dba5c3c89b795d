// The lines of a model and of the prices.
ghost use Rattle.std.specs.Prelude.{◌≡◌, ◌++◌, IfOk, string_bytes, OnOk};
ghost use Rattle.cost.specs.Prices.{figures};
ghost use Rattle.model.specs.Meaning.{state_at, action_at, actions, outcomes};
ghost use Rattle.table.specs.Tables.{meaning_of};
ghost use Rattle.texts.specs.Texts.{numbered, price_text, outcomes_text, action_text, state_text, show_text};

use cost::PriceList;
use model::{Model, outcomes_of};
use std::alloc::{AllocError, Global};
use table::TableModel;

// The number of states, the prices other than 1, and the states with their actions.
pub fn show(heap: Global, model: &TableModel<'_>, prices: &PriceList) -> Result<String, AllocError>
    ensures { IfOk result (λ t. string_bytes t ≡ show_text (meaning_of model.now) (figures prices.now)) }
{
    let mut lines = String::new(heap);
    let states = model.states();
    writeln!(lines, "states {states}")?;
    write_prices(&mut lines, prices)?;
    write_states(&mut lines, model)?;
    Ok(lines)
}

// Adds a line for each task whose price is not 1.
fn write_prices(lines: &mut String, prices: &PriceList) -> Result<(), AllocError>
    ensures { OnOk result (string_bytes lines.new ≡ string_bytes lines.old ++ numbered price_text 0 (figures prices.now)) }
{
    for (task, price) in prices.as_slice().iter().enumerate() {
        write_price(lines, task, price.get())?;
    }
    Ok(())
}

// Adds the line of a task's price, unless the price is 1.
fn write_price(lines: &mut String, task: usize, price: u16) -> Result<(), AllocError>
    ensures { OnOk result (string_bytes lines.new ≡ string_bytes lines.old ++ price_text task price) }
{
    if price != 1 {
        writeln!(lines, "task {task} price {price}")?;
    }
    Ok(())
}

// Adds the lines of all states.
fn write_states<M: Model>(lines: &mut String, model: &M) -> Result<(), AllocError>
    ensures { OnOk result (string_bytes lines.new ≡ string_bytes lines.old ++ numbered state_text 0 (M.Model.meaning model.now)) }
{
    for state in 0..model.states() {
        write_state(lines, model, state)?;
    }
    Ok(())
}

// Adds the lines of a state.
fn write_state<M: Model>(lines: &mut String, model: &M, state: usize) -> Result<(), AllocError>
    ensures { OnOk result (string_bytes lines.new ≡ string_bytes lines.old ++ state_text state (state_at (M.Model.meaning model.now) state)) }
{
    if model.is_end(state) {
        let cost = model.end_cost(state);
        writeln!(lines, "{state} end {cost}")
    } else {
        writeln!(lines, "{state} open")?;
        write_actions(lines, model, state)
    }
}

// Adds a line for each action of a state.
fn write_actions<M: Model>(lines: &mut String, model: &M, state: usize) -> Result<(), AllocError>
    ensures { OnOk result (string_bytes lines.new ≡ string_bytes lines.old ++ numbered (action_text state) 0 (actions (state_at (M.Model.meaning model.now) state))) }
{
    for action in 0..model.actions(state) {
        write_action(lines, model, state, action)?;
    }
    Ok(())
}

// Adds the line of an action. A model, a state and an action go together as its questions ask for them.
fn write_action<M: Model>(
    lines: &mut String,
    model: &M,
    state: usize,
    action: usize,
) -> Result<(), AllocError>
    ensures { OnOk result (string_bytes lines.new ≡ string_bytes lines.old ++ action_text state action (action_at (M.Model.meaning model.now) state action)) }
{
    if model.is_free(state, action) {
        let task = model.task(state, action);
        write!(lines, "{state}.{action} task {task} ->")?;
        write_outcomes(lines, model, state, action)
    } else {
        writeln!(lines, "{state}.{action} barred")
    }
}

// Adds the outcomes of an action and the end of its line.
fn write_outcomes<M: Model>(
    lines: &mut String,
    model: &M,
    state: usize,
    action: usize,
) -> Result<(), AllocError>
    ensures { OnOk result (string_bytes lines.new ≡ string_bytes lines.old ++ outcomes_text (outcomes (action_at (M.Model.meaning model.now) state action))) }
{
    for outcome in outcomes_of(model, state, action) {
        write!(lines, " {outcome}")?;
    }
    writeln!(lines)
}
