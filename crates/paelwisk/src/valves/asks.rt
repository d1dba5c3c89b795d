// What is asked after the states: prices that are set, and best costs that are told.
ghost use Rattle.std.specs.Prelude.{◌≡◌, ℕ, ◌<◌, ◌≤◌, ◌++◌, length, string_bytes, OnOk};
ghost use Rattle.std.specs.List.{flat_map};
ghost use Rattle.cost.specs.Prices.{figures};
ghost use Rattle.model.specs.Reading.{Opens};
ghost use Rattle.plan.specs.Bests.{Best};
ghost use Rattle.plan.specs.Bounds.{bounds_of};
ghost use Rattle.valve.specs.Valves.{meaning_of};
ghost use Rattle.paelwisk.specs.Asks.{best_text, AllBest, Replied};

use crate::names::RuleName;
use cost::{Cost, Largest, Price, PriceList, Rule, Sum, Task};
use plan::{Problem, bound};
use std::alloc::AllocError;
use valve::ValveModel;

// A task's price that is set, or the best costs of all states by a rule.
#[derive(Clone, Copy, PartialEq, Eq, Debug)]
pub enum Ask {
    Price(Task, Price),
    Best(RuleName),
}

// Adds the lines of what is asked; all prices are 1 at the start.
pub(super) fn write_all(
    lines: &mut String,
    model: &ValveModel,
    states: &[usize],
    asks: &[Ask],
    costs: &mut [Cost],
) -> Result<(), AllocError>
    requires opens { Opens (meaning_of model.now) }
    requires room { length (meaning_of model.now) ≤ length costs.old }
    ensures { OnOk result (Replied (meaning_of model.now) states.now asks.now (string_bytes lines.old) (string_bytes lines.new)) }
{
    let mut prices = PriceList::new();
    for ask in asks {
        match *ask {
            Ask::Price(task, price) => prices.set(task, price),
            Ask::Best(rule) => {
                set_bests(model, rule, &prices, costs);
                write_bests(lines, rule, states, costs)?;
            }
        }
    }
    Ok(())
}

// Writes the best cost of every state to a list that has room for all.
fn set_bests(model: &ValveModel, rule: RuleName, prices: &PriceList, costs: &mut [Cost])
    requires opens { Opens (meaning_of model.now) }
    requires room { length (meaning_of model.now) ≤ length costs.old }
    ensures { AllBest (meaning_of model.now) rule (figures prices.now) (bounds_of costs.new) }
{
    // A rule's function belongs to its type, so each arm calls an instance of its own.
    match rule {
        RuleName::Largest => set_bests_by(model, &Largest, prices, costs),
        RuleName::Sum => set_bests_by(model, &Sum, prices, costs),
    }
}

// Writes the best cost of every state by a rule.
fn set_bests_by<R: Rule>(model: &ValveModel, rule: &R, prices: &PriceList, costs: &mut [Cost])
    requires opens { Opens (meaning_of model.now) }
    requires room { length (meaning_of model.now) ≤ length costs.old }
    ensures { (s : ℕ) → s < length (meaning_of model.now) → Best (meaning_of model.now) R.Rule.value (figures prices.now) s (bounds_of costs.new s) }
{
    let problem = Problem {
        model,
        rule,
        prices,
    };
    problem.best_costs(costs).unwrap();
}

// Adds a line with the cost of each state.
fn write_bests(
    lines: &mut String,
    rule: RuleName,
    states: &[usize],
    costs: &[Cost],
) -> Result<(), AllocError>
    ensures { OnOk result (string_bytes lines.new ≡ string_bytes lines.old ++ flat_map (λ s. best_text rule s (bounds_of costs.now s)) states.now) }
{
    for state in states {
        write_best(lines, rule, *state, bound(costs, *state))?;
    }
    Ok(())
}

// Adds the line of a state's best cost.
fn write_best(
    lines: &mut String,
    rule: RuleName,
    state: usize,
    cost: Cost,
) -> Result<(), AllocError>
    ensures { OnOk result (string_bytes lines.new ≡ string_bytes lines.old ++ best_text rule state cost.value) }
{
    writeln!(lines, "best {rule} state {state} {cost}")
}
