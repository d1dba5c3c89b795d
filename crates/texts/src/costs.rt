// The lines of best costs.
ghost use Rattle.std.specs.Prelude.{◌≡◌, ◌++◌, IfOk, string_bytes, OnOk};
ghost use Rattle.texts.specs.Texts.{values_of, state_cost_text, best_text};

use cost::Cost;
use std::alloc::{AllocError, Global};

// A line for each state with its cost.
pub fn best(heap: Global, costs: &[Cost]) -> Result<String, AllocError>
    ensures { IfOk result (λ t. string_bytes t ≡ best_text 0 (values_of costs.now)) }
{
    let mut lines = String::new(heap);
    for (state, cost) in costs.iter().enumerate() {
        write_cost(&mut lines, state, *cost)?;
    }
    Ok(lines)
}

// Adds the line of a state's cost.
fn write_cost(lines: &mut String, state: usize, cost: Cost) -> Result<(), AllocError>
    ensures { OnOk result (string_bytes lines.new ≡ string_bytes lines.old ++ state_cost_text state cost.value) }
{
    writeln!(lines, "{state} {cost}")
}
