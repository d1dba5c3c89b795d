// What is told of a sheet.
ghost use Rattle.std.specs.Prelude.{string_bytes, MatchResult};
ghost use Rattle.transfer.specs.Loads.{NotLoaded};
ghost use Rattle.texts.specs.Tellings.{Shows, TellsBest};

use crate::costs::best;
use crate::showing::show;
use cost::{Cost, Rule};
use plan::Problem;
use std::alloc::Global;
use transfer::{TransferFault, load};

// The model and the prices of a sheet.
pub fn show_sheet(heap: Global, sheet: &[u8]) -> Result<String, TransferFault>
    ensures { MatchResult result (λ t. Shows sheet.now (string_bytes t)) (NotLoaded sheet.now) }
{
    let loaded = load(heap, sheet)?;
    Ok(show(heap, &loaded.model(), &loaded.prices)?)
}

// The best cost of every state of a sheet's model, at the sheet's prices.
pub fn best_sheet<R: Rule>(heap: Global, sheet: &[u8], rule: &R) -> Result<String, TransferFault>
    ensures { MatchResult result (λ t. TellsBest sheet.now R.Rule.value (string_bytes t)) (NotLoaded sheet.now) }
{
    let loaded = load(heap, sheet)?;
    let mut costs = vec![in heap; Cost::new(0); loaded.states.len()]?;
    let model = loaded.model();
    let problem = Problem {
        model: &model,
        rule,
        prices: &loaded.prices,
    };
    problem.best_costs(&mut costs).unwrap();
    Ok(best(heap, &costs)?)
}
