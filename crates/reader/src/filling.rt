// Writing what all fields say.
ghost use Rattle.std.specs.Prelude.{◌≡◌, List};
ghost use Rattle.cost.specs.Prices.{figures};
ghost use Rattle.sheet.specs.Blocks.{Block, blocks_bytes};
ghost use Rattle.sheet.specs.Stages.{beginning, Right};
ghost use Rattle.reader.specs.Puts.{Filled};

use crate::putting::{put_action, put_outcomes, put_price, put_state};
use crate::steps::next_field;
use cost::PriceList;
use sheet::Due;
use table::{ActionRow, StateRow};

// Writes what the fields of a sheet say, of which nothing is wrong. The lists stay apart, as `read` is
// handed them one by one.
pub(crate) fn fill(
    sheet: &[u8],
    states: &mut [StateRow],
    actions: &mut [ActionRow],
    outcomes: &mut [u16],
    prices: &mut PriceList,
)
    ensures { (fs : List Block) → sheet.now ≡ blocks_bytes fs → Right beginning fs → Filled fs states.old actions.old outcomes.old states.new actions.new outcomes.new (figures prices.new) }
{
    *prices = PriceList::new();
    let mut due = Due::start();
    let mut rest = sheet;
    // Nothing is wrong here, so no place is told.
    while let Ok(next) = next_field(rest, &due, 0) {
        put_state(next.field, &due, states);
        put_action(next.field, &due, actions);
        put_outcomes(next.field, &due, outcomes);
        put_price(next.field, prices);
        due = next.due;
        rest = next.rest;
    }
}
