// Reading a sheet into tables.
ghost use Rattle.std.specs.Prelude.{◌≡◌, MatchResult, OnErr};
ghost use Rattle.cost.specs.Prices.{figures};
ghost use Rattle.sheet.specs.Stages.{stage};
ghost use Rattle.sheet.specs.Wrongs.{Wrong};
ghost use Rattle.reader.specs.Reads.{Measures, Refuses, ReadInto, room_of, tables};

use crate::checking::check;
use crate::filling::fill;
use crate::sizes::Size;
use cost::PriceList;
use sheet::SheetFault;
use table::{ActionRow, StateRow};

// How large the model of a sheet is, and so the tables that it can be read into.
pub fn measure(sheet: &[u8]) -> Result<Size, SheetFault>
    ensures { MatchResult result (Measures sheet.now) (Wrong sheet.now) }
{
    let due = check(sheet)?;
    Ok(Size::from(due))
}

// Reads a sheet into three tables and a price list. The states are the first rows of their table;
// entries past what the model has stay as they were. A refused sheet changes nothing. The lists stay
// apart: a struct that lends four of them says in its clauses which loan is which, and is no plainer.
pub fn read(
    sheet: &[u8],
    states: &mut [StateRow],
    actions: &mut [ActionRow],
    outcomes: &mut [u16],
    prices: &mut PriceList,
) -> Result<Size, SheetFault>
    ensures read { MatchResult result (λ size. ReadInto sheet.now size (tables states.old actions.old outcomes.old (figures prices.old)) (tables states.new actions.new outcomes.new (figures prices.new))) (λ fault. Refuses sheet.now (room_of (tables states.old actions.old outcomes.old (figures prices.old))) fault) }
    ensures refused { OnErr result ((states.new ≡ states.old) × (actions.new ≡ actions.old) × (outcomes.new ≡ outcomes.old) × (prices.new ≡ prices.old)) }
{
    let due = check(sheet)?;
    if states.len() < due.states {
        return Err(SheetFault::Short(0));
    }
    if actions.len() < due.actions {
        return Err(SheetFault::Short(1));
    }
    if outcomes.len() < due.outcomes {
        return Err(SheetFault::Short(2));
    }
    fill(sheet, states, actions, outcomes, prices);
    Ok(Size::from(due))
}
