// Checking a whole sheet before anything is written.
ghost use Rattle.std.specs.Result.{MatchResult};
ghost use Rattle.sheet.specs.Stages.{stage};
ghost use Rattle.sheet.specs.Wrongs.{Wrong};
ghost use Rattle.reader.specs.Reads.{Whole};

use crate::steps::next_field;
use sheet::{Due, SheetFault};

// The largest number of bytes that a sheet has.
const MOST_BYTES: usize = 65_536;

// What is known after all fields of a sheet, or the first thing that is wrong with it.
pub(crate) fn check(sheet: &[u8]) -> Result<Due, SheetFault>
    ensures { MatchResult result (λ d. Whole sheet.now (stage d)) (Wrong sheet.now) }
{
    if MOST_BYTES < sheet.len() {
        return Err(SheetFault::Ends(MOST_BYTES));
    }
    let mut due = Due::start();
    let mut rest = sheet;
    // The stage and the rest go on together here and in `fill`: a struct of both would be taken apart
    // again by each, since the one stops at a fault and the other writes.
    while !rest.is_empty() {
        let next = next_field(rest, &due, sheet.len() - rest.len())?;
        due = next.due;
        rest = next.rest;
    }
    if due.is_whole() {
        Ok(due)
    } else {
        Err(SheetFault::Ends(sheet.len()))
    }
}
