// A sheet read and written again, and a model written and read again.
ghost use Rattle.std.specs.Prelude.{◌≡◌, length, MatchResult};
ghost use Rattle.cost.specs.Prices.{figures};
ghost use Rattle.table.specs.Tables.{meaning_of};
ghost use Rattle.transfer.specs.Loads.{BytesLeft, Carries, NotCarried, NotLoaded, Same};

use crate::faults::TransferFault;
use crate::loading::{Loaded, load};
use cost::PriceList;
use std::alloc::Global;
use table::TableModel;
use writer::write;

// Reads a sheet and writes it again: the copy has its bytes.
pub fn copy_sheet(heap: Global, sheet: &[u8]) -> Result<Vec<u8>, TransferFault>
    ensures { MatchResult result (λ copy. copy.items ≡ sheet.now) (NotLoaded sheet.now) }
{
    let loaded = load(heap, sheet)?;
    let mut copy = vec![in heap; 0; sheet.len()]?;
    write(&loaded.model(), &loaded.prices, &mut copy)?;
    Ok(copy)
}

// Writes a model with its prices as a sheet, to bytes that are handed in, and reads it again: it is
// the same model, at the same prices.
pub fn copy_model(
    heap: Global,
    model: &TableModel<'_>,
    prices: &PriceList,
    bytes: &mut [u8],
) -> Result<Loaded, TransferFault>
    ensures same { MatchResult result (Same (meaning_of model.now) (figures prices.now)) (NotCarried (meaning_of model.now) (figures prices.now) (length bytes.old)) }
    ensures bytes { MatchResult result (λ _. Carries (meaning_of model.now) (figures prices.now) bytes.old bytes.new) (BytesLeft (meaning_of model.now) (figures prices.now) bytes.old bytes.new) }
{
    let size = write(model, prices, bytes)?;
    load(heap, &bytes[0..size])
}
