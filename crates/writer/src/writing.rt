// Writing a whole sheet.
ghost use Rattle.std.specs.Prelude.{◌≡◌, length, MatchResult};
ghost use Rattle.std.specs.Result.{result_err};
ghost use Rattle.cost.specs.Prices.{figures};
ghost use Rattle.model.specs.Reading.{Opens};
ghost use Rattle.table.specs.Tables.{meaning_of};
ghost use Rattle.sheet.specs.Sheets.{sheet_of};
ghost use Rattle.writer.specs.Puts.{over, Counts};
ghost use Rattle.writer.specs.Writing.{write_fault, Written};

use crate::faults::WriteFault;
use crate::fields::{put_prices, put_states};
use crate::places::Page;
use cost::PriceList;
use model::{Model, check};
use sheet::SheetFault;
use table::TableModel;

// Writes the sheet of a model and its prices to the first bytes, tells how many those are, and
// leaves the others. Where it refuses it leaves all bytes.
pub fn write(
    model: &TableModel<'_>,
    prices: &PriceList,
    bytes: &mut [u8],
) -> Result<usize, WriteFault>
    ensures fault { result_err result ≡ write_fault (meaning_of model.now) (figures prices.now) (length bytes.old) }
    ensures written { MatchResult result (λ n. Written (meaning_of model.now) (figures prices.now) n bytes.old bytes.new) (λ _. bytes.new ≡ bytes.old) }
{
    check(model)?;
    // With no bytes to write to, the sheet is only counted.
    let size = put_sheet(model, prices, &mut []);
    if bytes.len() < size {
        return Err(SheetFault::Short(0).into());
    }
    if 65_536 < size {
        return Err(SheetFault::Ends(65_536).into());
    }
    Ok(put_sheet(model, prices, bytes))
}

// Writes the sheet of a model and its prices as far as there are bytes, and tells how long it is.
fn put_sheet<M: Model>(model: &M, prices: &PriceList, bytes: &mut [u8]) -> usize
    requires { Opens (M.Model.meaning model.now) }
    ensures written { bytes.new ≡ over bytes.old 0 (sheet_of (M.Model.meaning model.now) (figures prices.now)) }
    ensures counted { Counts result (length (sheet_of (M.Model.meaning model.now) (figures prices.now))) }
{
    let mut page = Page::new(bytes);
    page.put_head(1, 2);
    page.put_two(model.states() as u16);
    put_prices(&mut page, prices);
    put_states(&mut page, model);
    page.count()
}
