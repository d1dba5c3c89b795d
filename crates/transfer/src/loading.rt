// A sheet that was read into tables of its own.
ghost use Rattle.std.specs.Prelude.{◌≡◌, MatchResult};
ghost use Rattle.table.specs.Tables.{meaning_of};
ghost use Rattle.transfer.specs.Loads.{loaded_model, Loads, NotLoaded};

use crate::faults::TransferFault;
use cost::PriceList;
use reader::{measure, read};
use std::alloc::Global;
use table::{ActionRow, Span, StateRow, TableModel};

// The tables and the prices of a sheet.
#[derive(Drop)]
pub struct Loaded {
    pub states: Vec<StateRow>,
    pub actions: Vec<ActionRow>,
    pub outcomes: Vec<u16>,
    pub prices: PriceList,
}

// Reads a sheet into tables of the size that it needs.
pub fn load(heap: Global, sheet: &[u8]) -> Result<Loaded, TransferFault>
    ensures { MatchResult result (Loads sheet.now) (NotLoaded sheet.now) }
{
    let size = measure(sheet)?;
    let mut states = vec![in heap; StateRow::Open(Span::default()); size.states]?;
    let mut actions = vec![in heap; ActionRow {
        task: 0,
        outcomes: Span::default()
    }; size.actions]?;
    let mut outcomes = vec![in heap; 0; size.outcomes]?;
    let mut prices = PriceList::new();
    read(sheet, &mut states, &mut actions, &mut outcomes, &mut prices)?;
    Ok(Loaded {
        states,
        actions,
        outcomes,
        prices,
    })
}

impl Loaded {
    // The model in the tables.
    pub fn model(&self) -> TableModel<'_>
        ensures { meaning_of result ≡ loaded_model self.now }
    {
        TableModel {
            states: &self.states,
            actions: &self.actions,
            outcomes: &self.outcomes,
        }
    }
}
