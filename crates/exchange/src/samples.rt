// A sheet that the tests share, and tables to read into. Rows and prices are made here once more, since
// tests of one crate cannot be lent to another.
use cost::{Price, PriceList, Task};
use reader::{Size, read};
use sheet::SheetFault;
use std::alloc::{AllocError, Global};
use std::process::Abort;
use std::test::*;
use table::{ActionRow, Span, StateRow, TableModel};
use writer::{WriteFault, write};

// Two open states that lead to each other and to an end of cost 4, and one without actions.
pub const EXAMPLE: [u8; 63] = [
    1, 0, 2, 0, 4, 2, 0, 3, 1, 0, 2, 2, 0, 3, 2, 0, 5, 4, 0, 0, 5, 0, 5, 0, 0, 0, 0, 2, 5, 0, 5, 1,
    0, 1, 0, 2, 4, 0, 0, 5, 0, 5, 0, 0, 0, 0, 2, 5, 0, 3, 2, 0, 2, 3, 0, 4, 0, 0, 0, 4, 4, 0, 0,
];

// What stands in the tables before anything is read.
const END: StateRow = StateRow::End(77);

const ACTION: ActionRow = ActionRow {
    task: 99,
    outcomes: Span {
        first: 88,
        count: 77,
    },
};

const OUTCOME: u16 = 999;

const PRICE: u16 = 7;

// What a list of bytes holds before anything is written.
pub const BYTE: u8 = 9;

pub(crate) fn span(first: u32, count: u32) -> Span {
    Span { first, count }
}

pub(crate) fn action(task: u8, first: u32, count: u32) -> ActionRow {
    ActionRow {
        task,
        outcomes: span(first, count),
    }
}

pub(crate) fn size(states: usize, actions: usize, outcomes: usize) -> Size {
    Size {
        states,
        actions,
        outcomes,
    }
}

// The list of these prices.
pub(crate) fn priced(figures: &[u16; 64]) -> PriceList {
    let mut prices = PriceList::new();
    for (number, figure) in (0..64).zip(figures) {
        if let Some(task) = Task::new(number)
            && let Some(price) = Price::new(*figure)
        {
            prices.set(task, price);
        }
    }
    prices
}

// All prices of a list.
pub(crate) fn figures(prices: &PriceList) -> [u16; 64] {
    let mut figures = [0; 64];
    for (figure, price) in figures.iter_mut().zip(prices.as_slice()) {
        *figure = price.get();
    }
    figures
}

// Three tables and a list of prices.
#[derive(Clone, Copy, PartialEq, Eq, Debug)]
pub struct Tables {
    pub states: [StateRow; 20],
    pub actions: [ActionRow; 20],
    pub outcomes: [u16; 20],
    pub prices: [u16; 64],
}

impl Tables {
    // Tables into which nothing was read.
    pub fn unread() -> Tables {
        Tables {
            states: [END; 20],
            actions: [ACTION; 20],
            outcomes: [OUTCOME; 20],
            prices: [PRICE; 64],
        }
    }

    // Reads a sheet into as many first entries of each table as a size says.
    pub fn read_within(&mut self, sheet: &[u8], room: Size) -> Result<Size, SheetFault> {
        let mut prices = priced(&self.prices);
        let answer = read(
            sheet,
            &mut self.states[0..room.states.min(20)],
            &mut self.actions[0..room.actions.min(20)],
            &mut self.outcomes[0..room.outcomes.min(20)],
            &mut prices,
        );
        self.prices = figures(&prices);
        answer
    }

    pub fn read(&mut self, sheet: &[u8]) -> Result<Size, SheetFault> {
        self.read_within(sheet, size(20, 20, 20))
    }

    // Writes the sheet of the first states.
    pub fn write(&self, states: usize, bytes: &mut [u8]) -> Result<usize, WriteFault> {
        let model = TableModel {
            states: &self.states[0..states.min(20)],
            actions: &self.actions,
            outcomes: &self.outcomes,
        };
        write(&model, &priced(&self.prices), bytes)
    }
}

// Whether some bytes are refused by a fault, and nothing is changed by them.
pub(crate) fn check_refused(rt: &impl Abort, sheet: &[u8], fault: SheetFault) -> Result<(), Fail> {
    let mut tables = Tables::unread();
    assert_eq!(rt; tables.read(sheet), Err(fault));
    assert_eq!(rt; tables, Tables::unread());
    Ok(())
}

// Whether a sheet has a size, and is written back to the same bytes with the bytes past it left.
pub(crate) fn check_round(rt: &impl Abort, sheet: &[u8], size: Size) -> Result<Tables, Fail> {
    let mut tables = Tables::unread();
    assert_eq!(rt; tables.read(sheet), Ok(size));
    let mut bytes = [BYTE; 200];
    assert_eq!(rt; tables.write(size.states, &mut bytes), Ok(sheet.len()));
    assert_eq!(rt; bytes.get(0..sheet.len()), Some(sheet));
    assert!(rt; bytes.iter().skip(sheet.len()).all(|byte| *byte == BYTE));
    Ok(tables)
}

// Some bytes, and then others many times.
pub(crate) fn repeated(
    heap: Global,
    first: &[u8],
    others: &[u8],
    times: usize,
) -> Result<Vec<u8>, AllocError> {
    let mut bytes = Vec::new(heap);
    bytes.extend_from_slice(first)?;
    for _ in 0..times {
        bytes.extend_from_slice(others)?;
    }
    Ok(bytes)
}
