// Sheets that are read and written back to the same bytes.
use crate::samples::{BYTE, EXAMPLE, Tables, action, check_round, priced, size, span};
use sheet::SheetFault;
use std::process::Abort;
use std::test::*;
use table::{StateRow, TableModel};
use writer::write;

// What reading the ring leaves in tables.
fn ring_tables() -> Tables {
    let mut tables = Tables::unread();
    tables.states[..4].copy_from_slice(&[
        StateRow::Open(span(0, 2)),
        StateRow::Open(span(2, 2)),
        StateRow::End(4),
        StateRow::Open(span(4, 0)),
    ]);
    tables.actions[..4].copy_from_slice(&[
        action(0, 0, 2),
        action(1, 2, 2),
        action(0, 4, 2),
        action(2, 6, 1),
    ]);
    tables.outcomes[..7].copy_from_slice(&[0, 2, 1, 2, 0, 2, 2]);
    tables.prices = ring_prices();
    tables
}

fn ring_prices() -> [u16; 64] {
    let mut prices = [1; 64];
    prices[1] = 2;
    prices[2] = 5;
    prices
}

#[test]
fn a_ring_is_read_and_written_back(rt: HostRuntime) -> Result<(), Fail> {
    let tables = check_round(&rt, &EXAMPLE, size(4, 4, 7))?;
    assert_eq!(rt; tables, ring_tables());
    Ok(())
}

#[test]
fn other_tables_of_a_ring_have_its_sheet(rt: HostRuntime) -> Result<(), Fail> {
    let states = [
        StateRow::Open(span(4, 2)),
        StateRow::Open(span(1, 2)),
        StateRow::End(4),
        StateRow::Open(span(5, 3)),
    ];
    let actions = [
        action(64, 0, 0),
        action(0, 4, 2),
        action(2, 5, 1),
        action(9, 9, 9),
        action(0, 4, 2),
        action(1, 1, 2),
    ];
    let model = TableModel {
        states: &states,
        actions: &actions,
        outcomes: &[7, 1, 2, 9, 0, 2],
    };
    let mut bytes = [BYTE; 63];
    assert_eq!(rt; write(&model, &priced(&ring_prices()), &mut bytes), Ok(63));
    assert_eq!(rt; bytes, EXAMPLE);
    Ok(())
}

// How many sheets were accepted, and how many were refused by each fault.
#[derive(Clone, Copy, PartialEq, Eq, Debug)]
struct Tally {
    accepted: u32,
    ends: u32,
    tags: u32,
    lengths: u32,
    values: u32,
}

// Reads a sheet of 63 bytes; where it is accepted, it is written back to the same bytes.
fn tally_sheet(rt: &impl Abort, sheet: &[u8; 63], tally: &mut Tally) -> Result<(), Fail> {
    let mut tables = Tables::unread();
    match tables.read(sheet) {
        Ok(size) => {
            let mut bytes = [BYTE; 63];
            assert_eq!(rt; tables.write(size.states, &mut bytes), Ok(63));
            assert_eq!(rt; bytes, *sheet);
            tally.accepted = tally.accepted.saturating_add(1);
        }
        Err(SheetFault::Ends(_)) => tally.ends = tally.ends.saturating_add(1),
        Err(SheetFault::Tag(_)) => tally.tags = tally.tags.saturating_add(1),
        Err(SheetFault::Length(_)) => tally.lengths = tally.lengths.saturating_add(1),
        Err(SheetFault::Value(_)) => tally.values = tally.values.saturating_add(1),
        Err(SheetFault::Short(_)) => return Err(Fail::new("the tables were too short")),
    }
    Ok(())
}

#[test]
fn each_change_of_one_byte_is_refused_or_written_back(rt: HostRuntime) -> Result<(), Fail> {
    let mut tally = Tally {
        accepted: 0,
        ends: 0,
        tags: 0,
        lengths: 0,
        values: 0,
    };
    for place in 0..63 {
        let mut sheet = EXAMPLE;
        for step in 1..=255u8 {
            sheet[place] = EXAMPLE[place].wrapping_add(step);
            tally_sheet(&rt, &sheet, &mut tally)?;
        }
    }
    let expected = Tally {
        accepted: 1434,
        ends: 5535,
        tags: 2787,
        lengths: 320,
        values: 5989,
    };
    assert_eq!(rt; tally, expected);
    Ok(())
}
