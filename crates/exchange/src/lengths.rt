// The longest sheet, and those with more states or more bytes.
use crate::samples::{BYTE, action, repeated, size, span};
use cost::PriceList;
use reader::{Size, read};
use sheet::SheetFault;
use std::alloc::Global;
use std::process::Abort;
use std::test::*;
use table::{StateRow, TableModel};
use writer::{WriteFault, write};

// An open state with one action that has six outcomes: 19 bytes.
const STATE: [u8; 19] = [4, 0, 0, 5, 0, 13, 0, 0, 0, 0, 1, 0, 2, 0, 3, 0, 4, 0, 5];

// The answer to a long sheet, which is written back to the same bytes where it is accepted.
fn answer(rt: &impl Abort, heap: Global, sheet: &[u8]) -> Result<Result<Size, SheetFault>, Fail> {
    let mut states = vec![in heap; StateRow::End(0); 4096]?;
    let mut actions = vec![in heap; action(0, 0, 0); 4096]?;
    let mut outcomes = vec![in heap; 0u16; 24576]?;
    let mut prices = PriceList::new();
    let answer = read(sheet, &mut states, &mut actions, &mut outcomes, &mut prices);
    if let Ok(size) = answer {
        let count = size.states;
        assert!(rt; count <= states.len());
        let model = TableModel {
            states: &states[0..count],
            actions: &actions,
            outcomes: &outcomes,
        };
        let mut bytes = vec![in heap; BYTE; 65_536]?;
        assert_eq!(rt; write(&model, &prices, &mut bytes), Ok(sheet.len()));
        assert_eq!(rt; bytes.get(0..sheet.len()), Some(sheet));
    }
    Ok(answer)
}

#[test]
fn a_sheet_has_at_most_65536_bytes(rt: HostRuntime) -> Result<(), Fail> {
    let longest = repeated(rt.alloc(), &[1, 0, 2, 13, 121], &STATE, 3449)?;
    assert_eq!(rt; longest.len(), 65_536);
    assert_eq!(rt;
        answer(&rt, rt.alloc(), &longest)?,
        Ok(size(3449, 3449, 20_694))
    );
    let one_more = repeated(rt.alloc(), &longest, &[4], 1)?;
    assert_eq!(rt;
        answer(&rt, rt.alloc(), &one_more)?,
        Err(SheetFault::Ends(65_536))
    );
    let right_fields = repeated(rt.alloc(), &[1, 0, 2, 13, 122], &STATE, 3450)?;
    assert_eq!(rt;
        answer(&rt, rt.alloc(), &right_fields)?,
        Err(SheetFault::Ends(65_536))
    );
    let zeros = repeated(rt.alloc(), &[], &[0], 65_537)?;
    assert_eq!(rt;
        answer(&rt, rt.alloc(), &zeros)?,
        Err(SheetFault::Ends(65_536))
    );
    let fewer = repeated(rt.alloc(), &[], &[0], 65_536)?;
    assert_eq!(rt; answer(&rt, rt.alloc(), &fewer)?, Err(SheetFault::Tag(0)));
    Ok(())
}

#[test]
fn a_sheet_has_at_most_4096_states(rt: HostRuntime) -> Result<(), Fail> {
    let most = repeated(rt.alloc(), &[1, 0, 2, 16, 0], &[4, 0, 0], 4096)?;
    assert_eq!(rt; answer(&rt, rt.alloc(), &most)?, Ok(size(4096, 0, 0)));
    let one_less = repeated(rt.alloc(), &[1, 0, 2, 16, 0], &[4, 0, 0], 4095)?;
    assert_eq!(rt;
        answer(&rt, rt.alloc(), &one_less)?,
        Err(SheetFault::Ends(12_290))
    );
    Ok(())
}

// The answer to writing states, with actions of six or five outcomes, to a number of bytes, which are
// left where it refuses.
fn written(
    rt: &impl Abort,
    heap: Global,
    states: &[StateRow],
    length: usize,
) -> Result<Result<usize, WriteFault>, Fail> {
    let actions = [action(0, 0, 6), action(0, 0, 5)];
    let model = TableModel {
        states,
        actions: &actions,
        outcomes: &[0, 1, 2, 3, 4, 5],
    };
    let mut bytes = vec![in heap; BYTE; length]?;
    let answer = write(&model, &PriceList::new(), &mut bytes);
    if answer.is_err() {
        assert!(rt; bytes.iter().all(|byte| *byte == BYTE));
    }
    Ok(answer)
}

#[test]
fn no_longer_sheet_is_written(rt: HostRuntime) -> Result<(), Fail> {
    let mut rows = [StateRow::Open(span(0, 1)); 3450];
    let too_long = Err(WriteFault::Sheet(SheetFault::Ends(65_536)));
    let too_short = Err(WriteFault::Sheet(SheetFault::Short(0)));
    assert_eq!(rt;
        written(&rt, rt.alloc(), &rows[0..3449], 65_536)?,
        Ok(65_536)
    );
    assert_eq!(rt;
        written(&rt, rt.alloc(), &rows[0..3449], 65_535)?,
        too_short
    );
    assert_eq!(rt; written(&rt, rt.alloc(), &rows, 65_555)?, too_long);
    assert_eq!(rt; written(&rt, rt.alloc(), &rows, 65_554)?, too_short);
    rows[0] = StateRow::Open(span(0, 0));
    rows[1] = StateRow::Open(span(1, 1));
    assert_eq!(rt; written(&rt, rt.alloc(), &rows, 70_000)?, too_long);
    assert_eq!(rt; written(&rt, rt.alloc(), &rows, 65_537)?, too_long);
    assert_eq!(rt; written(&rt, rt.alloc(), &rows, 65_536)?, too_short);
    Ok(())
}
