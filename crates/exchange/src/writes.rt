// Models and lists of bytes that are refused when a sheet is written.
use crate::samples::{BYTE, EXAMPLE, Tables, action, span};
use cost::PriceList;
use model::ModelFault;
use sheet::SheetFault;
use std::process::Abort;
use std::test::*;
use table::{StateRow, TableModel};
use writer::{WriteFault, write};

// Whether writing the states is refused by a fault of the model, with bytes and without.
fn check_fault(rt: &impl Abort, states: &[StateRow], fault: ModelFault) -> Result<(), Fail> {
    let mut actions = [action(0, 0, 1); 20];
    actions[17] = action(64, 0, 1);
    actions[18] = action(0, 0, 0);
    actions[19] = action(0, 0, 3);
    let model = TableModel {
        states,
        actions: &actions,
        outcomes: &[0, 1, 2],
    };
    let mut bytes = [BYTE; 200];
    let answer = Err(WriteFault::Model(fault));
    assert_eq!(rt; write(&model, &PriceList::new(), &mut bytes), answer);
    assert_eq!(rt; bytes, [BYTE; 200]);
    assert_eq!(rt; write(&model, &PriceList::new(), &mut []), answer);
    Ok(())
}

fn opened(first: u32, count: u32) -> StateRow {
    StateRow::Open(span(first, count))
}

#[test]
fn a_faulty_model_is_not_written(rt: HostRuntime) -> Result<(), Fail> {
    let end = StateRow::End(1_000_000);
    check_fault(&rt, &[], ModelFault::States(0))?;
    check_fault(&rt, &[end, opened(0, 17)], ModelFault::Actions(1))?;
    check_fault(
        &rt,
        &[end, StateRow::End(1_000_001)],
        ModelFault::EndCost(1),
    )?;
    check_fault(&rt, &[end, opened(16, 2)], ModelFault::Task(1, 1))?;
    check_fault(&rt, &[opened(18, 1), end], ModelFault::Outcomes(0, 0))?;
    check_fault(&rt, &[opened(19, 1), end], ModelFault::Outcome(0, 0, 2))
}

#[test]
fn a_list_of_bytes_is_long_enough(rt: HostRuntime) -> Result<(), Fail> {
    let mut tables = Tables::unread();
    assert!(rt; tables.read(&EXAMPLE).is_ok());
    let short = Err(WriteFault::Sheet(SheetFault::Short(0)));
    assert_eq!(rt; tables.write(4, &mut []), short);
    let mut few = [BYTE; 62];
    assert_eq!(rt; tables.write(4, &mut few), short);
    assert_eq!(rt; few, [BYTE; 62]);
    let mut enough = [BYTE; 63];
    assert_eq!(rt; tables.write(4, &mut enough), Ok(63));
    assert_eq!(rt; enough, EXAMPLE);
    Ok(())
}
