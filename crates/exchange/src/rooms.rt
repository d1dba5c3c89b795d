// Tables that have just enough room, or one entry too few.
use crate::samples::{EXAMPLE, Tables, size};
use reader::Size;
use sheet::SheetFault;
use std::test::*;

#[test]
fn a_table_that_is_too_short_is_told(rt: HostRuntime) -> Result<(), Fail> {
    let cases: [(Size, usize); 7] = [
        (size(3, 4, 7), 0),
        (size(4, 3, 7), 1),
        (size(4, 4, 6), 2),
        (size(3, 3, 6), 0),
        (size(4, 3, 6), 1),
        (size(3, 20, 20), 0),
        (size(0, 0, 0), 0),
    ];
    for (room, list) in cases {
        let mut tables = Tables::unread();
        assert_eq!(rt;
            tables.read_within(&EXAMPLE, room),
            Err(SheetFault::Short(list))
        );
        assert_eq!(rt; tables, Tables::unread());
        assert_eq!(rt;
            tables.read_within(&EXAMPLE[0..62], room),
            Err(SheetFault::Ends(60))
        );
        assert_eq!(rt; tables, Tables::unread());
    }
    Ok(())
}

#[test]
fn tables_of_the_right_size_hold_a_sheet(rt: HostRuntime) -> Result<(), Fail> {
    let mut tables = Tables::unread();
    let mut roomy = Tables::unread();
    let exact = size(4, 4, 7);
    assert_eq!(rt; tables.read_within(&EXAMPLE, exact), Ok(exact));
    assert_eq!(rt; roomy.read(&EXAMPLE), Ok(exact));
    assert_eq!(rt; tables, roomy);
    Ok(())
}
