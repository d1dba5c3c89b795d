// Bytes that are no sheet, each refused at its place.
use crate::samples::{EXAMPLE, check_refused, repeated};
use sheet::SheetFault;
use std::test::*;

// Where the fields of the ring's sheet begin.
const STARTS: [usize; 11] = [0, 5, 11, 17, 20, 28, 36, 39, 47, 53, 60];

#[test]
fn a_sheet_that_is_cut_ends_in_its_last_field(rt: HostRuntime) -> Result<(), Fail> {
    for length in 0..63 {
        let place = STARTS
            .into_iter()
            .filter(|start| *start <= length)
            .last()
            .unwrap_or(0);
        check_refused(&rt, &EXAMPLE[0..length], SheetFault::Ends(place))?;
    }
    Ok(())
}

#[test]
fn a_tag_is_due(rt: HostRuntime) -> Result<(), Fail> {
    let cases: [(&[u8], usize); 17] = [
        (&[0, 0, 0], 0),
        (&[2, 0, 3, 0, 0, 2], 0),
        (&[3, 0, 4, 0, 0, 0, 0], 0),
        (&[4, 0, 0], 0),
        (&[4, 0, 1, 0], 0),
        (&[5, 0, 3, 0, 0, 0], 0),
        (&[6, 0, 0], 0),
        (&[255, 0, 0], 0),
        (&[1, 0, 2, 0, 1, 0, 0, 0], 5),
        (&[1, 0, 2, 0, 1, 1, 0, 2, 0, 1], 5),
        (&[1, 0, 2, 0, 1, 5, 0, 3, 0, 0, 0], 5),
        (&[1, 0, 2, 0, 1, 6, 0, 0], 5),
        (&[1, 0, 2, 0, 2, 4, 0, 0, 2, 0, 3, 0, 0, 2], 8),
        (&[1, 0, 2, 0, 1, 4, 0, 0, 4, 0, 0], 8),
        (&[1, 0, 2, 0, 1, 4, 0, 0, 3, 0, 4, 0, 0, 0, 0], 8),
        (&[1, 0, 2, 0, 1, 4, 0, 0, 9, 0, 0], 8),
        (&[1, 0, 2, 0, 1, 3, 0, 4, 0, 0, 0, 0, 5, 0, 3, 0, 0, 0], 12),
    ];
    for (sheet, place) in cases {
        check_refused(&rt, sheet, SheetFault::Tag(place))?;
    }
    Ok(())
}

#[test]
fn a_length_is_one_that_its_tag_has(rt: HostRuntime) -> Result<(), Fail> {
    let cases: [(&[u8], usize); 13] = [
        (&[1, 0, 0], 0),
        (&[1, 0, 1, 0], 0),
        (&[1, 0, 3, 0, 0, 0], 0),
        (&[1, 0, 2, 0, 1, 2, 0, 2, 0, 2], 5),
        (&[1, 0, 2, 0, 1, 2, 0, 4, 0, 0, 2, 0], 5),
        (&[1, 0, 2, 0, 1, 3, 0, 3, 0, 0, 0], 5),
        (&[1, 0, 2, 0, 1, 3, 0, 5, 0, 0, 0, 0, 0], 5),
        (&[1, 0, 2, 0, 1, 4, 0, 1, 0], 5),
        (&[1, 0, 2, 0, 1, 4, 0, 0, 5, 0, 0], 8),
        (&[1, 0, 2, 0, 1, 4, 0, 0, 5, 0, 1, 0], 8),
        (&[1, 0, 2, 0, 1, 4, 0, 0, 5, 0, 2, 0, 0], 8),
        (&[1, 0, 2, 0, 1, 4, 0, 0, 5, 0, 4, 0, 0, 0, 0], 8),
        (&[1, 0, 2, 0, 1, 4, 0, 0, 5, 0, 4, 99, 0, 0, 0], 8),
    ];
    for (sheet, place) in cases {
        check_refused(&rt, sheet, SheetFault::Length(place))?;
    }
    Ok(())
}

#[test]
fn a_value_is_within_its_limits(rt: HostRuntime) -> Result<(), Fail> {
    let cases: [(&[u8], usize); 14] = [
        (&[1, 0, 2, 0, 0], 0),
        (&[1, 0, 2, 16, 1], 0),
        (&[1, 0, 2, 0, 1, 2, 0, 3, 0, 0, 0], 5),
        (&[1, 0, 2, 0, 1, 2, 0, 3, 0, 0, 1], 5),
        (&[1, 0, 2, 0, 1, 2, 0, 3, 0, 39, 17], 5),
        (&[1, 0, 2, 0, 1, 2, 0, 3, 64, 0, 2], 5),
        (&[1, 0, 2, 0, 1, 2, 0, 3, 7, 0, 2, 2, 0, 3, 7, 0, 3], 11),
        (&[1, 0, 2, 0, 1, 2, 0, 3, 7, 0, 2, 2, 0, 3, 6, 0, 2], 11),
        (&[1, 0, 2, 0, 1, 3, 0, 4, 0, 15, 66, 65], 5),
        (&[1, 0, 2, 0, 1, 4, 0, 0, 5, 0, 3, 64, 0, 0], 8),
        (&[1, 0, 2, 0, 1, 4, 0, 0, 5, 0, 3, 0, 0, 1], 8),
        (&[1, 0, 2, 0, 2, 4, 0, 0, 5, 0, 3, 0, 1, 0], 8),
        (&[1, 0, 2, 0, 2, 4, 0, 0, 5, 0, 5, 0, 0, 1, 0, 1], 8),
        (&[1, 0, 2, 0, 2, 4, 0, 0, 5, 0, 5, 0, 0, 1, 0, 0], 8),
    ];
    for (sheet, place) in cases {
        check_refused(&rt, sheet, SheetFault::Value(place))?;
    }
    Ok(())
}

#[test]
fn a_field_is_whole(rt: HostRuntime) -> Result<(), Fail> {
    let cases: [(&[u8], usize); 7] = [
        (&[], 0),
        (&[1, 1, 2, 0, 1], 0),
        (&[1, 0, 2, 0, 1, 4, 0, 0, 0], 8),
        (&[1, 0, 2, 0, 1, 4, 0, 0, 5], 8),
        (&[1, 0, 2, 0, 1, 4, 0, 0, 4, 0], 8),
        (&[1, 0, 2, 0, 1, 4, 0, 0, 9, 0, 1], 8),
        (&[1, 0, 2, 0, 1, 3, 0, 4, 0, 0, 0, 0, 255], 12),
    ];
    for (sheet, place) in cases {
        check_refused(&rt, sheet, SheetFault::Ends(place))?;
    }
    Ok(())
}

#[test]
fn long_fields_and_many_actions_are_refused(rt: HostRuntime) -> Result<(), Fail> {
    let one_more = repeated(rt.alloc(), &EXAMPLE, &[0], 1)?;
    check_refused(&rt, &one_more, SheetFault::Ends(63))?;
    let once_more = repeated(rt.alloc(), &EXAMPLE, &EXAMPLE, 1)?;
    check_refused(&rt, &once_more, SheetFault::Tag(63))?;
    let long_count = repeated(rt.alloc(), &[1, 1, 2], &[0, 1], 129)?;
    check_refused(&rt, &long_count, SheetFault::Length(0))?;
    let open = [1, 0, 2, 0, 1, 4, 0, 0, 5, 0, 35];
    let many_outcomes = repeated(rt.alloc(), &open, &[0], 35)?;
    check_refused(&rt, &many_outcomes, SheetFault::Length(8))?;
    let many_actions = repeated(
        rt.alloc(),
        &[1, 0, 2, 0, 1, 4, 0, 0],
        &[5, 0, 3, 0, 0, 0],
        17,
    )?;
    check_refused(&rt, &many_actions, SheetFault::Tag(104))
}
