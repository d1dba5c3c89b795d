// Sheets whose values are at their limits.
use crate::samples::{check_round, repeated, size};
use reader::Size;
use std::test::*;

#[test]
fn values_at_their_limits_are_accepted(rt: HostRuntime) -> Result<(), Fail> {
    let cases: [(&[u8], Size); 5] = [
        (&[1, 0, 2, 0, 1, 4, 0, 0], size(1, 0, 0)),
        (&[1, 0, 2, 0, 1, 3, 0, 4, 0, 0, 0, 0], size(1, 0, 0)),
        (&[1, 0, 2, 0, 1, 3, 0, 4, 0, 15, 66, 64], size(1, 0, 0)),
        (
            &[
                1, 0, 2, 0, 1, 2, 0, 3, 0, 0, 2, 2, 0, 3, 63, 39, 16, 4, 0, 0,
            ],
            size(1, 0, 0),
        ),
        (
            &[1, 0, 2, 0, 2, 4, 0, 0, 5, 0, 5, 63, 0, 0, 0, 1, 4, 0, 0],
            size(2, 1, 2),
        ),
    ];
    for (sheet, size) in cases {
        check_round(&rt, sheet, size)?;
    }
    Ok(())
}

#[test]
fn sixteen_actions_and_outcomes_are_accepted(rt: HostRuntime) -> Result<(), Fail> {
    let open = [1, 0, 2, 0, 1, 4, 0, 0];
    let actions = repeated(rt.alloc(), &open, &[5, 0, 3, 63, 0, 0], 16)?;
    check_round(&rt, &actions, size(1, 16, 16))?;
    let wide = [
        1, 0, 2, 0, 16, 4, 0, 0, 5, 0, 33, 63, 0, 0, 0, 1, 0, 2, 0, 3, 0, 4, 0, 5, 0, 6, 0, 7, 0,
        8, 0, 9, 0, 10, 0, 11, 0, 12, 0, 13, 0, 14, 0, 15,
    ];
    let outcomes = repeated(rt.alloc(), &wide, &[4, 0, 0], 15)?;
    check_round(&rt, &outcomes, size(16, 1, 16))?;
    Ok(())
}
