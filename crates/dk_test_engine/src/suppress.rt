// What some rows free.
use dk_suppress::freed_by;
use dk_template::RowId;
use std::process::Abort;

fn check_freed(rt: &impl Abort, row: u8, expected: &[RowId]) {
    assert!(rt; *freed_by(RowId(row)) == *expected);
}

#[test]
fn frees_what_has_the_row_as_a_premise(rt: HostRuntime) {
    check_freed(
        &rt,
        2,
        &[RowId(4), RowId(17), RowId(29), RowId(30), RowId(34)],
    );
    check_freed(&rt, 24, &[RowId(25)]);
    check_freed(&rt, 43, &[RowId(40), RowId(42), RowId(66)]);
    check_freed(&rt, 66, &[RowId(63)]);
    check_freed(&rt, 15, &[]);
    check_freed(&rt, 255, &[]);
}
