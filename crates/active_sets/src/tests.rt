use super::*;

// What a call of a block's need is asked, and what it answers.
struct Row {
    row: u32,
    column: u32,
    ahead: bool,
    needed: bool,
}

const ROWS: [Row; 6] = [
    Row {
        row: 0,
        column: 2,
        ahead: true,
        needed: true,
    },
    Row {
        row: 0,
        column: 2,
        ahead: false,
        needed: true,
    },
    Row {
        row: 1,
        column: 2,
        ahead: true,
        needed: true,
    },
    Row {
        row: 1,
        column: 2,
        ahead: false,
        needed: false,
    },
    Row {
        row: 1,
        column: 1,
        ahead: true,
        needed: false,
    },
    Row {
        row: 2,
        column: 2,
        ahead: true,
        needed: false,
    },
];

#[test]
fn a_block_is_needed_for_this_iteration_or_the_next(rt: HostRuntime) {
    let mut active = ActiveParts::new(3);
    active.mark(0, true);
    active.turn();
    active.mark(1, true);
    for row in &ROWS {
        assert_eq!(rt;
            active.needed_full(row.row, row.column, row.ahead),
            row.needed
        );
    }
    assert!(rt; active.needed_fed(0) && !active.needed_fed(1));
    assert!(rt; !active.hot_now(0) && active.hot_now(1));
}
