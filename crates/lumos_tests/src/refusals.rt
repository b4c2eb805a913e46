// Commands that stop: their statuses, their lines, and what they leave.
use crate::rows::{HERE, ROW, Row, check_table};
use lumos_top::Status;
use std::test::Fail;

// Words that ask for nothing: each text once, and each option whose number is faulty.
const USAGE: &str = "\
no words||||lumos: usage: no command
@another command|walk|||lumos: usage: unknown command
@a value that is missing|run components --parts|||lumos: usage: words not understood
@an option of another command|build --parts 2 --mode fed|||lumos: usage: words not understood
@no program|run --parts 0|||lumos: usage: no program
@another program|run walk|||lumos: usage: unknown program
@a directory without a name|build --dir  --parts 0|||lumos: usage: empty directory
@parts|run components --parts 0|||lumos: usage: number outside its range for --parts
@parts of a replay|replay --parts=0 components --share x|||lumos: usage: number outside its range for --parts
@iterations|run components --parts 300 --iterations 1000001|||lumos: usage: number outside its range for --iterations
@budget|build --budget 0|||lumos: usage: number outside its range for --budget
@vertices|replay tally --vertices 18446744073709551616|||lumos: usage: bad number for --vertices
@edges|build --max-edges 2147483649|||lumos: usage: number outside its range for --max-edges
@bytes|run components --mode walk --max-bytes x|||lumos: usage: bad number for --max-bytes
@mode|run components --parts 300 --mode walk|||lumos: usage: bad mode
@show|run --show none components --unit 0|||lumos: usage: bad show
@unit|run pagerank --unit 9223372036854775809|||lumos: usage: number outside its range for --unit
@share|replay pagerank --share 1001|||lumos: usage: number outside its range for --share
@from|run paths --from 268435456 --seeds 0:4|||lumos: usage: number outside its range for --from
@seeds|replay spreading --seeds 1:0,01:1|||lumos: usage: bad seeds
@vertices of a sample|sample components --vertices 0|||lumos: usage: number outside its range for --vertices
@seed|sample components --seed x --edges x|||lumos: usage: bad number for --seed
@edges of a sample|sample components --edges 2147483649|||lumos: usage: number outside its range for --edges
";

// Words that state too much.
const LIMITS: &str = "\
parts of a run|run components --parts 300|||lumos: limit: parts 300 over 256
@parts of a build, before vertices|build --dir d --parts 257 --vertices 268435457|||lumos: limit: parts 257 over 256
@parts of a replay|replay components --parts 65|||lumos: limit: parts 65 over 64
@vertices of a run|run components --vertices 268435457|||lumos: limit: vertices 268435457 over 268435456
@vertices of a replay|replay components --vertices 4097|||lumos: limit: vertices 4097 over 4096
@vertices of a sample|sample components --vertices 268435457|||lumos: limit: vertices 268435457 over 268435456
";

// Lists with a faulty line.
const INPUTS: &str = "\
four fields|run components|0 1
3 4 5 6
||lumos: input: line 2: too many fields
@a letter|run components|0 1
1 x
||lumos: input: line 2: not a number
@one field|run components|0 1
1
||lumos: input: line 2: missing target
@more than 64 bits|run components|0 1
18446744073709551616 0
||lumos: input: line 2: number too large
@a vertex|run components|0 1
268435456 0
||lumos: input: line 2: vertex too large
@a weight|run components|0 1
0 1 4294967296
||lumos: input: line 2: weight too large
@a vertex that isn't there|run components --vertices 2|0 1
0 2
||lumos: input: line 2: vertex beyond
@a letter before a fourth field|run components|0 1
3 4 x 6
||lumos: input: line 2: not a number
@a build|build --parts 2|0 4
3
||lumos: input: line 2: missing target
";

// Lists that are too long, and a budget that is too small.
const LONG: &str = "\
edges|run components --max-edges 2|0 1
1 2
2 3
||lumos: limit: edges 2
@edges in both directions|run components --max-edges 2 --both|0 1
1 2
||lumos: limit: edges 2
@bytes|run components --max-bytes 3|0 1
||lumos: limit: bytes 3
@the budget|run components --parts 2 --budget 101|0 4
3 1
||lumos: limit: budget needs 102 given 101
@the budget, for any number of parts|run components --budget 33|0 4
3 1
||lumos: limit: budget needs 34 given 33
@the budget of a sample|sample components --vertices 5 --budget 33|||lumos: limit: budget needs 34 given 33
";

// Events that aren't legal.
const ILLEGAL: &str = "\
no such iteration|replay components|feed 0 0 0
edges
0 1
||lumos: illegal: event 1: bounds
@a closed column|replay components|feed 1 0 0
feed 1 1 0
final 1 0
feed 1 0 0
edges
0 1
||lumos: illegal: event 4: column final
@a block twice|replay components|feed 1 0 0
feed 1 0 0
edges
0 1
||lumos: illegal: event 2: already done
@a source too early|replay tally --parts 2|feed 1 0 0
feed 1 1 0
final 1 0
feed 1 0 1
feed 2 1 1
edges
0 1
||lumos: illegal: event 5: source not final
@a block with news|replay components|skip 1 0 1
edges
0 1
||lumos: illegal: event 1: vertex 0 contributes
@a column too early|replay components|final 2 0
edges
0 1
||lumos: illegal: event 1: old not final
@a column too soon|replay components|feed 1 0 0
final 1 0
edges
0 1
||lumos: illegal: event 2: row 1 not done
";

// Events and lists that aren't understood.
const FAULTY: &str = "\
no end|replay components|final 1 0
||lumos: schedule: line 1: ended
@nothing|replay components|||lumos: schedule: line 0: ended
@a number that is missing|replay components|
feed 1 0
edges
||lumos: schedule: line 2: bad
@a vertex|replay components|final 1 0
edges
0 1
0 4096
||lumos: input: line 2: vertex too large
";

#[test]
fn refusals_have_their_lines(rt: HostRuntime) -> Result<(), Fail> {
    for (status, path, table) in [
        (Status::Usage, None, USAGE),
        (Status::Limit, None, LIMITS),
        (Status::Input, Some("."), INPUTS),
        (Status::Limit, Some("."), LONG),
        (Status::Schedule, None, ILLEGAL),
        (Status::Input, None, FAULTY),
    ] {
        let base = Row {
            status,
            path,
            ..ROW
        };
        check_table(&rt, rt.alloc(), &base, table)?;
    }
    Ok(())
}

// An input whose second read fails.
const UNREAD: &str = "\
a run|run components --parts 2 --iterations 5|0 2
2 1
3 2
0 1
||lumos: read fault
@a build|build|0 2
2 1
||lumos: read fault
";

// An output with room for ten bytes.
const NARROW: &str = "\
a run|run components --parts 2 --iterations 5|0 2
2 1
3 2
0 1
|lumos comp|lumos: write fault
@a build|build --parts 2|0 4
3 1
|grid verti|lumos: write fault
";

const NARROW_REPLAY: &str = "\
a replay|replay tally|edges
0 1
|lumos tall|lumos: write fault
";

// A directory that can't be attached.
const UNATTACHED: &str = "\
a run|run components --parts 2 --iterations 5|0 2
||lumos: depot fault
@a build|build|0 2
||lumos: depot fault
";

#[test]
fn the_outside_may_fail(rt: HostRuntime) -> Result<(), Fail> {
    let unread = Row {
        step: 4,
        fails: &[2],
        status: Status::ReadFault,
        ..HERE
    };
    check_table(&rt, rt.alloc(), &unread, UNREAD)?;
    let narrow = Row {
        room: 10,
        status: Status::WriteFault,
        ..HERE
    };
    check_table(&rt, rt.alloc(), &narrow, NARROW)?;
    let replay = Row {
        path: None,
        ..narrow
    };
    check_table(&rt, rt.alloc(), &replay, NARROW_REPLAY)?;
    let unattached = Row {
        depot_fails: &[1],
        status: Status::DepotFault,
        ..ROW
    };
    check_table(&rt, rt.alloc(), &unattached, UNATTACHED)?;
    let unheard = Row {
        err_room: 0,
        status: Status::Usage,
        ..ROW
    };
    check_table(
        &rt,
        rt.alloc(),
        &unheard,
        "no room for a fault line|run walk|||",
    )
}

#[test]
fn statuses_have_their_codes(rt: HostRuntime) {
    let statuses = [
        (Status::Done, 0),
        (Status::Memory, 1),
        (Status::Usage, 2),
        (Status::Input, 3),
        (Status::Limit, 4),
        (Status::Range, 5),
        (Status::ReadFault, 6),
        (Status::DepotFault, 7),
        (Status::WriteFault, 8),
        (Status::Grid, 9),
        (Status::Schedule, 10),
    ];
    for (status, code) in statuses {
        assert_eq!(rt; status.code(), code, "{status:?}");
    }
}
