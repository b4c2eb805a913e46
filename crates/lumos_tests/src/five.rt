// The programs, each through a run and through a replay, with values that follow by hand from what the program is.
use crate::rows::{HERE, ROW, Row, check_table};
use lumos_top::Status;
use std::test::Fail;

const RANKS: &str = "\
ranks rounded down part by part|run pagerank --unit 1 --share 500 --parts 2|0 1
1 0
|lumos pagerank vertices 2 edges 2 parts 2
iteration 0
0 1
1 1
iteration 1 full primary 2 secondary 0 skipped 0 empty 2 moved 2
0 0
1 0
iteration 2 fed primary 0 secondary 1 skipped 0 empty 2 moved 0
0 0
1 0
still 2
|@ranks of three iterations|run pagerank --iterations 3|# a
# b
# c
# d
0\t1
0\t2
1\t2
2\t0
3\t2
|lumos pagerank vertices 4 edges 5 parts 16
iteration 0
0 1000000000
1 1000000000
2 1000000000
3 1000000000
iteration 1 full primary 5 secondary 0 skipped 0 empty 251 moved 3
0 1000000000
1 575000000
2 2275000000
3 150000000
iteration 2 fed primary 0 secondary 2 skipped 0 empty 134 moved 2
0 2083750000
1 575000000
2 1191250000
3 150000000
iteration 3 full primary 5 secondary 0 skipped 0 empty 251 moved 3
0 1162562500
1 1035593750
2 1651843750
3 150000000
limit 3
|";

const SCORES: &str = "\
scores by weight|run spreading --seeds 0:0,1:1 --unit 1000 --parts 2|0 1 1
0 2 4294967295
|lumos spreading vertices 3 edges 2 parts 2
iteration 0
0 1000 0 0 0
1 0 1000 0 0
2 0 0 0 0
iteration 1 full primary 2 secondary 0 skipped 0 empty 2 moved 3
0 150 0 0 0
1 0 150 0 0
2 849 0 0 0
iteration 2 fed primary 0 secondary 1 skipped 0 empty 2 moved 1
0 150 0 0 0
1 0 150 0 0
2 126 0 0 0
iteration 3 full primary 2 secondary 0 skipped 0 empty 2 moved 0
0 150 0 0 0
1 0 150 0 0
2 126 0 0 0
still 3
|";

const COSTS: &str = "\
costs along a chain|run paths --from 0 --parts 4|0 1
1 2
2 3
|lumos paths vertices 4 edges 3 parts 4
iteration 0
0 0
1 -
2 -
3 -
iteration 1 full primary 2 secondary 0 skipped 1 empty 13 moved 1
0 0
1 1
2 -
3 -
iteration 2 fed primary 0 secondary 0 skipped 0 empty 10 moved 1
0 0
1 1
2 2
3 -
iteration 3 full primary 1 secondary 0 skipped 2 empty 13 moved 1
0 0
1 1
2 2
3 3
iteration 4 fed primary 0 secondary 0 skipped 0 empty 10 moved 0
0 0
1 1
2 2
3 3
still 4
|";

// Each program over four edges: from 0 to 1 of weight 4 and to 2 of weight 1, from 2 to 1 of weight 2, from 1 to 0 of weight 9.
// Vertices 0 and 1 are the first part, and no edge leads from 2 to itself.
//
// Ranks of 1000. Vertex 0 hands on halves, the others all. Iteration 1: 0 is given 1000, and has 150 + 850; 1 is given
// 500 + 1000, and has 150 + 1275; 2 is given 500, and has 150 + 425. Iteration 2: 0 is given 1425, and has 150 + 1211, since
// 1211.25 is rounded down; 1 is given 500 + 575, and has 150 + 913; 2 is given 500, as before.
//
// Scores of 1000, of vertex 0 in class 1 and of vertex 2 in class 3. Vertex 0 hands on four fifths to 1 and a fifth to 2, the
// others all. Iteration 1: 0 keeps 150; 1 is given 800 and 1000, and has 680 and 850; 2 is given 200, and has 170, and it
// keeps 150. Iteration 2: 0 is given 680 and 850, and has 578 + 150 and 722; 1 is given 120 + 170 and 150, and has 246 and
// 127; 2 is given 30, and has 25, and it keeps 150.
//
// Costs from vertex 2. Iteration 1: 1 is reached at 2. Iteration 2: 0 is reached at 2 + 9. Iteration 3: 1 would be reached
// again at 15 and 2 at 12, and nothing moves. At first vertex 2 alone has news, so of the column of the first part only the
// block from 2 to 1 is read; the block from 0 to 2 is read ahead, as 1 has news. Then 1 alone has news, and then 0 alone.
const FOUR_WAYS: &str = "\
ranks over four edges|run pagerank --unit 1000 --parts 2 --iterations 2|0 1 4
0 2 1
2 1 2
1 0 9
|lumos pagerank vertices 3 edges 4 parts 2
iteration 0
0 1000
1 1000
2 1000
iteration 1 full primary 3 secondary 0 skipped 0 empty 1 moved 2
0 1000
1 1425
2 575
iteration 2 fed primary 0 secondary 2 skipped 0 empty 1 moved 2
0 1361
1 1063
2 575
limit 2
|@scores over four edges|run spreading --unit=1000 --parts 2 --iterations 2 --seeds 0:1,2:3|0 1 4
0 2 1
2 1 2
1 0 9
|lumos spreading vertices 3 edges 4 parts 2
iteration 0
0 0 1000 0 0
1 0 0 0 0
2 0 0 0 1000
iteration 1 full primary 3 secondary 0 skipped 0 empty 1 moved 3
0 0 150 0 0
1 0 680 0 850
2 0 170 0 150
iteration 2 fed primary 0 secondary 2 skipped 0 empty 1 moved 3
0 0 728 0 722
1 0 246 0 127
2 0 25 0 150
limit 2
|@costs over four edges|run --from 2 --parts 2 paths|0 1 4
0 2 1
2 1 2
1 0 9
|lumos paths vertices 3 edges 4 parts 2
iteration 0
0 -
1 -
2 0
iteration 1 full primary 2 secondary 0 skipped 1 empty 1 moved 1
0 -
1 2
2 0
iteration 2 fed primary 0 secondary 1 skipped 1 empty 1 moved 1
0 11
1 2
2 0
iteration 3 full primary 2 secondary 0 skipped 1 empty 1 moved 0
0 11
1 2
2 0
still 3
|";

// The same two iterations, event by event, without the last column. The first block of iteration 2 goes ahead of column 1.
const EVENTS: &str = "\
events of ranks|replay pagerank --unit 1000|feed 1 0 0
feed 1 1 0
final 1 0
feed 2 0 0
feed 1 0 1
feed 1 1 1
final 1 1
feed 2 1 0
final 2 0
edges
0 1 4
0 2 1
2 1 2
1 0 9
|lumos pagerank vertices 3 edges 4 parts 2
final 0 0
0 1000
1 1000
final 0 1
2 1000
final 1 0
0 1000
1 1425
final 1 1
2 575
final 2 0
0 1361
1 1063
events 9
|@events of scores|replay spreading --unit=1000 --seeds 0:1,2:3|feed 1 0 0
feed 1 1 0
final 1 0
feed 2 0 0
feed 1 0 1
feed 1 1 1
final 1 1
feed 2 1 0
final 2 0
edges
0 1 4
0 2 1
2 1 2
1 0 9
|lumos spreading vertices 3 edges 4 parts 2
final 0 0
0 0 1000 0 0
1 0 0 0 0
final 0 1
2 0 0 0 1000
final 1 0
0 0 150 0 0
1 0 680 0 850
final 1 1
2 0 170 0 150
final 2 0
0 0 728 0 722
1 0 246 0 127
events 9
|@events of costs|replay --from 2 paths --parts 2|skip 1 0 0
feed 1 1 0
final 1 0
feed 2 0 0
feed 1 0 1
feed 1 1 1
final 1 1
skip 2 1 0
final 2 0
edges
0 1 4
0 2 1
2 1 2
1 0 9
|lumos paths vertices 3 edges 4 parts 2
final 0 0
0 -
1 -
final 0 1
2 0
final 1 0
0 -
1 2
final 1 1
2 0
final 2 0
0 11
1 2
events 9
|@events that go through three iterations, each begun before the one before it is done|replay tally --parts 2|feed 1 0 0
feed 1 1 0
final 1 0
feed 2 0 0
feed 2 0 1
feed 1 0 1
feed 1 1 1
final 1 1
feed 2 1 0
final 2 0
feed 3 0 1
feed 2 1 1
final 2 1
feed 3 0 0
feed 3 1 0
final 3 0
feed 3 1 1
final 3 1
edges
0 1
|lumos tally vertices 2 edges 1 parts 2
final 0 0
0 0
final 0 1
1 0
final 1 0
0 0
final 1 1
1 1
final 2 0
0 0
final 2 1
1 2
final 3 0
0 0
final 3 1
1 3
events 18
|@no events, a stated number of vertices, both directions|replay components --vertices 3 --both|# none

edges
0 1
|lumos components vertices 3 edges 2 parts 2
final 0 0
0 0
1 1
final 0 1
2 2
events 0
|@no events and no list|replay components|edges|lumos components vertices 0 edges 0 parts 2
final 0 0
final 0 1
events 0
|";

// Two sums of half of what a number holds pass the greatest number.
const BEYOND: &str = "\
a rank beyond|run pagerank --unit 9223372036854775808|0 2
1 2
|lumos pagerank vertices 3 edges 2 parts 16
iteration 0
0 9223372036854775808
1 9223372036854775808
2 9223372036854775808
|lumos: range: iteration 1 vertex 2
@a score beyond|run spreading --unit 9223372036854775808 --seeds 0:2,1:2|0 2
1 2
|lumos spreading vertices 3 edges 2 parts 16
iteration 0
0 0 0 9223372036854775808 0
1 0 0 9223372036854775808 0
2 0 0 0 0
|lumos: range: iteration 1 vertex 2
";

#[test]
fn programs_give_their_values(rt: HostRuntime) -> Result<(), Fail> {
    for table in [RANKS, SCORES, COSTS, FOUR_WAYS] {
        check_table(&rt, rt.alloc(), &HERE, table)?;
    }
    check_table(&rt, rt.alloc(), &ROW, EVENTS)?;
    let range = Row {
        status: Status::Range,
        ..HERE
    };
    check_table(&rt, rt.alloc(), &range, BEYOND)
}
