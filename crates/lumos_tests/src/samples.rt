// Samples: runs over lists that are drawn. Their reports come from a plain simulation.
use crate::rows::{HERE, check_over, check_table, row_of};
use lumos_depot::{FileKind, MemDepot};
use std::test::Fail;

// With seed 7 and 6 vertices the lines begin with `2 5 2`, `5 1 4`, `4 0 12`, `4 1 4` and `2 2 14`. An input isn't read, even
// a faulty one.
const SAMPLES: &str = "\
components, and all values|sample components --seed 7 --vertices 6 --edges 5 --parts 2 --show all|x|lumos components vertices 6 edges 5 parts 2
iteration 0
0 0
1 1
2 2
3 3
4 4
5 5
iteration 1 full primary 3 secondary 0 skipped 0 empty 1 moved 1
0 0
1 1
2 2
3 3
4 4
5 2
iteration 2 fed primary 0 secondary 1 skipped 1 empty 1 moved 0
0 0
1 1
2 2
3 3
4 4
5 2
still 2
|@paths, by weights|sample paths --from 1 --seed 7 --vertices 6 --edges 8 --parts 2 --iterations 4 --show all||lumos paths vertices 6 edges 8 parts 2
iteration 0
0 -
1 0
2 -
3 -
4 -
5 -
iteration 1 full primary 2 secondary 0 skipped 2 empty 0 moved 1
0 -
1 0
2 -
3 -
4 3
5 -
iteration 2 fed primary 0 secondary 2 skipped 1 empty 0 moved 2
0 15
1 0
2 -
3 7
4 3
5 -
iteration 3 full primary 4 secondary 0 skipped 0 empty 0 moved 1
0 15
1 0
2 -
3 7
4 3
5 24
iteration 4 fed primary 0 secondary 2 skipped 1 empty 0 moved 0
0 15
1 0
2 -
3 7
4 3
5 24
still 4
|@a thousand vertices and edges|sample components||lumos components vertices 1000 edges 1000 parts 16
iteration 0
iteration 1 full primary 251 secondary 0 skipped 0 empty 5 moved 364
iteration 2 fed primary 0 secondary 131 skipped 2 empty 3 moved 179
iteration 3 full primary 251 secondary 0 skipped 0 empty 5 moved 101
iteration 4 fed primary 0 secondary 132 skipped 1 empty 3 moved 70
iteration 5 full primary 250 secondary 0 skipped 1 empty 5 moved 47
iteration 6 fed primary 0 secondary 116 skipped 17 empty 3 moved 29
iteration 7 full primary 215 secondary 0 skipped 36 empty 5 moved 21
iteration 8 fed primary 0 secondary 92 skipped 41 empty 3 moved 14
iteration 9 full primary 151 secondary 0 skipped 100 empty 5 moved 14
iteration 10 fed primary 0 secondary 63 skipped 70 empty 3 moved 13
limit 10
|";

#[test]
fn samples_print_the_reports_of_their_lists(rt: HostRuntime) -> Result<(), Fail> {
    check_table(&rt, rt.alloc(), &HERE, SAMPLES)
}

const LARGE: &str = "\
half a million edges|sample components --seed 7 --vertices 100000 --edges 500000||lumos components vertices 100000 edges 500000 parts 16
iteration 0
iteration 1 full primary 256 secondary 0 skipped 0 empty 0 moved 80041
iteration 2 fed primary 0 secondary 136 skipped 0 empty 0 moved 78667
iteration 3 full primary 256 secondary 0 skipped 0 empty 0 moved 79037
iteration 4 fed primary 0 secondary 136 skipped 0 empty 0 moved 79237
iteration 5 full primary 256 secondary 0 skipped 0 empty 0 moved 79110
iteration 6 fed primary 0 secondary 136 skipped 0 empty 0 moved 77596
iteration 7 full primary 256 secondary 0 skipped 0 empty 0 moved 71287
iteration 8 fed primary 0 secondary 136 skipped 0 empty 0 moved 39548
iteration 9 full primary 256 secondary 0 skipped 0 empty 0 moved 4714
iteration 10 fed primary 0 secondary 136 skipped 0 empty 0 moved 191
limit 10
|";

#[test]
fn a_large_sample_is_the_same_each_time(rt: HostRuntime) -> Result<(), Fail> {
    let row = row_of(&rt, &HERE, LARGE);
    for _ in 0..2u32 {
        let mut depot = MemDepot::new(rt.alloc(), &[]).ok().expect(&rt, "memory");
        check_over(&rt, rt.alloc(), &row, &mut depot)?;
        assert_eq!(rt; depot.file(FileKind::Primary).len(), 6000000);
    }
    Ok(())
}
