// Runs over a depot that tells nothing and damages what it reads.
use crate::damaging::Damaging;
use crate::rows::{HERE, Row, compare, perform, row_of};
use lumos_depot::{FileKind, MemDepot};
use lumos_top::Status;
use std::test::Fail;

// An edge of weight 5 that is read as 7, in Primary and in Secondary. It is found by nothing, and each command is done.
const OTHER_WEIGHT: &str = "\
a weight in Primary|run paths --from 0 --parts 2|0 1 5
|lumos paths vertices 2 edges 1 parts 2
iteration 0
0 0
1 -
iteration 1 full primary 1 secondary 0 skipped 0 empty 3 moved 1
0 0
1 7
iteration 2 fed primary 0 secondary 0 skipped 0 empty 3 moved 0
0 0
1 7
still 2
|";

const LATER_WEIGHT: &str = "\
a weight in Secondary|run paths --from 0 --parts 1|0 1
1 2 5
|lumos paths vertices 3 edges 2 parts 1
iteration 0
0 0
1 -
2 -
iteration 1 full primary 1 secondary 0 skipped 0 empty 0 moved 1
0 0
1 1
2 -
iteration 2 fed primary 0 secondary 1 skipped 0 empty 0 moved 1
0 0
1 1
2 8
iteration 3 full primary 1 secondary 0 skipped 0 empty 0 moved 0
0 0
1 1
2 8
still 3
|";

// One edge to the greatest vertex of one part. Vertex 7 lies behind that part.
const PRIMARY: &str = "\
a vertex in Primary|run components --parts 1|0 5
|lumos components vertices 6 edges 1 parts 1
iteration 0
0 0
1 1
2 2
3 3
4 4
5 5
|lumos: damaged: primary at 4 found 7
";

const SECONDARY: &str = "\
a vertex in Secondary|run components --parts 1|0 5
|lumos components vertices 6 edges 1 parts 1
iteration 0
0 0
1 1
2 2
3 3
4 4
5 5
iteration 1 full primary 1 secondary 0 skipped 0 empty 0 moved 1
0 0
1 1
2 2
3 3
4 4
5 0
|lumos: damaged: secondary at 4 found 7
";

const META: &str = "\
a count in Meta|run components --parts 1|0 0
0 0
0 0
0 0
0 0
||lumos: damaged: meta at 32 found 7
";

#[test]
fn what_is_read_otherwise_goes_on_or_ends_the_run(rt: HostRuntime) -> Result<(), Fail> {
    for (file, status, text) in [
        (FileKind::Primary, Status::Done, OTHER_WEIGHT),
        (FileKind::Secondary, Status::Done, LATER_WEIGHT),
        (FileKind::Primary, Status::Grid, PRIMARY),
        (FileKind::Secondary, Status::Grid, SECONDARY),
        (FileKind::Meta, Status::Grid, META),
    ] {
        let base = Row { status, ..HERE };
        let row = row_of(&rt, &base, text);
        let inner = MemDepot::new(rt.alloc(), &[]).ok().expect(&rt, "memory");
        let mut depot = Damaging::new(inner, file);
        let came = perform(&rt, rt.alloc(), &row, &mut depot)?;
        compare(&rt, &row, &came);
    }
    Ok(())
}
