// Grids of small lists, over a source and a depot in memory.
ghost use Rattle.std.specs.Prelude.{◌≡◌, ◌≤◌, IfSome, None};
ghost use Rattle.grid_build.specs.Chosen.{MayChoose};

use crate::commands::{check_files, five_files};
use edge_text::{InputFault, InputWhat, TextLimits};
use grid_build::{BuildFault, BuildOptions, PartsChoice, build};
use grid_format::GridInfo;
use lumos_depot::{Depot, FileKind, MemDepot, MemSource, Source};
use std::alloc::Global;
use std::process::Abort;
use std::test::Fail;

// Two parts, with limits that a test may pass.
const OPTIONS: BuildOptions = BuildOptions {
    parts: PartsChoice::Stated(2),
    limits: TextLimits {
        max_vertex: 268435455,
        vertices: None,
        max_edges: 3,
        max_bytes: 20,
        both: false,
    },
    budget: 1073741824,
};

// Parts that fit a budget in which a vertex has 34 bytes, but for a byte.
const NARROW: BuildOptions = BuildOptions {
    parts: PartsChoice::Fitted {
        per_vertex: 34,
        budget: 33,
    },
    ..OPTIONS
};

// The same, and that byte.
const FITTED: BuildOptions = BuildOptions {
    parts: PartsChoice::Fitted {
        per_vertex: 34,
        budget: 34,
    },
    ..OPTIONS
};

// Attaches a directory, and builds a grid in it.
fn build_in<I: Source, D: Depot>(
    alloc: Global,
    input: &mut I,
    depot: &mut D,
    options: &BuildOptions,
) -> Result<GridInfo, BuildFault>
    requires free { D.attached depot.old ≡ None }
    requires choice { MayChoose options.now.parts }
    requires vertex { options.now.limits.max_vertex ≤ 268435455 }
    requires vertices { IfSome options.now.limits.vertices (λ vertices. vertices ≤ 268435456) }
    requires edges { options.now.limits.max_edges ≤ 2147483648 }
    requires bytes { options.now.limits.max_bytes ≤ 1099511627776 }
{
    let Ok(()) = depot.attach("d") else {
        return Err(BuildFault::Depot);
    };
    build(alloc, input, depot, options)
}

#[test]
fn a_grid_has_its_bytes(rt: HostRuntime) -> Result<(), Fail> {
    let mut input = MemSource::new(rt.alloc(), b"0 4\n3 1", 3, &[])
        .ok()
        .expect(&rt, "memory");
    let mut depot = MemDepot::new(rt.alloc(), &[]).ok().expect(&rt, "memory");
    let built = build_in(rt.alloc(), &mut input, &mut depot, &OPTIONS);
    let info = GridInfo {
        version: 1,
        parts: 2,
        vertices: 5,
        edges: 2,
    };
    assert_eq!(rt; built, Ok(info));
    check_files(&rt, &depot, &five_files());
    for (kind, stored) in [
        (FileKind::Spool, 24),
        (FileKind::Primary, 24),
        (FileKind::Secondary, 12),
    ] {
        assert_eq!(rt; depot.stored_of(kind), stored, "{kind:?}");
    }
    assert_eq!(rt; depot.taken_of(FileKind::Primary), 12);
    Ok(())
}

// The four files of a grid, which lies there from before.
const OLD_FILES: [(FileKind, &[u8]); 4] = [
    (FileKind::Meta, b"old"),
    (FileKind::Primary, b"old"),
    (FileKind::Secondary, b"old"),
    (FileKind::Info, b"old"),
];

// Builds a grid where another one lies, which stays.
fn check_refused(
    rt: &impl Abort,
    alloc: Global,
    text: &[u8],
    fails: &[u64],
    options: &BuildOptions,
    fault: BuildFault,
) -> Result<(), Fail>
    requires choice { MayChoose options.now.parts }
    requires vertex { options.now.limits.max_vertex ≤ 268435455 }
    requires vertices { IfSome options.now.limits.vertices (λ vertices. vertices ≤ 268435456) }
    requires edges { options.now.limits.max_edges ≤ 2147483648 }
    requires bytes { options.now.limits.max_bytes ≤ 1099511627776 }
{
    let mut input = MemSource::new(alloc, text, 5, fails)
        .ok()
        .expect(rt, "memory");
    let mut depot = MemDepot::new(alloc, &[]).ok().expect(rt, "memory");
    for (kind, bytes) in OLD_FILES {
        assert!(rt; depot.put_file(alloc, kind, bytes).is_ok());
    }
    assert!(rt; depot.path().is_none());
    let built = build_in(alloc, &mut input, &mut depot, options);
    assert_eq!(rt; built, Err(fault), "{fault:?}");
    check_files(rt, &depot, &OLD_FILES);
    Ok(())
}

// A text, the reads that fail, and the fault.
type Row<'a> = (&'a [u8], &'a [u64], BuildFault);

#[test]
fn a_fault_leaves_the_grid(rt: HostRuntime) -> Result<(), Fail> {
    let faulty = BuildFault::Input(InputFault {
        line: 2,
        what: InputWhat::MissingTarget,
    });
    let rows: [Row; 4] = [
        (b"0 1\n7\n", &[], faulty),
        (
            b"0 1\n1 2\n2 3\n3 4\n",
            &[],
            BuildFault::TooManyEdges { limit: 3 },
        ),
        (
            b"# more than 20 bytes\n",
            &[],
            BuildFault::InputTooLong { limit: 20 },
        ),
        (b"0 1\n1 2\n", &[2], BuildFault::Read),
    ];
    for (text, fails, fault) in rows {
        check_refused(&rt, rt.alloc(), text, fails, &OPTIONS, fault)?;
    }
    let unfit = BuildFault::BudgetTooSmall {
        need: 34,
        given: 33,
    };
    check_refused(&rt, rt.alloc(), b"0 4\n3 1", &[], &NARROW, unfit)
}

#[test]
fn parts_fit_a_budget(rt: HostRuntime) -> Result<(), Fail> {
    let mut input = MemSource::new(rt.alloc(), b"0 4\n3 1", 3, &[])
        .ok()
        .expect(&rt, "memory");
    let mut depot = MemDepot::new(rt.alloc(), &[]).ok().expect(&rt, "memory");
    let info = GridInfo {
        version: 1,
        parts: 16,
        vertices: 5,
        edges: 2,
    };
    let built = build_in(rt.alloc(), &mut input, &mut depot, &FITTED);
    assert_eq!(rt; built, Ok(info));
    Ok(())
}
