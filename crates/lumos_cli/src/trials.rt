// The program over a system in memory, each of whose calls goes wrong in turn.
use crate::fakes::{Disk, Entry, Mount, Part, Plan, Reader, Writer, Wrong};
use crate::streams::{StdSink, StdSource};
use crate::{end, run, words_of};
use lumos_top::Status;
use std::alloc::Global;
use std::cell::RefCell;
use std::env::{Env, FillError};
use std::process::{Abort, ExitCode};
use std::test::Fail;

const INPUT: &[u8] = b"0 2\n2 1\n3 2\n0 1\n";

const REPORT: &str =
    "lumos components vertices 4 edges 4 parts 2\niteration 0\n0 0\n1 1\n2 2\n3 3\niteration 1 full primary 4 secondary 0 skipped 0 empty 0 moved 2\n0 0\n1 0\n2 0\n3 3\niteration 2 fed primary 0 secondary 3 skipped 0 empty 0 moved 0\n0 0\n1 0\n2 0\n3 3\nstill 2\n";

// The files that the run leaves.
const FILES: [(&str, &[u8]); 5] = [
    (
        "./lumos.meta",
        b"LUMOSGRD\x01\0\0\0\x02\0\0\0\x04\0\0\0\0\0\0\0\x04\0\0\0\0\0\0\0\x01\0\0\0\0\0\0\0\x01\0\0\0\0\0\0\0\x01\0\0\0\0\0\0\0\x01\0\0\0\0\0\0\0",
    ),
    (
        "./lumos.primary",
        b"\0\0\0\0\x01\0\0\0\x01\0\0\0\x02\0\0\0\x01\0\0\0\x01\0\0\0\0\0\0\0\x02\0\0\0\x01\0\0\0\x03\0\0\0\x02\0\0\0\x01\0\0\0",
    ),
    (
        "./lumos.secondary",
        b"\0\0\0\0\x01\0\0\0\x01\0\0\0\x02\0\0\0\x01\0\0\0\x01\0\0\0\x03\0\0\0\x02\0\0\0\x01\0\0\0",
    ),
    (
        "./lumos.info",
        b"\x02\0\0\0\x02\0\0\0\0\0\0\0\0\0\0\0\0\0\0\0\0\0\0\0\x01\0\0\0\x01\0\0\0\0\0\0\0\x01\0\0\0\x01\0\0\0\0\0\0\0",
    ),
    ("./lumos.spool", b""),
];

// What a run leaves, and the part of the system of which a call went wrong.
#[derive(Drop)]
struct Trial {
    status: Status,
    hit: Option<Part>,
    calls: u32,
    out: Vec<u8>,
    err: Vec<u8>,
    files: Vec<Entry>,
}

fn texts(alloc: Global, words: &[&str]) -> Result<Vec<String>, Fail> {
    let mut all = Vec::new(alloc);
    for word in words {
        all.push(String::from_str(alloc, word)?)?;
    }
    Ok(all)
}

// Runs components over two parts, where one call goes wrong.
fn attempt(rt: &impl Abort, alloc: Global, at: u32, how: Wrong) -> Result<Trial, Fail> {
    let words = texts(
        alloc,
        &["run", "components", "--parts", "2", "--iterations", "5"],
    )?;
    let plan = Plan::new(at, how);
    let disk = Disk::new(alloc);
    let (out, err) = (RefCell::new(Vec::new(alloc)), RefCell::new(Vec::new(alloc)));
    let status = {
        let plan = &plan;
        let system = (Mount { plan, disk: &disk }, alloc);
        let reader = Reader { plan, bytes: INPUT };
        let writer = Writer {
            plan,
            part: Part::Out,
            bytes: &out,
        };
        let teller = Writer {
            plan,
            part: Part::Err,
            bytes: &err,
        };
        let mut input = StdSource::new(alloc, reader).ok().expect(rt, "memory");
        let mut output = StdSink::new(alloc, writer).ok().expect(rt, "memory");
        let mut faults = StdSink::new(alloc, teller).ok().expect(rt, "memory");
        run(&system, &words, &mut input, &mut output, &mut faults)
    };
    Ok(Trial {
        status,
        hit: plan.hit.get(),
        calls: plan.calls.get(),
        out: out.into_inner(),
        err: err.into_inner(),
        files: disk.into_entries(),
    })
}

// The status and the fault line of a run in which a call of a part failed.
fn ending_of(hit: Option<Part>) -> (Status, &'static str) {
    match hit {
        Some(Part::Input) => (Status::ReadFault, "lumos: read fault\n"),
        Some(Part::Disk) => (Status::DepotFault, "lumos: depot fault\n"),
        Some(Part::Out) => (Status::WriteFault, "lumos: write fault\n"),
        Some(Part::Err) | None => (Status::Done, ""),
    }
}

// The files that a run works in. What it leaves in them is stated nowhere.
const ROOM: [&str; 2] = ["./lumos.values", "./lumos.sums"];

// Whether these are the files that the run leaves, each under its name, and those that it worked in.
fn are_whole(files: &[Entry]) -> bool {
    files.len() == FILES.len() + ROOM.len()
        && FILES.iter().all(|(name, bytes)| {
            files.iter().any(|file| file.name.as_str() == *name && file.bytes.as_slice() == *bytes)
        })
        && ROOM.iter().all(|name| files.iter().any(|file| file.name.as_str() == *name))
}

#[test]
fn a_call_that_goes_wrong_is_told_or_made_good(rt: HostRuntime) -> Result<(), Fail> {
    let calls = attempt(&rt, rt.alloc(), 0, Wrong::Fails)?.calls;
    for how in [Wrong::Fails, Wrong::IsShort, Wrong::IsInterrupted] {
        let mut hits = [0u32; 4];
        for at in 1..=calls {
            let trial = attempt(&rt, rt.alloc(), at, how)?;
            let failed = if how == Wrong::Fails { trial.hit } else { None };
            let (status, line) = ending_of(failed);
            assert_eq!(rt; trial.status, status, "call {at} {how:?}");
            assert_eq!(rt; trial.err.as_slice(), line.as_bytes(), "call {at} {how:?}");
            assert!(rt;
                REPORT.as_bytes().starts_with(&trial.out),
                "call {at} {how:?}"
            );
            if status == Status::Done {
                assert_eq!(rt;
                    trial.out.as_slice(),
                    REPORT.as_bytes(),
                    "call {at} {how:?}"
                );
                assert!(rt; are_whole(&trial.files), "call {at} {how:?}");
            }
            if let Some(part) = trial.hit {
                let part = part as usize;
                hits[part] = hits[part].saturating_add(1);
            }
        }
        assert!(rt; hits.iter().all(|&count| 0 < count), "{how:?}");
    }
    Ok(())
}

// The arguments of a process.
#[derive(Drop)]
struct Arguments<'a>(&'a [&'a [u8]]);

impl Env for Arguments<'_> {
    fn arg(&self, i: usize, buf: &mut [u8]) -> Result<usize, FillError> {
        let Some(argument) = self.0.get(i) else {
            return Err(FillError::NotPresent);
        };
        let Some(room) = buf.get_mut(..argument.len()) else {
            return Err(FillError::TooLong);
        };
        room.copy_from_slice(argument);
        Ok(argument.len())
    }

    fn var(&self, _name: &str, _buf: &mut [u8]) -> Result<usize, FillError> {
        Err(FillError::NotPresent)
    }

    fn var_at(&self, _i: usize, _buf: &mut [u8]) -> Result<usize, FillError> {
        Err(FillError::NotPresent)
    }
}

// The arguments of a process, and its words.
type Words = (
    &'static [&'static [u8]],
    Result<&'static [&'static str], Status>,
);

const WORDS: [Words; 4] = [
    (&[], Ok(&[])),
    (&[b"lumos"], Ok(&[])),
    (&[b"lumos", b"run", b""], Ok(&["run", ""])),
    (&[b"lumos", b"run", b"\xff"], Err(Status::Usage)),
];

#[test]
fn words_are_the_arguments_behind_the_name(rt: HostRuntime) -> Result<(), Fail> {
    for (arguments, want) in WORDS {
        match (words_of(&(Arguments(arguments), rt.alloc())), want) {
            (Ok(words), Ok(want)) => assert!(rt; words == texts(rt.alloc(), want)?),
            (Err(status), Err(want)) => assert_eq!(rt; status, want),
            _ => panic!(rt; "{}", arguments.len()),
        }
    }
    Ok(())
}

// The words of a test's process are no command's.
#[test]
fn the_program_ends_with_the_code_of_its_status(rt: HostRuntime) {
    assert!(rt; end(&rt) == ExitCode::from(2));
}
