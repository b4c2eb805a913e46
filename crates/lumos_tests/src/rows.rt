// A command over objects in memory, and what is to come of it.
ghost use Rattle.std.specs.Prelude.{◌≡◌, None};

use lumos_depot::{Depot, MemDepot, MemSink, MemSource};
use lumos_top::{Status, lumos};
use std::alloc::Global;
use std::process::Abort;
use std::test::Fail;

// A command by a name: its words with a space between two, the input with the bytes that one read gives and the reads that
// fail, the calls of the depot that fail, the room of `out` and of `err`; and the status, the text, the fault line and the
// directory that is attached.
#[derive(Clone, Copy, Drop)]
pub struct Row<'a> {
    pub name: &'a str,
    pub words: &'a str,
    pub input: &'a str,
    pub step: usize,
    pub fails: &'a [u64],
    pub depot_fails: &'a [u64],
    pub room: usize,
    pub err_room: usize,
    pub status: Status,
    pub out: &'a str,
    pub err: &'a str,
    pub path: Option<&'a str>,
}

// A command that attaches nothing, writes nothing and is done.
pub const ROW: Row<'static> = Row {
    name: "",
    words: "",
    input: "",
    step: 5,
    fails: &[],
    depot_fails: &[],
    room: 900,
    err_room: 99,
    status: Status::Done,
    out: "",
    err: "",
    path: None,
};

// The same in the working directory.
pub const HERE: Row<'static> = Row {
    path: Some("."),
    ..ROW
};

// What came of a command.
#[derive(Drop)]
pub struct Came {
    pub status: Status,
    pub out: MemSink,
    pub err: MemSink,
}

// The name, the words, the input, the text and the fault line, which a text has in this order with `|` between two.
fn five_of(text: &str) -> Option<(&str, &str, &str, &str, &str)> {
    let (name, rest) = text.split_once('|')?;
    let (words, rest) = rest.split_once('|')?;
    let (input, rest) = rest.split_once('|')?;
    let (out, err) = rest.split_once('|')?;
    Some((name, words, input, out, err))
}

// The row of such a text, with the rest from a base.
pub fn row_of<'a>(rt: &impl Abort, base: &Row<'a>, text: &'a str) -> Row<'a> {
    let (name, words, input, out, err) = five_of(text).expect(rt, "a row of five texts");
    Row {
        name,
        words,
        input,
        out,
        err,
        ..*base
    }
}

fn words_of(alloc: Global, text: &str) -> Result<Vec<String>, Fail> {
    let mut words = Vec::new(alloc);
    if text.is_empty() {
        return Ok(words);
    }
    for word in text.split(' ') {
        words.push(String::from_str(alloc, word)?)?;
    }
    Ok(words)
}

// Does a command over any depot.
pub fn perform<D: Depot>(
    rt: &impl Abort,
    alloc: Global,
    row: &Row,
    depot: &mut D,
) -> Result<Came, Fail>
    requires { D.attached depot.old ≡ None }
{
    let words = words_of(alloc, row.words)?;
    let mut input = MemSource::new(alloc, row.input.as_bytes(), row.step.max(1), row.fails)
        .ok()
        .expect(rt, "memory");
    let mut out = MemSink::new(alloc, row.room, &[]).ok().expect(rt, "memory");
    let mut err = MemSink::new(alloc, row.err_room, &[])
        .ok()
        .expect(rt, "memory");
    let status = lumos(alloc, &words, &mut input, depot, &mut out, &mut err);
    Ok(Came { status, out, err })
}

// Compares the status and the texts.
pub fn compare(rt: &impl Abort, row: &Row, came: &Came) {
    assert_eq!(rt; came.err.bytes(), row.err.as_bytes(), "{}", row.name);
    assert_eq!(rt; came.out.bytes(), row.out.as_bytes(), "{}", row.name);
    assert_eq!(rt; came.status, row.status, "{}", row.name);
}

// Does a command over files that may be there already, and compares what comes of it.
pub fn check_over(
    rt: &impl Abort,
    alloc: Global,
    row: &Row,
    depot: &mut MemDepot,
) -> Result<(), Fail>
    requires { depot.old.path ≡ None }
{
    let came = perform(rt, alloc, row, depot)?;
    compare(rt, row, &came);
    assert_eq!(rt;
        depot.path(),
        row.path.map(|path| path.as_bytes()),
        "{}",
        row.name
    );
    Ok(())
}

// The same over empty files.
pub fn check(rt: &impl Abort, alloc: Global, row: &Row) -> Result<(), Fail> {
    let mut depot = MemDepot::new(alloc, row.depot_fails)
        .ok()
        .expect(rt, "memory");
    check_over(rt, alloc, row, &mut depot)
}

// Does each command of a table. The table has the texts of its rows with `@` between two, and the rest from the base.
pub fn check_table<'a>(
    rt: &impl Abort,
    alloc: Global,
    base: &Row<'a>,
    table: &'a str,
) -> Result<(), Fail> {
    for text in table.split('@') {
        check(rt, alloc, &row_of(rt, base, text))?;
    }
    Ok(())
}
