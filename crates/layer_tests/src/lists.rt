// Edge lists, cut at each place.
ghost use Rattle.std.specs.Prelude.{◌≤◌, length, IfOk, IfSome};

use edge_text::InputWhat::{
    MissingTarget, NotANumber, NumberTooLarge, TooManyFields, VertexBeyond, VertexTooLarge,
    WeightTooLarge,
};
use edge_text::{EdgeReader, InputFault, InputWhat, TextEnd, TextFault, TextLimits, read_pieces};
use lumos_base::{Edge, Vertex, Weight};
use std::test::Fail;

// A text with its limits, and what it reads as.
#[derive(Drop)]
struct Row<'a> {
    text: &'a [u8],
    vertices: Option<u32>,
    max_edges: u64,
    max_bytes: u64,
    both: bool,
    want: Result<&'a [Edge], TextFault>,
}

fn good<'a>(text: &'a [u8], max_bytes: u64, both: bool, want: &'a [Edge]) -> Row<'a> {
    Row {
        text,
        vertices: Some(5),
        max_edges: 3,
        max_bytes,
        both,
        want: Ok(want),
    }
}

// A text whose second line is faulty.
fn faulty<'a>(text: &'a [u8], vertices: Option<u32>, what: InputWhat) -> Row<'a> {
    Row {
        text,
        vertices,
        max_edges: 3,
        max_bytes: 99,
        both: false,
        want: Err(TextFault::Input(InputFault { line: 2, what })),
    }
}

fn beyond<'a>(text: &'a [u8], max_bytes: u64, both: bool, fault: TextFault) -> Row<'a> {
    Row {
        text,
        vertices: None,
        max_edges: 2,
        max_bytes,
        both,
        want: Err(fault),
    }
}

fn edge(source: u32, target: u32, weight: u32) -> Edge {
    Edge {
        source: Vertex(source),
        target: Vertex(target),
        weight: Weight(weight),
    }
}

fn limits(row: &Row) -> TextLimits
    ensures vertex { result.max_vertex ≤ 268435455 }
    ensures vertices { IfSome result.vertices (λ vertices. vertices ≤ 268435456) }
    ensures edges { result.max_edges ≤ 2147483648 }
    ensures bytes { result.max_bytes ≤ 1099511627776 }
{
    TextLimits {
        max_vertex: 268435455,
        vertices: match row.vertices {
            None => None,
            Some(vertices) => Some(vertices.min(268435456)),
        },
        max_edges: row.max_edges.min(2147483648),
        max_bytes: row.max_bytes.min(1099511627776),
        both: row.both,
    }
}

// How many edges a text makes that is cut in two, and its edges.
fn read(
    mut reader: EdgeReader,
    first: &[u8],
    second: &[u8],
    places: &mut [Edge],
) -> Result<usize, TextFault>
    requires { 2 ≤ length places.old }
    ensures { IfOk result (λ made. made ≤ length places.new) }
{
    let fed = match reader.feed(first, places) {
        Ok(fed) => fed.made,
        Err(fault) => return Err(fault),
    };
    if fed + 2 > places.len() {
        return Ok(fed);
    }
    let made = match reader.feed(second, &mut places[fed..]) {
        Ok(more) => fed + more.made,
        Err(fault) => return Err(fault),
    };
    if made + 2 > places.len() {
        return Ok(made);
    }
    match reader.finish(&mut places[made..]) {
        Ok(end) => Ok(made + end.made),
        Err(fault) => Err(fault),
    }
}

fn agrees(row: &Row, cut: usize) -> bool {
    let mut places = [edge(9, 9, 9); 8];
    let (first, second) = row.text.split_at(cut.min(row.text.len()));
    match read(EdgeReader::new(limits(row)), first, second, &mut places) {
        Ok(made) => row.want == Ok(&places[..made]),
        Err(fault) => row.want == Err(fault),
    }
}

#[test]
fn texts_read_as_their_format_says_wherever_they_are_cut(rt: HostRuntime) {
    let two = [edge(0, 1, 1), edge(1, 2, 1)];
    let turned = [edge(0, 1, 1), edge(1, 0, 1), edge(2, 2, 4294967295)];
    let rows = [
        good(b"# Nodes: 3\r\n\n% c\n0\t1\r\n1 2", 26, false, &two),
        good(b" #c\n 0 1\n \r\n02\t2  4294967295 \r", 32, true, &turned),
        good(b"0 1", 3, false, &two[..1]),
        faulty(b"0 1\n3 4 5 6", None, TooManyFields),
        faulty(b"0 1\n1 x", None, NotANumber),
        faulty(b"0 1\n1", None, MissingTarget),
        faulty(b"0 1\n18446744073709551616 0", None, NumberTooLarge),
        faulty(b"0 1\n268435456 0", Some(2), VertexTooLarge),
        faulty(b"0 1\n0 1 4294967296", None, WeightTooLarge),
        faulty(b"0 1\n0 2", Some(2), VertexBeyond),
        faulty(b"0 1\n3 4 x 6", None, NotANumber),
        faulty(b"0 1\n99999999999999999999x", None, NotANumber),
        faulty(b"0 1\n0 0 1 \r#\n", None, TooManyFields),
        beyond(
            b"0 1\n1 2\n2 3\n",
            99,
            false,
            TextFault::TooManyEdges { limit: 2 },
        ),
        beyond(
            b"0 1\n1 2\n",
            99,
            true,
            TextFault::TooManyEdges { limit: 2 },
        ),
        beyond(b"0 1\n", 3, false, TextFault::InputTooLong { limit: 3 }),
    ];
    for (index, row) in rows.iter().enumerate() {
        for cut in 0..=row.text.len() {
            assert!(rt; agrees(row, cut), "row {index} cut at {cut}");
        }
    }
}

#[test]
fn pieces_read_as_one_text(rt: HostRuntime) -> Result<(), Fail> {
    let pieces = [
        Vec::from_slice(rt.alloc(), b"0 1\n1".as_slice())?,
        Vec::from_slice(rt.alloc(), b"0 5".as_slice())?,
    ];
    let mut places = [edge(9, 9, 9); 10];
    let limits = TextLimits {
        max_vertex: 10,
        vertices: None,
        max_edges: 2,
        max_bytes: 8,
        both: false,
    };
    let end = read_pieces(limits, &pieces, &mut places);
    let want = TextEnd {
        made: 2,
        edges: 2,
        greatest: Some(10),
    };
    assert_eq!(rt; end, Ok(want));
    assert_eq!(rt; places[1], edge(10, 5, 1));
    Ok(())
}
