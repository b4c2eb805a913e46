// Whole lines of two or three numbers, as nearly all lines are, read at a stroke.
ghost use Rattle.std.specs.Prelude.{◌≡◌, ◌≤◌, ◌<◌, ◌+◌, ◌^◌, ◌++◌, ℕ, List, length, take, IfSome, true};
ghost use Rattle.std.specs.List.{list_all};
ghost use Rattle.edge_text.specs.Fields.{is_blank, is_digit, value_of};
ghost use Rattle.edge_text.specs.Places.{HasPlaces};
ghost use Rattle.edge_text.specs.Plain.{IsEnd, IsFieldAt, IsPlain, IsWeightAt};
ghost use Rattle.edge_text.specs.Reader.{HasRead, run_state};
ghost use Rattle.lumos_base.specs.declared.records.Edge.{Edge};

use crate::TextLimits;
use crate::edges::{count_of, greatest_with, put_edges};
use crate::numbers::{is_space, vertex_of, weight_of};
use crate::part::edge_of;
use lumos_base::Edge;

// A line at the front of a text: its length without its line feed, and its edge.
#[derive(Clone, Copy, Drop)]
struct PlainLine {
    len: usize,
    edge: Edge,
}

/// Where a run of plain lines stands: the bytes of the text that it took, the edges that stand in their places, and
/// the lines, edges and greatest end of the whole text so far.
#[derive(Clone, Copy, Drop)]
pub struct PlainRun {
    pub used: usize,
    pub made: usize,
    pub lines: u64,
    pub edges: u64,
    pub greatest: Option<u32>,
}

// Bytes at the front of a text that write a number.
#[derive(Clone, Copy, Drop)]
struct Written {
    value: u64,
    len: usize,
}

// Bytes at the front of a text that end a line, and the weight of its edge.
#[derive(Clone, Copy, Drop)]
struct Tail {
    weight: u32,
    len: usize,
}

// The digits at the front of a text, ten at most. The loop has a fixed number of turns, which the compiler lays
// out one by one.
fn digits_at(text: &[u8]) -> Written
    ensures within { result.len ≤ length text.now }
    ensures digits { list_all is_digit (take result.len text.now) ≡ true }
    ensures value { value_of (take result.len text.now) ≡ result.value }
{
    let mut value = 0;
    for len in 0..10usize {
        if len >= text.len() {
            return Written { value, len };
        }
        if !text[len].is_ascii_digit() {
            return Written { value, len };
        }
        value = 10 * value + u64::from(text[len] - b'0');
    }
    Written { value, len: 10 }
}

// How many blanks stand at the front of a text.
fn blanks_at(text: &[u8]) -> usize
    ensures within { result ≤ length text.now }
    ensures blank { list_all is_blank (take result text.now) ≡ true }
{
    let mut len = 0;
    while len < text.len() && is_space(text[len]) {
        len += 1;
    }
    len
}

// The blanks and then the digits at the front of a text, where both are there.
fn field_at(text: &[u8]) -> Option<Written>
    ensures { IfSome result (λ field. IsFieldAt text.now field.len field.value) }
{
    let blanks = blanks_at(text);
    let digits = digits_at(&text[blanks..]);
    if blanks == 0 || digits.len == 0 {
        return None;
    }
    Some(Written {
        value: digits.value,
        len: blanks + digits.len,
    })
}

// The place of the line feed, if a line ends there, with or without a carriage return before it.
fn ends_at(text: &[u8], at: usize) -> Option<usize>
    ensures { IfSome result (λ len. IsEnd text.now at len) }
{
    if at >= text.len() {
        return None;
    }
    if text[at] == b'\n' {
        return Some(at);
    }
    if text[at] != b'\r' {
        return None;
    }
    if at + 1 < text.len() && text[at + 1] == b'\n' {
        Some(at + 1)
    } else {
        None
    }
}

// The weight that stands behind an edge's ends, or 1 where the line ends there.
fn weight_at(text: &[u8]) -> Option<Tail>
    ensures { IfSome result (λ tail. IsWeightAt text.now tail.len tail.weight) }
{
    if let Some(len) = ends_at(text, 0) {
        return Some(Tail { weight: 1, len });
    }
    let Some(field) = field_at(text) else {
        return None;
    };
    let Ok(weight) = weight_of(Some(field.value)) else {
        return None;
    };
    match ends_at(text, field.len) {
        Some(len) => Some(Tail { weight, len }),
        None => None,
    }
}

// The line at the front of a text, if it is nothing but the digits of an edge with blanks between, and good.
fn plain_line(limits: &TextLimits, text: &[u8]) -> Option<PlainLine>
    ensures { IfSome result (λ plain. IsPlain limits.now text.now plain.len plain.edge) }
{
    let digits = digits_at(text);
    if digits.len == 0 {
        return None;
    }
    let Ok(source) = vertex_of(limits, Some(digits.value)) else {
        return None;
    };
    let behind = &text[digits.len..];
    let Some(field) = field_at(behind) else {
        return None;
    };
    let Ok(target) = vertex_of(limits, Some(field.value)) else {
        return None;
    };
    let Some(tail) = weight_at(&behind[field.len..]) else {
        return None;
    };
    Some(PlainLine {
        len: digits.len + field.len + tail.len,
        edge: edge_of(source, target, tail.weight),
    })
}

/// Goes on with a run over the plain lines of a text, until another line comes, the text ends, or fewer than two
/// edges are free in the places or within the limit.
pub fn plain_lines(
    limits: &TextLimits,
    text: &[u8],
    edges_out: &mut [Edge],
    run: PlainRun,
) -> PlainRun
    requires used { run.used ≤ length text.now }
    requires made { run.made ≤ length edges_out.old }
    requires lines { run.lines + length text.now < 2 ^ 63 }
    requires edges { run.edges ≤ limits.now.max_edges }
    requires limit { limits.now.max_edges ≤ 2147483648 }
    ensures reads { (seen : List ℕ) (edges : List Edge) (bytes : ℕ) → bytes + length text.now ≤ limits.now.max_bytes
        → HasRead (seen ++ take run.used text.now) (edges ++ take run.made edges_out.old) (run_state limits.now bytes run)
        → HasRead (seen ++ take result.used text.now) (edges ++ take result.made edges_out.new) (run_state limits.now bytes result) }
    ensures free { (seen : List ℕ) (edges : List Edge) (bytes : ℕ) → bytes + length text.now ≤ limits.now.max_bytes
        → HasRead (seen ++ take run.used text.now) (edges ++ take run.made edges_out.old) (run_state limits.now bytes run)
        → HasPlaces limits.now seen text.now run.used (length edges + length edges_out.old)
        → HasPlaces limits.now seen text.now result.used (length edges + length edges_out.old) }
    ensures within { result.used ≤ length text.now }
    ensures places { result.made ≤ length edges_out.new }
    ensures lines { result.lines + run.used ≤ run.lines + result.used }
    ensures edges { result.edges ≤ limits.now.max_edges }
    ensures idle { result.used ≡ run.used → result.made ≡ run.made }
{
    let mut run = run;
    while run.used < text.len()
        && run.made + 2 <= edges_out.len()
        && run.edges + 2 <= limits.max_edges
    {
        let Some(plain) = plain_line(limits, &text[run.used..]) else {
            return run;
        };
        let edge = Some(plain.edge);
        run = PlainRun {
            used: run.used + plain.len + 1,
            made: put_edges(edges_out, run.made, limits.both, edge),
            lines: run.lines + 1,
            edges: run.edges + count_of(limits.both, edge),
            greatest: greatest_with(run.greatest, edge),
        };
    }
    run
}
