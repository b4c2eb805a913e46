// The reader.
ghost use Rattle.std.specs.Prelude.{◌≡◌, ◌≤◌, ◌<◌, ◌⊎◌, ◌+◌, ◌++◌, ◌∷◌, [], ℕ, Bool, List, length, take, IfErr, IfOk, IfSome, MatchResult, None, Some, Ok, Err};
ghost use Rattle.lumos_base.specs.declared.records.Edge.{Edge};
ghost use Rattle.edge_text.specs.declared.fault.TextFault.{TextFault};
ghost use Rattle.edge_text.specs.Lines.{lines_of, rest_of};
ghost use Rattle.edge_text.specs.Places.{HasPlaces, IsDecided};
ghost use Rattle.edge_text.specs.Reader.{HasRead, edges_or_fault};
ghost use Rattle.edge_text.specs.Reading.{edges_of, greatest_end, line_edge, line_of, listed, reading};

use crate::edges::{count_of, greatest_with, put_edges};
use crate::part::{FRESH, OpenLine, is_fresh, line_end, run_of};
use crate::plain::{PlainRun, plain_lines};
use crate::{Fed, InputFault, InputWhat, TextEnd, TextFault, TextLimits};
use lumos_base::Edge;
use std::marker::Model;

/// Reads the text of an edge list, in the form of SNAP's lists, in any pieces. It keeps no line, and takes no memory.
///
/// A line is two vertices and, where it has one, a weight, with spaces or tabs between; it may be blank, or a comment
/// that begins with `#` or `%`, and a carriage return may stand before its line feed.
#[derive(Drop)]
pub struct EdgeReader {
    limits: TextLimits,
    bytes: u64,
    lines: u64,
    edges: u64,
    greatest: Option<u32>,
    line: OpenLine,
    fault: Option<TextFault>,
}

impl Model for EdgeReader {
    ghost use Rattle.std.specs.Prelude.{◌≤◌};
    ghost use Rattle.edge_text.specs.Reader.{ReaderState};

    ghost Value = { ReaderState };

    ghost view = { λ r. record { limits = r.limits; bytes = r.bytes; lines = r.lines; edges = r.edges; greatest = r.greatest; line = r.line; fault = r.fault } };

    ghost invariant = { λ r. (r.limits.max_vertex ≤ 268435455) × (r.limits.max_edges ≤ 2147483648) × (r.limits.max_bytes ≤ 1099511627776)
        × (r.bytes ≤ r.limits.max_bytes) × (r.lines ≤ r.bytes) × (r.edges ≤ r.limits.max_edges) };
}

// The edge of a line if its edges don't pass the limit, or the line's fault.
fn line_result(
    limits: &TextLimits,
    lines: u64,
    edges: u64,
    what: Result<Option<Edge>, InputWhat>,
) -> Result<Option<Edge>, TextFault>
    requires lines { lines < 1099511627777 }
    requires edges { edges ≤ 2147483648 }
    ensures value { line_of limits.now lines edges what ≡ edges_or_fault limits.now.both result }
    ensures fits { IfOk result (λ edge. edges + length (edges_of limits.now.both edge) ≤ limits.now.max_edges) }
{
    match what {
        Ok(edge) => {
            if edges + count_of(limits.both, edge) > limits.max_edges {
                Err(TextFault::TooManyEdges {
                    limit: limits.max_edges,
                })
            } else {
                Ok(edge)
            }
        }
        Err(what) => Err(TextFault::Input(InputFault {
            line: lines + 1,
            what,
        })),
    }
}

impl EdgeReader {
    /// A reader that has read nothing, for these limits: a greatest vertex of at most 268435455, at most 268435456
    /// stated vertices, 2147483648 edges and 1099511627776 bytes, which are the limits of this project's grids.
    pub fn new(limits: TextLimits) -> EdgeReader
        requires vertex { limits.max_vertex ≤ 268435455 }
        requires vertices { IfSome limits.vertices (λ vertices. vertices ≤ 268435456) }
        requires edges { limits.max_edges ≤ 2147483648 }
        requires bytes { limits.max_bytes ≤ 1099511627776 }
        ensures read { HasRead [] [] result }
        ensures limits { result.limits ≡ limits }
        ensures bytes { result.bytes ≡ 0 }
    {
        EdgeReader {
            limits,
            bytes: 0,
            lines: 0,
            edges: 0,
            greatest: None,
            line: FRESH,
            fault: None,
        }
    }

    // Ends a line with these last bytes, its line feed among them, by what it means, and puts its edges behind so
    // many others.
    fn end_line(
        &mut self,
        used: usize,
        what: Result<Option<Edge>, InputWhat>,
        edges_out: &mut [Edge],
        made: usize,
    ) -> Result<Fed, TextFault>
        requires some { 0 < used }
        requires room { self.old.bytes + used ≤ self.old.limits.max_bytes }
        requires places { made + 2 ≤ length edges_out.old }
        ensures reads { (seen bytes : List ℕ) (edges : List Edge) → HasRead seen (edges ++ take made edges_out.old) self.old → used ≡ length bytes + 1 → lines_of bytes ≡ [] → what ≡ line_edge self.old.limits (rest_of seen ++ bytes)
            → MatchResult result (λ fed. HasRead (seen ++ (bytes ++ 10 ∷ [])) (edges ++ take fed.made edges_out.new) self.new)
            (λ fault. (more : List ℕ) → reading self.old.limits (seen ++ (bytes ++ 10 ∷ more)) ≡ Err fault) }
        ensures within { IfOk result (λ fed. (fed.used ≡ used) × (fed.made ≤ length edges_out.new)) }
        ensures kept { IfErr result (λ fault. self.new.fault ≡ Some fault) }
        ensures limits { self.new.limits ≡ self.old.limits }
        ensures counts { IfOk result (λ _. self.new.bytes ≡ self.old.bytes + used) }
    {
        match line_result(&self.limits, self.lines, self.edges, what) {
            Ok(edge) => {
                let both = self.limits.both;
                self.bytes += used as u64;
                self.lines += 1;
                self.edges += count_of(both, edge);
                self.greatest = greatest_with(self.greatest, edge);
                self.line = FRESH;
                let made = put_edges(edges_out, made, both, edge);
                Ok(Fed { used, made })
            }
            Err(fault) => {
                self.fault = Some(fault);
                Err(fault)
            }
        }
    }

    // Takes the plain lines at the front of a text, if it stands at a line's start, and puts their edges behind so
    // many others.
    fn take_plain(&mut self, text: &[u8], edges_out: &mut [Edge], made: usize) -> Fed
        requires room { self.old.bytes + length text.now ≤ self.old.limits.max_bytes }
        requires places { made + 2 ≤ length edges_out.old }
        ensures reads { (seen : List ℕ) (edges : List Edge) → HasRead seen (edges ++ take made edges_out.old) self.old
            → HasRead (seen ++ take result.used text.now) (edges ++ take result.made edges_out.new) self.new }
        ensures free { (seen : List ℕ) (edges : List Edge) → HasRead seen (edges ++ take made edges_out.old) self.old
            → HasPlaces self.old.limits seen text.now result.used (length edges + length edges_out.old) }
        ensures within { result.used ≤ length text.now }
        ensures places { result.made ≤ length edges_out.new }
        ensures idle { result.used ≡ 0 → result.made ≡ made }
        ensures limits { self.new.limits ≡ self.old.limits }
        ensures counts { self.new.bytes ≡ self.old.bytes + result.used }
    {
        if !is_fresh(self.line) {
            return Fed { used: 0, made };
        }
        let start = PlainRun {
            used: 0,
            made,
            lines: self.lines,
            edges: self.edges,
            greatest: self.greatest,
        };
        let run = plain_lines(&self.limits, text, edges_out, start);
        self.bytes += run.used as u64;
        self.lines = run.lines;
        self.edges = run.edges;
        self.greatest = run.greatest;
        Fed {
            used: run.used,
            made: run.made,
        }
    }

    // Takes the bytes of a text up to the end of its first line, or all, and puts its edges behind so many others.
    fn take_line(
        &mut self,
        text: &[u8],
        edges_out: &mut [Edge],
        made: usize,
    ) -> Result<Fed, TextFault>
        requires some { 0 < length text.now }
        requires room { self.old.bytes + length text.now ≤ self.old.limits.max_bytes }
        requires places { made + 2 ≤ length edges_out.old }
        ensures reads { (seen : List ℕ) (edges : List Edge) → HasRead seen (edges ++ take made edges_out.old) self.old
            → MatchResult result (λ fed. HasRead (seen ++ take fed.used text.now) (edges ++ take fed.made edges_out.new) self.new)
            (λ fault. (more : List ℕ) → reading self.old.limits (seen ++ (text.now ++ more)) ≡ Err fault) }
        ensures free { (seen : List ℕ) (edges : List Edge) → HasRead seen (edges ++ take made edges_out.old) self.old
            → MatchResult result (λ fed. HasPlaces self.old.limits seen text.now fed.used (length edges + length edges_out.old))
            (IsDecided self.old.limits seen text.now (length edges + length edges_out.old)) }
        ensures within { IfOk result (λ fed. (0 < fed.used) × (fed.used ≤ length text.now) × (fed.made ≤ length edges_out.new)) }
        ensures kept { IfErr result (λ fault. self.new.fault ≡ Some fault) }
        ensures limits { self.new.limits ≡ self.old.limits }
        ensures counts { IfOk result (λ fed. self.new.bytes ≡ self.old.bytes + fed.used) }
    {
        let line = self.line;
        let run = run_of(&self.limits, line, text);
        if run.used == text.len() {
            self.bytes += run.used as u64;
            self.line = run.line;
            return Ok(Fed {
                used: run.used,
                made,
            });
        }
        let what = line_end(&self.limits, run.line);
        self.end_line(run.used + 1, what, edges_out, made)
    }

    // Takes plain lines, or else one line.
    fn take_some(
        &mut self,
        text: &[u8],
        edges_out: &mut [Edge],
        made: usize,
    ) -> Result<Fed, TextFault>
        requires some { 0 < length text.now }
        requires room { self.old.bytes + length text.now ≤ self.old.limits.max_bytes }
        requires places { made + 2 ≤ length edges_out.old }
        ensures reads { (seen : List ℕ) (edges : List Edge) → HasRead seen (edges ++ take made edges_out.old) self.old
            → MatchResult result (λ fed. HasRead (seen ++ take fed.used text.now) (edges ++ take fed.made edges_out.new) self.new)
            (λ fault. (more : List ℕ) → reading self.old.limits (seen ++ (text.now ++ more)) ≡ Err fault) }
        ensures free { (seen : List ℕ) (edges : List Edge) → HasRead seen (edges ++ take made edges_out.old) self.old
            → MatchResult result (λ fed. HasPlaces self.old.limits seen text.now fed.used (length edges + length edges_out.old))
            (IsDecided self.old.limits seen text.now (length edges + length edges_out.old)) }
        ensures within { IfOk result (λ fed. (0 < fed.used) × (fed.used ≤ length text.now) × (fed.made ≤ length edges_out.new)) }
        ensures kept { IfErr result (λ fault. self.new.fault ≡ Some fault) }
        ensures limits { self.new.limits ≡ self.old.limits }
        ensures counts { IfOk result (λ fed. self.new.bytes ≡ self.old.bytes + fed.used) }
    {
        let fed = self.take_plain(text, edges_out, made);
        if fed.used > 0 {
            return Ok(fed);
        }
        self.take_line(text, edges_out, fed.made)
    }

    // Takes the lines of a text until it ends, or fewer than two places are free.
    fn take_lines(&mut self, text: &[u8], edges_out: &mut [Edge]) -> Result<Fed, TextFault>
        requires { self.old.bytes + length text.now ≤ self.old.limits.max_bytes }
        ensures reads { (seen : List ℕ) (edges : List Edge) → HasRead seen edges self.old
            → MatchResult result (λ fed. HasRead (seen ++ take fed.used text.now) (edges ++ take fed.made edges_out.new) self.new)
            (λ fault. (more : List ℕ) → reading self.old.limits (seen ++ text.now ++ more) ≡ Err fault) }
        ensures free { (seen : List ℕ) (edges : List Edge) → HasRead seen edges self.old
            → MatchResult result (λ fed. HasPlaces self.old.limits seen text.now fed.used (length edges + length edges_out.old))
            (IsDecided self.old.limits seen text.now (length edges + length edges_out.old)) }
        ensures within { IfOk result (λ fed. (fed.used ≤ length text.now) × (fed.made ≤ length edges_out.new)) }
        ensures stops { IfOk result (λ fed. (fed.used ≡ length text.now) ⊎ (length edges_out.new < fed.made + 2)) }
        ensures progress { IfOk result (λ fed. 0 < length text.now → 2 ≤ length edges_out.new → 0 < fed.used) }
        ensures start { IfOk result (λ fed. fed.used ≡ 0 → fed.made ≡ 0) }
        ensures kept { IfErr result (λ fault. self.new.fault ≡ Some fault) }
        ensures limits { self.new.limits ≡ self.old.limits }
        ensures counts { IfOk result (λ fed. self.new.bytes ≡ self.old.bytes + fed.used) }
    {
        let mut made = 0;
        let mut used = 0;
        while used < text.len() && made + 2 <= edges_out.len() {
            match self.take_some(&text[used..], edges_out, made) {
                Ok(fed) => {
                    made = fed.made;
                    used += fed.used;
                }
                Err(fault) => return Err(fault),
            }
        }
        Ok(Fed { used, made })
    }

    /// Takes bytes of a piece until it ends, or fewer than two places are free in `edges_out`, which needs two at
    /// least. The edges made so far are those of the whole lines taken so far; this call's are the first `made` of
    /// `edges_out`.
    ///
    /// Its faults are the text's, whatever comes behind the piece: `Input` and `TooManyEdges` when the end of such
    /// a line was read, and `InputTooLong` at the byte behind the limit. It takes no byte and decides no fault where
    /// fewer than two places are free. After a fault each later call answers it.
    pub fn feed(&mut self, piece: &[u8], edges_out: &mut [Edge]) -> Result<Fed, TextFault>
        requires { 2 ≤ length edges_out.old }
        ensures reads { (seen : List ℕ) (edges : List Edge) → HasRead seen edges self.old
            → MatchResult result (λ fed. HasRead (seen ++ take fed.used piece.now) (edges ++ take fed.made edges_out.new) self.new)
            (λ fault. (more : List ℕ) → reading self.old.limits (seen ++ piece.now ++ more) ≡ Err fault) }
        ensures free { (seen : List ℕ) (edges : List Edge) → HasRead seen edges self.old
            → MatchResult result (λ fed. HasPlaces self.old.limits seen piece.now fed.used (length edges + length edges_out.old))
            (IsDecided self.old.limits seen piece.now (length edges + length edges_out.old)) }
        ensures within { IfOk result (λ fed. (fed.used ≤ length piece.now) × (fed.made ≤ length edges_out.new)) }
        ensures stops { IfOk result (λ fed. (fed.used ≡ length piece.now) ⊎ (length edges_out.new < fed.made + 2)) }
        ensures progress { IfOk result (λ fed. 0 < length piece.now → 0 < fed.used) }
        ensures again { (fault : TextFault) → self.old.fault ≡ Some fault → (result ≡ Err fault) × (self.new ≡ self.old) }
        ensures kept { IfErr result (λ fault. self.new.fault ≡ Some fault) }
        ensures limits { self.new.limits ≡ self.old.limits }
        ensures counts { IfOk result (λ fed. (self.new.bytes ≡ self.old.bytes + fed.used) × (self.new.bytes ≤ self.new.limits.max_bytes)) }
    {
        if let Some(fault) = self.fault {
            return Err(fault);
        }
        let room = self.limits.max_bytes - self.bytes;
        if piece.len() as u64 <= room {
            return self.take_lines(piece, edges_out);
        }
        let room = room as usize;
        match self.take_lines(&piece[..room], edges_out) {
            Ok(fed) => {
                if fed.used < room {
                    return Ok(fed);
                }
                if fed.made + 2 > edges_out.len() {
                    return Ok(fed);
                }
                let fault = TextFault::InputTooLong {
                    limit: self.limits.max_bytes,
                };
                self.fault = Some(fault);
                Err(fault)
            }
            Err(fault) => Err(fault),
        }
    }

    /// Ends the text, whose last line may lack a line feed, and makes the edges of that line, for which two places
    /// are needed. It answers how many edges there are in all and their greatest end.
    ///
    /// Its faults are those of the whole text: that of its last line, or the one that an earlier call answered.
    pub fn finish(self, edges_out: &mut [Edge]) -> Result<TextEnd, TextFault>
        requires { 2 ≤ length edges_out.old }
        ensures reads { (seen : List ℕ) (edges : List Edge) → HasRead seen edges self
            → MatchResult result (λ end. (reading self.limits seen ≡ Ok (listed self.limits (edges ++ take end.made edges_out.new)))
            × (end.edges ≡ length (edges ++ take end.made edges_out.new))
            × (end.greatest ≡ greatest_end (edges ++ take end.made edges_out.new)))
            (λ fault. reading self.limits seen ≡ Err fault) }
        ensures within { IfOk result (λ end. (end.made ≤ length edges_out.new) × (end.edges ≤ self.limits.max_edges)) }
        ensures again { (fault : TextFault) → self.fault ≡ Some fault → result ≡ Err fault }
    {
        if let Some(fault) = self.fault {
            return Err(fault);
        }
        let what = line_end(&self.limits, self.line);
        match line_result(&self.limits, self.lines, self.edges, what) {
            Ok(edge) => Ok(TextEnd {
                made: put_edges(edges_out, 0, self.limits.both, edge),
                edges: self.edges + count_of(self.limits.both, edge),
                greatest: greatest_with(self.greatest, edge),
            }),
            Err(fault) => Err(fault),
        }
    }
}
