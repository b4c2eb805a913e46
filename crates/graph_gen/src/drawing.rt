// The lines of the text, drawn one at a time.
ghost use Rattle.std.specs.Prelude.{◌≡◌, ◌≤◌, ◌<◌, ◌+◌, ◌^◌, ◌∷◌, ◌++◌, [], true, false, length, take, drop};
ghost use Rattle.std.specs.Fmt.{decimal};
ghost use Rattle.graph_gen.specs.Drawings.{IsDrawing, left_of};
ghost use Rattle.graph_gen.specs.Generated.{draw_at, edge_line, generated, generated_edge, number_at};

use lumos_base::{Edge, Vertex, Weight};

// The linear congruential generator that Knuth gives for MMIX.
const MULTIPLIER: u64 = 6364136223846793005;

const INCREMENT: u64 = 1442695040888963407;

// The longest line that three numbers of 32 bits make: ten digits and the byte behind them, each.
const LINE_ROOM: usize = 33;

/// What is left of a text: the rest of the line that was drawn last, which stands at the end of its room, and the edges
/// that are still to be drawn from a number on.
#[derive(Drop)]
pub struct Drawing {
    number: u64,
    vertices: u32,
    edges: u64,
    line: [u8; LINE_ROOM],
    start: usize,
}

impl Drawing {
    /// A whole text, of which nothing is drawn.
    pub fn new(seed: u64, vertices: u32, edges: u64) -> Drawing
        requires { 1 ≤ vertices }
        ensures text { left_of result ≡ generated seed vertices edges }
        ensures sound { IsDrawing result }
    {
        Drawing {
            number: seed,
            vertices,
            edges,
            line: [0; LINE_ROOM],
            start: LINE_ROOM,
        }
    }

    /// Gives the first bytes that are left, as many as the buffer takes, and answers how many.
    pub fn fill(&mut self, buf: &mut [u8]) -> usize
        requires { IsDrawing self.old }
        ensures sound { IsDrawing self.new }
        ensures bytes { take result buf.new ++ left_of self.new ≡ left_of self.old }
        ensures within { result ≤ length buf.old }
        ensures short { result < length buf.old → left_of self.new ≡ [] }
        ensures behind { drop result buf.new ≡ drop result buf.old }
    {
        let mut given = 0;
        while given < buf.len() && self.has_bytes() {
            given = self.give(buf, given);
        }
        given
    }

    // Whether bytes are left. Where the last line is spent, the next one is drawn.
    fn has_bytes(&mut self) -> bool
        requires { IsDrawing self.old }
        ensures sound { IsDrawing self.new }
        ensures same { left_of self.new ≡ left_of self.old }
        ensures line { result ≡ true → self.new.start < 33 }
        ensures end { result ≡ false → left_of self.new ≡ [] }
    {
        if self.start < LINE_ROOM {
            return true;
        }
        if self.edges == 0 {
            return false;
        }
        self.draw_line();
        true
    }

    // Gives the bytes of the line from a place in the buffer on, as many as it takes, and answers the place behind them.
    fn give(&mut self, buf: &mut [u8], given: usize) -> usize
        requires sound { IsDrawing self.old }
        requires line { self.old.start < 33 }
        requires room { given < length buf.old }
        ensures sound { IsDrawing self.new }
        ensures bytes { take result buf.new ++ left_of self.new ≡ take given buf.old ++ left_of self.old }
        ensures more { given < result }
        ensures within { result ≤ length buf.old }
        ensures behind { drop result buf.new ≡ drop result buf.old }
    {
        let rest = &self.line[self.start..];
        let count = rest.len().min(buf.len() - given);
        buf[given..given + count].copy_from_slice(&rest[..count]);
        self.start += count;
        given + count
    }

    // Draws the line of the next edge in place of one that is spent.
    fn draw_line(&mut self)
        requires sound { IsDrawing self.old }
        requires spent { self.old.start ≡ 33 }
        requires edges { 0 < self.old.edges }
        ensures sound { IsDrawing self.new }
        ensures same { left_of self.new ≡ left_of self.old }
        ensures line { self.new.start < 33 }
    {
        let edge = self.draw_edge();
        self.start = write_line(edge, &mut self.line);
        self.edges -= 1;
    }

    // Draws an edge: its source, its target, and then its weight.
    fn draw_edge(&mut self) -> Edge
        requires { 0 < self.old.vertices }
        ensures edge { result ≡ generated_edge self.old.number self.old.vertices 0 }
        ensures drawn { self.new ≡ record self.old { number = number_at self.old.number 3 } }
    {
        let source = Vertex(self.draw() % self.vertices);
        let target = Vertex(self.draw() % self.vertices);
        let weight = Weight(1 + self.draw() % 16);
        Edge {
            source,
            target,
            weight,
        }
    }

    // Goes on to the next number, and answers its upper 31 bits.
    fn draw(&mut self) -> u32
        ensures value { result ≡ draw_at self.old.number 1 }
        ensures small { result < 2 ^ 31 }
        ensures drawn { self.new ≡ record self.old { number = number_at self.old.number 1 } }
    {
        self.number = self.number.wrapping_mul(MULTIPLIER).wrapping_add(INCREMENT);
        (self.number >> 33) as u32
    }
}

// Writes an edge's line at the end of its room, and answers where it begins.
fn write_line(edge: Edge, line: &mut [u8]) -> usize
    requires { length line.old ≡ 33 }
    ensures { drop result line.new ≡ edge_line edge }
{
    let weight = write_field(edge.weight.0, b'\n', line, LINE_ROOM);
    let target = write_field(edge.target.0, b' ', line, weight);
    write_field(edge.source.0, b' ', line, target)
}

// Writes a number and the byte behind it before a place, and answers where it begins.
fn write_field(n: u32, behind: u8, line: &mut [u8], end: usize) -> usize
    requires room { 11 ≤ end }
    requires within { end ≤ length line.old }
    ensures text { drop result line.new ≡ decimal n ++ behind ∷ drop end line.old }
    ensures place { end ≤ result + 11 }
    ensures before { result < end }
{
    line[end - 1] = behind;
    itoa::write_digits(u64::from(n), line, end - 1)
}
