// The calls that write the lines.
ghost use Rattle.std.specs.Prelude.{◌≡◌, ◌≤◌, length};
ghost use Rattle.lumos_depot.specs.Causes.{HasCause};
ghost use Rattle.lumos_depot.specs.Streams.{Writes};
ghost use Rattle.lumos_report.specs.Report.{counts_line, ending_line, head_line, kind_word, value_line, why_word, zero_line};

use crate::text::Text;
use crate::{Ending, Kind, Why};
use grid_format::GridInfo;
use io_account::Counts;
use lumos_base::{Line, Vertex};
use lumos_depot::{Failed, Sink};

/// Writes the first line of a report: `lumos NAME vertices N edges M parts P`, with a program's word and the numbers of
/// a grid's head. Like the other lines of the report, its form is our own.
///
/// `Failed` comes only where the sink's count of faults rose, and leaves a front of the line written.
#[tactic(auto, unfolding(crate::specs::Report::head_line))]
pub fn write_head<O: Sink>(out: &mut O, name: &Line, info: GridInfo) -> Result<(), Failed>
    ensures bytes { Writes (O.written out.old) (O.written out.new) result (head_line name.now info) }
    ensures cause { HasCause (O.faults out.old) (O.faults out.new) result }
{
    let mut text = Text::new();
    text.push_text("lumos ");
    text.push_bytes(name.bytes());
    text.push_text(" vertices ");
    text.push_number(u64::from(info.vertices));
    text.push_text(" edges ");
    text.push_number(info.edges);
    text.push_text(" parts ");
    text.push_number(u64::from(info.parts));
    text.push_text("\n");
    out.write_all(text.bytes())
}

/// Writes the line of the values at first: `iteration 0`.
///
/// `Failed` comes only where the sink's count of faults rose, and leaves a front of the line written.
#[tactic(auto, unfolding(crate::specs::Report::zero_line))]
pub fn write_zero<O: Sink>(out: &mut O) -> Result<(), Failed>
    ensures bytes { Writes (O.written out.old) (O.written out.new) result zero_line }
    ensures cause { HasCause (O.faults out.old) (O.faults out.new) result }
{
    out.write_all(b"iteration 0\n")
}

// The word of a kind.
#[tactic(auto, unfolding(crate::specs::Report::kind_word))]
fn kind_text(kind: Kind) -> &'static str
    ensures text { result.now ≡ kind_word kind }
    ensures short { length result.now ≤ 4 }
{
    match kind {
        Kind::Full => "full",
        Kind::Fed => "fed",
    }
}

/// Writes the line of iteration `t`: `iteration T KIND primary A secondary B skipped C empty D moved E`, where `KIND` is
/// `full` or `fed`. Every number of its type may stand in it.
///
/// `Failed` comes only where the sink's count of faults rose, and leaves a front of the line written.
#[tactic(auto, unfolding(crate::specs::Report::counts_line))]
pub fn write_counts<O: Sink>(out: &mut O, t: u32, kind: Kind, counts: &Counts) -> Result<(), Failed>
    ensures bytes { Writes (O.written out.old) (O.written out.new) result (counts_line t kind counts.now) }
    ensures cause { HasCause (O.faults out.old) (O.faults out.new) result }
{
    let mut text = Text::new();
    text.push_text("iteration ");
    text.push_number(u64::from(t));
    text.push_text(" ");
    text.push_text(kind_text(kind));
    text.push_text(" primary ");
    text.push_number(counts.primary);
    text.push_text(" secondary ");
    text.push_number(counts.secondary);
    text.push_text(" skipped ");
    text.push_number(counts.skipped);
    text.push_text(" empty ");
    text.push_number(counts.empty);
    text.push_text(" moved ");
    text.push_number(counts.moved);
    text.push_text("\n");
    out.write_all(text.bytes())
}

/// Writes the line of a vertex: its number and its shown value, which has at most 96 bytes where a program shows it;
/// any text of a line may be given.
///
/// `Failed` comes only where the sink's count of faults rose, and leaves a front of the line written.
#[tactic(auto, unfolding(crate::specs::Report::value_line))]
pub fn write_value<O: Sink>(out: &mut O, vertex: Vertex, shown: &Line) -> Result<(), Failed>
    ensures bytes { Writes (O.written out.old) (O.written out.new) result (value_line vertex.0 shown.now) }
    ensures cause { HasCause (O.faults out.old) (O.faults out.new) result }
{
    let mut text = Text::new();
    text.push_number(u64::from(vertex.0));
    text.push_text(" ");
    text.push_bytes(shown.bytes());
    text.push_text("\n");
    out.write_all(text.bytes())
}

// The word of a reason.
#[tactic(auto, unfolding(crate::specs::Report::why_word))]
fn why_text(why: Why) -> &'static str
    ensures text { result.now ≡ why_word why }
    ensures short { length result.now ≤ 5 }
{
    match why {
        Why::Still => "still",
        Why::Limit => "limit",
    }
}

/// Writes the last line: `still T` or `limit T`, with the number of the last iteration.
///
/// `Failed` comes only where the sink's count of faults rose, and leaves a front of the line written.
#[tactic(auto, unfolding(crate::specs::Report::ending_line))]
pub fn write_ending<O: Sink>(out: &mut O, ending: Ending) -> Result<(), Failed>
    ensures bytes { Writes (O.written out.old) (O.written out.new) result (ending_line ending) }
    ensures cause { HasCause (O.faults out.old) (O.faults out.new) result }
{
    let mut text = Text::new();
    text.push_text(why_text(ending.why));
    text.push_text(" ");
    text.push_number(u64::from(ending.iterations));
    text.push_text("\n");
    out.write_all(text.bytes())
}
