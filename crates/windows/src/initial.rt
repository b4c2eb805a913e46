// The values of a chunk at first, from what leads out of each vertex.
ghost use Rattle.std.specs.Prelude.{◌≡◌, ◌≤◌, ◌<◌, ◌+◌, ◌*◌, ◌-◌, ℕ, List, Err, drop, length, take, IfErr, IfOk, IfSome, IsSome, OnErr, OnOk};
ghost use Rattle.std.specs.List.{list_any, range_with_len};
ghost use Rattle.lumos_base.specs.Records.{info_from};
ghost use Rattle.lumos_depot.specs.Causes.{Rose};
ghost use Rattle.lumos_depot.specs.Files.{SameOutsideTold};
ghost use Rattle.lumos_depot.specs.declared.depot.FileKind.{FileKind};
ghost use Rattle.lumos_depot.specs.Steps.{Moves, Reads, RoseBy};
ghost use Rattle.lumos_law.specs.Sync.{IsChunk};
ghost use Rattle.partition.specs.Parts.{chunk_of, first_vertex, part_length};
ghost use Rattle.value_files.specs.Kept.{value_place};
ghost use Rattle.windows.specs.Kept.{AreFiled};
ghost use Rattle.windows.specs.Sums.{given_values};
ghost use Rattle.windows.specs.Windows.{put_in};

use crate::part::store_filed;
use lumos_base::{Fixed, OutInfo, Vertex};
use lumos_depot::{Depot, Failed, FileKind};
use lumos_law::VertexProgram;
use partition::{Parts, VertexRange};
use value_files::FileFault;

// How many records are read at a time: as many as 64 KiB hold.
const PIECE: usize = 5461;

// The value at first of a vertex, by the bytes of what leads out of it.
fn first_value<G: VertexProgram>(program: &G, vertex: usize, bytes: &[u8]) -> G::Value
    requires whole { length bytes.now ≡ 12 }
    requires few { vertex ≤ 268435456 }
    ensures { result ≡ (G.model program.now).init vertex (info_from bytes.now) }
{
    match OutInfo::get(bytes) {
        Some(info) => program.init(Vertex(vertex as u32), info),
        None => unreachable!(),
    }
}

// Sets the values at first of the vertices from `first` on, by the bytes of what leads out of them.
fn set_values<G: VertexProgram>(program: &G, first: usize, bytes: &[u8], values: &mut [G::Value])
    requires whole { length bytes.now ≡ 12 * length values.old }
    requires few { first + length values.old ≤ 268435456 }
    ensures { IsChunk (λ v. (G.model program.now).init v (info_from (drop (12 * (v - first)) bytes.now))) first values.new }
{
    for i in 0..values.len() {
        values[i] = first_value(program, first + i, &bytes[12 * i..12 * i + 12]);
    }
}

// Sets the values at first of the vertices from `first` on, by their records in Info.
pub(crate) fn read_initial<G: VertexProgram, D: Depot>(
    depot: &mut D,
    program: &G,
    first: u32,
    values: &mut [G::Value],
) -> Result<(), Failed>
    requires attached { IsSome (D.attached depot.old) }
    requires few { first + length values.old ≤ 268435456 }
    requires inside { IfSome (D.holds depot.old FileKind.Info) (λ file. 12 * (first + length values.old) ≤ length file) }
    ensures told { OnOk result (IfSome (D.holds depot.old FileKind.Info) (λ file. IsChunk (given_values (G.model program.now) file) first values.new)) }
    ensures taken { OnOk result (RoseBy (D.taken depot.old FileKind.Info) (D.taken depot.new FileKind.Info) (12 * length values.old)) }
    ensures taken_most { D.taken depot.new FileKind.Info ≤ D.taken depot.old FileKind.Info + 12 * length values.old }
    ensures reads { Reads D.holds D.taken D.stored D.faults D.attached FileKind.Info depot.old depot.new }
    ensures cause { OnErr result (Rose (D.faults depot.old) (D.faults depot.new)) }
{
    let mut bytes = [0; 12 * PIECE];
    let mut done = 0;
    while done < values.len() {
        let past = values.len().min(done + PIECE);
        let from = first as usize + done;
        let room = &mut bytes[..12 * (past - done)];
        let Ok(()) = depot.read_at(FileKind::Info, 12 * from as u64, room) else {
            return Err(Failed);
        };
        set_values(program, from, room, &mut values[done..past]);
        done = past;
    }
    Ok(())
}

// Whether some value contributes.
pub(crate) fn some_contributes<G: VertexProgram>(program: &G, values: &[G::Value]) -> bool
    ensures { (state : ℕ → G.Value) (first : ℕ) → IsChunk state first values.now
        → result ≡ list_any (λ v. (G.model program.now).contributes (state v)) (range_with_len first (length values.now)) }
{
    for i in 0..values.len() {
        if program.contributes(&values[i]) {
            return true;
        }
    }
    false
}

// Sets the values at first of the vertices from `first` on, by their records in Info. It answers whether some of them
// contributes.
fn initial_values<G: VertexProgram, D: Depot>(
    depot: &mut D,
    program: &G,
    first: u32,
    values: &mut [G::Value],
) -> Result<bool, FileFault>
    requires attached { IsSome (D.attached depot.old) }
    requires few { first + length values.old ≤ 268435456 }
    requires inside { IfSome (D.holds depot.old FileKind.Info) (λ file. 12 * (first + length values.old) ≤ length file) }
    ensures given { OnOk result (IfSome (D.holds depot.old FileKind.Info) (λ file. IsChunk (given_values (G.model program.now) file) first values.new)) }
    ensures hot { (state : ℕ → G.Value) → IsChunk state first values.new
        → IfOk result (λ hot. hot ≡ list_any (λ v. (G.model program.now).contributes (state v)) (range_with_len first (length values.old))) }
    ensures taken { OnOk result (RoseBy (D.taken depot.old FileKind.Info) (D.taken depot.new FileKind.Info) (12 * length values.old)) }
    ensures taken_most { D.taken depot.new FileKind.Info ≤ D.taken depot.old FileKind.Info + 12 * length values.old }
    ensures reads { Reads D.holds D.taken D.stored D.faults D.attached FileKind.Info depot.old depot.new }
    ensures intact { IfErr result (λ fault. fault ≡ FileFault.Depot) }
    ensures cause { result ≡ Err FileFault.Depot → Rose (D.faults depot.old) (D.faults depot.new) }
{
    let Ok(()) = read_initial(depot, program, first, values) else {
        return Err(FileFault::Depot);
    };
    Ok(some_contributes(program, values))
}

// Sets the values at first of a range of vertices in memory, where they stand among those of all vertices from 0 on. It
// answers whether some of them contributes.
pub(crate) fn initial_in_memory<G: VertexProgram, D: Depot>(
    depot: &mut D,
    program: &G,
    range: VertexRange,
    even: &mut [G::Value],
) -> Result<bool, FileFault>
    requires attached { IsSome (D.attached depot.old) }
    requires ordered { range.first ≤ range.past }
    requires few { range.past ≤ 268435456 }
    requires even_fits { range.past ≤ length even.old }
    requires inside { IfSome (D.holds depot.old FileKind.Info) (λ file. 12 * range.past ≤ length file) }
    ensures given { OnOk result (IfSome (D.holds depot.old FileKind.Info) (λ file. IsChunk (given_values (G.model program.now) file) range.first (take (range.past - range.first) (drop range.first even.new)))) }
    ensures hot { (state : ℕ → G.Value) → IsChunk state range.first (take (range.past - range.first) (drop range.first even.new))
        → IfOk result (λ hot. hot ≡ list_any (λ v. (G.model program.now).contributes (state v)) (range_with_len range.first (range.past - range.first))) }
    ensures rest { even.new ≡ put_in range.first (take (range.past - range.first) (drop range.first even.new)) even.old }
    ensures taken { OnOk result (RoseBy (D.taken depot.old FileKind.Info) (D.taken depot.new FileKind.Info) (12 * (range.past - range.first))) }
    ensures taken_most { D.taken depot.new FileKind.Info ≤ D.taken depot.old FileKind.Info + 12 * (range.past - range.first) }
    ensures reads { Reads D.holds D.taken D.stored D.faults D.attached FileKind.Info depot.old depot.new }
    ensures intact { IfErr result (λ fault. fault ≡ FileFault.Depot) }
    ensures cause { result ≡ Err FileFault.Depot → Rose (D.faults depot.old) (D.faults depot.new) }
{
    let values = &mut even[range.first as usize..range.past as usize];
    initial_values(depot, program, range.first, values)
}

// Sets the values at first of a part in the window, and writes them into Values as those after iteration 0. It answers
// whether some of them contributes.
pub(crate) fn initial_in_file<G: VertexProgram, D: Depot>(
    depot: &mut D,
    program: &G,
    parts: Parts,
    part: u32,
    out: &mut [G::Value],
) -> Result<bool, FileFault>
    requires attached { IsSome (D.attached depot.old) }
    requires part { part < parts.parts }
    requires few { parts.vertices ≤ 268435456 }
    requires out_fits { part_length parts.vertices (chunk_of parts) part ≤ length out.old }
    requires sized { IfSome (D.holds depot.old FileKind.Values) (λ file. length file ≡ 2 * parts.vertices * G.Value.WIDTH) }
    requires info { IfSome (D.holds depot.old FileKind.Info) (λ file. length file ≡ 12 * parts.vertices) }
    ensures given { OnOk result (IfSome (D.holds depot.old FileKind.Info) (λ file. IsChunk (given_values (G.model program.now) file)
        (first_vertex parts.vertices (chunk_of parts) part) (take (part_length parts.vertices (chunk_of parts) part) out.new))) }
    ensures filed { IsSome (D.holds depot.old FileKind.Values) → OnOk result (AreFiled G.Value.value_of G.Value.WIDTH parts 0 part (D.holds depot.new FileKind.Values)
        (take (part_length parts.vertices (chunk_of parts) part) out.new)) }
    ensures hot { (state : ℕ → G.Value) → IsChunk state (first_vertex parts.vertices (chunk_of parts) part) (take (part_length parts.vertices (chunk_of parts) part) out.new)
        → IfOk result (λ hot. hot ≡ list_any (λ v. (G.model program.now).contributes (state v))
        (range_with_len (first_vertex parts.vertices (chunk_of parts) part) (part_length parts.vertices (chunk_of parts) part))) }
    ensures outside { SameOutsideTold (value_place G.Value.WIDTH parts.vertices 0 (first_vertex parts.vertices (chunk_of parts) part))
        (G.Value.WIDTH * part_length parts.vertices (chunk_of parts) part) (D.holds depot.old FileKind.Values) (D.holds depot.new FileKind.Values) }
    ensures taken { OnOk result (RoseBy (D.taken depot.old FileKind.Info) (D.taken depot.new FileKind.Info) (12 * part_length parts.vertices (chunk_of parts) part)) }
    ensures taken_most { D.taken depot.new FileKind.Info ≤ D.taken depot.old FileKind.Info + 12 * part_length parts.vertices (chunk_of parts) part }
    ensures stored { OnOk result (RoseBy (D.stored depot.old FileKind.Values) (D.stored depot.new FileKind.Values) (G.Value.WIDTH * part_length parts.vertices (chunk_of parts) part)) }
    ensures stored_most { D.stored depot.new FileKind.Values ≤ D.stored depot.old FileKind.Values + G.Value.WIDTH * part_length parts.vertices (chunk_of parts) part }
    ensures moves { Moves D.holds D.taken D.stored D.faults D.attached FileKind.Info FileKind.Values depot.old depot.new }
    ensures intact { IfErr result (λ fault. fault ≡ FileFault.Depot) }
    ensures cause { result ≡ Err FileFault.Depot → Rose (D.faults depot.old) (D.faults depot.new) }
{
    let range = parts.range_of(part);
    let window = &mut out[..(range.past - range.first) as usize];
    let hot = match initial_values(depot, program, range.first, window) {
        Ok(hot) => hot,
        Err(fault) => return Err(fault),
    };
    match store_filed(depot, parts, 0, part, window) {
        Ok(()) => Ok(hot),
        Err(fault) => Err(fault),
    }
}
