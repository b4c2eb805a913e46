// The edges of a list, written into Spool in the order of the input.
ghost use Rattle.std.specs.Prelude.{◌≡◌, ◌≤◌, ◌<◌, ◌+◌, ◌*◌, ◌++◌, [], ℕ, List, IfOk, IfSome, IsSome, IsTrue, OnErr, OnOk, IfErr, MatchResult, Err, flat_map, length, take};
ghost use Rattle.std.specs.Option.{option_map};
ghost use Rattle.lumos_base.specs.Records.{edge_bytes};
ghost use Rattle.lumos_base.specs.declared.records.Edge.{Edge};
ghost use Rattle.lumos_depot.specs.Causes.{Rose};
ghost use Rattle.lumos_depot.specs.Files.{HasDepotCause};
ghost use Rattle.lumos_depot.specs.declared.depot.FileKind.{FileKind};
ghost use Rattle.edge_text.specs.Reading.{greatest_end, vertices_of};
ghost use Rattle.lumos_depot.specs.Steps.{Moves, RoseBy};
ghost use Rattle.grid_build.specs.Growing.{GrowsBy, HasGrown, StopsAt};
ghost use Rattle.grid_build.specs.Spooling.{HasSpooled};
ghost use Rattle.grid_build.specs.SpoolSteps.{EndsAs, HasPiece, HasStopped, IsSpooling, StopsAs, spool_fault, stop_of};

use crate::BuildFault;
use crate::bytes::{NO_EDGE, put_edges};
use edge_text::{EdgeReader, TextFault, TextLimits};
use lumos_base::Edge;
use lumos_depot::{Depot, DepotFault, FileKind, Source};
use std::alloc::Global;

// A list in Spool: how many edges it has, and how many vertices they are between.
#[derive(Clone, Copy, Debug, PartialEq, Eq, Drop)]
pub(crate) struct Spooled {
    pub(crate) edges: u64,
    pub(crate) vertices: u32,
}

// Why a list isn't read into Spool.
#[derive(Drop)]
enum SpoolStop {
    Memory,
    Depot,
    Read,
    Text(TextFault),
}

// How many bytes are taken from the source at a time, and how many edges are made at a time.
const PIECE: usize = 65536;

const PLACES: usize = 4096;

// What a stop is called outside.
fn spool_fault(stop: SpoolStop) -> BuildFault
    ensures { result ≡ spool_fault stop }
{
    match stop {
        SpoolStop::Memory => BuildFault::NoMemory,
        SpoolStop::Depot => BuildFault::Depot,
        SpoolStop::Read => BuildFault::Read,
        SpoolStop::Text(fault) => match fault {
            TextFault::Input(fault) => BuildFault::Input(fault),
            TextFault::TooManyEdges { limit } => BuildFault::TooManyEdges { limit },
            TextFault::InputTooLong { limit } => BuildFault::InputTooLong { limit },
        },
    }
}

// Puts edges behind those of Spool, of which there are so many. The bytes are room for theirs.
fn append_edges<D: Depot>(
    depot: &mut D,
    count: u64,
    edges: &[Edge],
    bytes: &mut [u8],
) -> Result<(), DepotFault>
    requires attached { IsSome (D.attached depot.old) }
    requires few { count + length edges.now ≤ 1099511627776 }
    requires room { length bytes.old ≡ 12 * length edges.now }
    requires spool { IfSome (D.holds depot.old FileKind.Spool) (λ file. length file ≡ 12 * count) }
    ensures value { OnOk result (D.holds depot.new FileKind.Spool
        ≡ option_map (λ file. file ++ flat_map edge_bytes edges.now) (D.holds depot.old FileKind.Spool)) }
    ensures moves { Moves D.holds D.taken D.stored D.faults D.attached FileKind.Spool FileKind.Spool depot.old depot.new }
    ensures stored { OnOk result (RoseBy (D.stored depot.old FileKind.Spool) (D.stored depot.new FileKind.Spool) (12 * length edges.now)) }
    ensures refused { OnErr result ((D.stored depot.old FileKind.Spool ≤ D.stored depot.new FileKind.Spool)
        × (D.stored depot.new FileKind.Spool ≤ D.stored depot.old FileKind.Spool + 12 * length edges.now)) }
    ensures cause { HasDepotCause (D.faults depot.old) (D.faults depot.new) result }
{
    put_edges(edges, bytes);
    match depot.resize(FileKind::Spool, 12 * (count + edges.len() as u64)) {
        Ok(()) => depot.write_at(FileKind::Spool, 12 * count, bytes),
        Err(fault) => Err(fault),
    }
}

// Why edges weren't put into Spool.
fn stop_of(fault: DepotFault) -> SpoolStop
    ensures { result ≡ stop_of fault }
{
    match fault {
        DepotFault::Failed => SpoolStop::Depot,
        DepotFault::NoMemory => SpoolStop::Memory,
    }
}

// Takes bytes of a text until it ends or its edges fill the places, and puts these edges into Spool. It answers how many
// bytes it took. The bytes are room for those of the edges.
fn take_some<D: Depot>(
    depot: &mut D,
    reader: &mut EdgeReader,
    count: &mut u64,
    text: &[u8],
    places: &mut [Edge],
    bytes: &mut [u8],
) -> Result<usize, SpoolStop>
    requires attached { IsSome (D.attached depot.old) }
    requires short { reader.old.limits.max_bytes ≤ 1099511627776 }
    requires places { 2 ≤ length places.old }
    requires room { length bytes.old ≡ 12 * length places.old }
    requires spooling { (before : ℕ) × (seen : List ℕ)
        × IsSpooling before seen reader.old count.old (D.holds depot.old FileKind.Spool) (D.stored depot.old FileKind.Spool) }
    ensures reads { (before : ℕ) (seen : List ℕ)
        → IsSpooling before seen reader.old count.old (D.holds depot.old FileKind.Spool) (D.stored depot.old FileKind.Spool)
        → MatchResult result
        (λ used. IsSpooling before (seen ++ take used text.now) reader.new count.new (D.holds depot.new FileKind.Spool) (D.stored depot.new FileKind.Spool))
        (StopsAs reader.old.limits (seen ++ text.now)) }
    ensures grown { (before : ℕ) (seen : List ℕ)
        → IsSpooling before seen reader.old count.old (D.holds depot.old FileKind.Spool) (D.stored depot.old FileKind.Spool)
        → OnErr result (HasGrown reader.old.limits (seen ++ text.now) before (D.stored depot.new FileKind.Spool)) }
    ensures within { IfOk result (λ used. used ≤ length text.now) }
    ensures progress { IfOk result (λ used. 0 < length text.now → 0 < used) }
    ensures counts { IfOk result (λ used. reader.new.bytes ≡ reader.old.bytes + used) }
    ensures limits { reader.new.limits ≡ reader.old.limits }
    ensures moves { Moves D.holds D.taken D.stored D.faults D.attached FileKind.Spool FileKind.Spool depot.old depot.new }
    ensures not_read { result ≡ Err SpoolStop.Read → ⊥ }
    ensures failed { result ≡ Err SpoolStop.Depot → Rose (D.faults depot.old) (D.faults depot.new) }
{
    match reader.feed(text, places) {
        Ok(fed) => {
            let made = fed.made;
            match append_edges(depot, *count, &places[..made], &mut bytes[..12 * made]) {
                Ok(()) => {
                    *count += made as u64;
                    Ok(fed.used)
                }
                Err(fault) => Err(stop_of(fault)),
            }
        }
        Err(fault) => Err(SpoolStop::Text(fault)),
    }
}

// Takes a whole text, and puts the edges that it makes into Spool.
fn take_piece<D: Depot>(
    depot: &mut D,
    reader: &mut EdgeReader,
    count: &mut u64,
    text: &[u8],
    places: &mut [Edge],
    bytes: &mut [u8],
) -> Result<(), SpoolStop>
    requires attached { IsSome (D.attached depot.old) }
    requires short { reader.old.limits.max_bytes ≤ 1099511627776 }
    requires places { 2 ≤ length places.old }
    requires room { length bytes.old ≡ 12 * length places.old }
    requires spooling { (before : ℕ) × (seen : List ℕ)
        × IsSpooling before seen reader.old count.old (D.holds depot.old FileKind.Spool) (D.stored depot.old FileKind.Spool) }
    ensures reads { (before : ℕ) (seen : List ℕ)
        → IsSpooling before seen reader.old count.old (D.holds depot.old FileKind.Spool) (D.stored depot.old FileKind.Spool)
        → MatchResult result
        (λ _. IsSpooling before (seen ++ text.now) reader.new count.new (D.holds depot.new FileKind.Spool) (D.stored depot.new FileKind.Spool))
        (StopsAs reader.old.limits (seen ++ text.now)) }
    ensures grown { (before : ℕ) (seen : List ℕ)
        → IsSpooling before seen reader.old count.old (D.holds depot.old FileKind.Spool) (D.stored depot.old FileKind.Spool)
        → OnErr result (HasGrown reader.old.limits (seen ++ text.now) before (D.stored depot.new FileKind.Spool)) }
    ensures counts { OnOk result (reader.new.bytes ≡ reader.old.bytes + length text.now) }
    ensures limits { reader.new.limits ≡ reader.old.limits }
    ensures moves { Moves D.holds D.taken D.stored D.faults D.attached FileKind.Spool FileKind.Spool depot.old depot.new }
    ensures not_read { result ≡ Err SpoolStop.Read → ⊥ }
    ensures failed { result ≡ Err SpoolStop.Depot → Rose (D.faults depot.old) (D.faults depot.new) }
{
    let mut used = 0;
    while used < text.len() {
        match take_some(depot, reader, count, &text[used..], places, bytes) {
            Ok(some) => used += some,
            Err(stop) => return Err(stop),
        }
    }
    Ok(())
}

// Reads once from the source, and answers whether there may be more. The piece is room for its bytes.
fn read_piece<I: Source, D: Depot>(
    input: &mut I,
    depot: &mut D,
    reader: &mut EdgeReader,
    count: &mut u64,
    piece: &mut [u8],
    places: &mut [Edge],
    bytes: &mut [u8],
) -> Result<bool, SpoolStop>
    requires attached { IsSome (D.attached depot.old) }
    requires short { reader.old.limits.max_bytes ≤ 1099511627776 }
    requires piece { 0 < length piece.old }
    requires places { 2 ≤ length places.old }
    requires room { length bytes.old ≡ 12 * length places.old }
    requires spooling { (before : ℕ) × (seen : List ℕ)
        × IsSpooling before seen reader.old count.old (D.holds depot.old FileKind.Spool) (D.stored depot.old FileKind.Spool) }
    ensures reads { (before : ℕ) (seen : List ℕ)
        → IsSpooling before seen reader.old count.old (D.holds depot.old FileKind.Spool) (D.stored depot.old FileKind.Spool)
        → HasPiece reader.old.limits before seen reader.new count.new (D.holds depot.new FileKind.Spool) (D.stored depot.new FileKind.Spool)
        (I.left input.old) (I.left input.new) result }
    ensures stopped { (before : ℕ) (seen : List ℕ)
        → IsSpooling before seen reader.old count.old (D.holds depot.old FileKind.Spool) (D.stored depot.old FileKind.Spool)
        → IfErr result (HasStopped reader.old.limits (length piece.old) before seen (D.stored depot.new FileKind.Spool) (I.left input.old) (I.left input.new)) }
    ensures onward { OnOk result (reader.old.bytes ≤ reader.new.bytes) }
    ensures progress { IfOk result (λ more. IsTrue more → reader.old.bytes < reader.new.bytes) }
    ensures limits { reader.new.limits ≡ reader.old.limits }
    ensures moves { Moves D.holds D.taken D.stored D.faults D.attached FileKind.Spool FileKind.Spool depot.old depot.new }
    ensures later { I.faults input.old ≤ I.faults input.new }
    ensures read { result ≡ Err SpoolStop.Read → Rose (I.faults input.old) (I.faults input.new) }
    ensures failed { result ≡ Err SpoolStop.Depot → Rose (D.faults depot.old) (D.faults depot.new) }
{
    match input.read(piece) {
        Ok(size) => match take_piece(depot, reader, count, &piece[..size], places, bytes) {
            Ok(()) => Ok(size > 0),
            Err(stop) => Err(stop),
        },
        Err(_) => Err(SpoolStop::Read),
    }
}

// The stated number of vertices, or one more than the greatest end of an edge.
fn vertices_of(stated: Option<u32>, greatest: Option<u32>) -> u32
    requires { IfSome greatest (λ vertex. vertex ≤ 268435455) }
    ensures { (edges : List Edge) → greatest ≡ greatest_end edges → result ≡ vertices_of stated edges }
{
    match stated {
        Some(vertices) => vertices,
        None => match greatest {
            Some(vertex) => vertex + 1,
            None => 0,
        },
    }
}

// Ends a text, and puts the edges that its end makes into Spool.
fn take_end<D: Depot>(
    depot: &mut D,
    reader: EdgeReader,
    limits: &TextLimits,
    count: u64,
    places: &mut [Edge],
    bytes: &mut [u8],
) -> Result<Spooled, SpoolStop>
    requires attached { IsSome (D.attached depot.old) }
    requires vertex { limits.now.max_vertex ≤ 268435455 }
    requires edges { limits.now.max_edges ≤ 2147483648 }
    requires limits { reader.limits ≡ limits.now }
    requires places { 2 ≤ length places.old }
    requires room { length bytes.old ≡ 12 * length places.old }
    requires spooling { (before : ℕ) × (seen : List ℕ)
        × IsSpooling before seen reader count (D.holds depot.old FileKind.Spool) (D.stored depot.old FileKind.Spool) }
    ensures ends { (before : ℕ) (seen : List ℕ)
        → IsSpooling before seen reader count (D.holds depot.old FileKind.Spool) (D.stored depot.old FileKind.Spool)
        → EndsAs limits.now before seen (D.holds depot.new FileKind.Spool) (D.stored depot.new FileKind.Spool) result }
    ensures grown { (before : ℕ) (seen : List ℕ)
        → IsSpooling before seen reader count (D.holds depot.old FileKind.Spool) (D.stored depot.old FileKind.Spool)
        → HasGrown limits.now seen before (D.stored depot.new FileKind.Spool) }
    ensures moves { Moves D.holds D.taken D.stored D.faults D.attached FileKind.Spool FileKind.Spool depot.old depot.new }
    ensures not_read { result ≡ Err SpoolStop.Read → ⊥ }
    ensures failed { result ≡ Err SpoolStop.Depot → Rose (D.faults depot.old) (D.faults depot.new) }
{
    match reader.finish(places) {
        Ok(end) => {
            match append_edges(
                depot,
                count,
                &places[..end.made],
                &mut bytes[..12 * end.made],
            ) {
                Ok(()) => Ok(Spooled {
                    edges: end.edges,
                    vertices: vertices_of(limits.vertices, end.greatest),
                }),
                Err(fault) => Err(stop_of(fault)),
            }
        }
        Err(fault) => Err(SpoolStop::Text(fault)),
    }
}

// Reads a list with room for a piece of its text, for edges, and for their bytes.
fn spool_text<I: Source, D: Depot>(
    limits: TextLimits,
    input: &mut I,
    depot: &mut D,
    piece: &mut [u8],
    places: &mut [Edge],
    bytes: &mut [u8],
) -> Result<Spooled, BuildFault>
    requires attached { IsSome (D.attached depot.old) }
    requires vertex { limits.max_vertex ≤ 268435455 }
    requires vertices { IfSome limits.vertices (λ vertices. vertices ≤ 268435456) }
    requires edges { limits.max_edges ≤ 2147483648 }
    requires bytes { limits.max_bytes ≤ 1099511627776 }
    requires empty { IfSome (D.holds depot.old FileKind.Spool) (λ file. file ≡ []) }
    requires piece { length piece.old ≡ 65536 }
    requires places { 2 ≤ length places.old }
    requires room { length bytes.old ≡ 12 * length places.old }
    ensures list { HasSpooled limits (I.left input.old) (I.left input.new) (D.holds depot.new FileKind.Spool) result }
    ensures grown { GrowsBy limits (I.left input.old) (I.left input.new) (D.stored depot.old FileKind.Spool) (D.stored depot.new FileKind.Spool) }
    ensures stops { IfErr result (StopsAt limits (I.left input.old) (I.left input.new)) }
    ensures moves { Moves D.holds D.taken D.stored D.faults D.attached FileKind.Spool FileKind.Spool depot.old depot.new }
    ensures stored { IfOk result (λ spooled. RoseBy (D.stored depot.old FileKind.Spool) (D.stored depot.new FileKind.Spool) (12 * spooled.edges)) }
    ensures later { I.faults input.old ≤ I.faults input.new }
    ensures read { result ≡ Err BuildFault.Read → Rose (I.faults input.old) (I.faults input.new) }
    ensures failed { result ≡ Err BuildFault.Depot → Rose (D.faults depot.old) (D.faults depot.new) }
{
    let mut reader = EdgeReader::new(limits);
    let mut count = 0;
    let mut more = true;
    while more {
        match read_piece(input, depot, &mut reader, &mut count, piece, places, bytes) {
            Ok(some) => more = some,
            Err(stop) => return Err(spool_fault(stop)),
        }
    }
    match take_end(depot, reader, &limits, count, places, bytes) {
        Ok(spooled) => Ok(spooled),
        Err(stop) => Err(spool_fault(stop)),
    }
}

// Reads the edge list of a source to its end, and writes its edges into Spool, which has to be empty where it is told.
pub(crate) fn spool_list<I: Source, D: Depot>(
    alloc: Global,
    limits: TextLimits,
    input: &mut I,
    depot: &mut D,
) -> Result<Spooled, BuildFault>
    requires attached { IsSome (D.attached depot.old) }
    requires vertex { limits.max_vertex ≤ 268435455 }
    requires vertices { IfSome limits.vertices (λ vertices. vertices ≤ 268435456) }
    requires edges { limits.max_edges ≤ 2147483648 }
    requires bytes { limits.max_bytes ≤ 1099511627776 }
    requires empty { IfSome (D.holds depot.old FileKind.Spool) (λ file. file ≡ []) }
    ensures list { HasSpooled limits (I.left input.old) (I.left input.new) (D.holds depot.new FileKind.Spool) result }
    ensures grown { GrowsBy limits (I.left input.old) (I.left input.new) (D.stored depot.old FileKind.Spool) (D.stored depot.new FileKind.Spool) }
    ensures stops { IfErr result (StopsAt limits (I.left input.old) (I.left input.new)) }
    ensures moves { Moves D.holds D.taken D.stored D.faults D.attached FileKind.Spool FileKind.Spool depot.old depot.new }
    ensures stored { IfOk result (λ spooled. RoseBy (D.stored depot.old FileKind.Spool) (D.stored depot.new FileKind.Spool) (12 * spooled.edges)) }
    ensures later { I.faults input.old ≤ I.faults input.new }
    ensures read { result ≡ Err BuildFault.Read → Rose (I.faults input.old) (I.faults input.new) }
    ensures failed { result ≡ Err BuildFault.Depot → Rose (D.faults depot.old) (D.faults depot.new) }
{
    let Ok(mut piece) = vec![in alloc; 0u8; PIECE] else {
        return Err(BuildFault::NoMemory);
    };
    let Ok(mut places) = vec![in alloc; NO_EDGE; PLACES] else {
        return Err(BuildFault::NoMemory);
    };
    let Ok(mut bytes) = vec![in alloc; 0u8; 12 * PLACES] else {
        return Err(BuildFault::NoMemory);
    };
    spool_text(limits, input, depot, &mut piece, &mut places, &mut bytes)
}
