// A cursor over the records of a block.
ghost use Rattle.std.specs.Prelude.{◌≡◌, ◌≤◌, ◌<◌, ◌+◌, ◌*◌, ◌^◌, ◌↔◌, ℕ, All, Ok, Err, drop, length, take, IfErr, IfOk, IfSome, IsSome, OnErr, OnOk};
ghost use Rattle.lumos_depot.specs.Causes.{Rose};
ghost use Rattle.lumos_depot.specs.Steps.{Reads, RoseBy};
ghost use Rattle.value_files.specs.Records.{FaultIs};
ghost use Rattle.column_stream.specs.Cursors.{IsInside, edges_next, fault_next, moved_by, piece_of};
ghost use Rattle.column_stream.specs.Records.{Fits, IsDamage};

use crate::reads::{PIECE, read_piece};
use crate::records::Ends;
use lumos_base::Edge;
use lumos_depot::{Depot, FileKind};
use partition::VertexRange;
use std::marker::Model;
use value_files::FileFault;

/// A place among the records of a block, from which its edges are read on. Contracts see the file, the place, the number
/// of records that are left, and the ranges in which their ends lie.
#[derive(Drop)]
pub struct BlockCursor {
    file: FileKind,
    place: u64,
    left: u64,
    ends: Ends,
}

impl Model for BlockCursor {
    ghost use Rattle.std.specs.Prelude.{◌<◌, ◌+◌, ◌*◌, ◌^◌};
    ghost use Rattle.column_stream.specs.Cursors.{CursorState};

    ghost Value = { CursorState };

    ghost view = { λ c. record { file = c.file; place = c.place; left = c.left; ends = c.ends } };

    ghost invariant = { λ c. c.place + 12 * c.left < 2 ^ 64 };
}

impl BlockCursor {
    /// A cursor at the beginning of a block of `count` records, 12 bytes each, which begins at a byte of a file. The
    /// block may end at byte 18446744073709551615 at most. The sources of its edges lie in one range of vertices, the
    /// targets in the other. The layout is our own, of GridGraph's blocks.
    pub fn new(
        file: FileKind,
        place: u64,
        count: u64,
        sources: VertexRange,
        targets: VertexRange,
    ) -> BlockCursor
        requires { place + 12 * count < 2 ^ 64 }
        ensures { result ≡ record {
          file = file;
          place = place;
          left = count;
          ends = record { sources = sources; targets = targets };
        } }
    {
        BlockCursor {
            file,
            place,
            left: count,
            ends: Ends { sources, targets },
        }
    }

    /// Reads the next records into the first places of `out`, and answers how many there were: as many as are left, as
    /// there are places, or 256, whichever is least. It answers 0 exactly at the block's end, and then leaves the depot alone.
    /// There has to be a place; an attached directory; and, where the contents are told, a file inside which the records
    /// that are left lie. It takes no memory and changes no file.
    ///
    /// `Damaged` comes exactly where a word of these records lies outside its range: it carries the file, the place of
    /// the first such word, and the vertex found there. Of each record the source comes first. `Depot` comes only where
    /// the depot's count of faults rose. After both the cursor stays where it was, and what `out` then holds is left open.
    /// Pieces of 256 records are our own choice; GridGraph streams a block in pieces too.
    pub fn next<D: Depot>(&mut self, depot: &mut D, out: &mut [Edge]) -> Result<usize, FileFault>
        requires attached { IsSome (D.attached depot.old) }
        requires places { 0 < length out.old }
        requires inside { IfSome (D.holds depot.old self.old.file) (IsInside self.old) }
        ensures count { IfOk result (λ n. n ≡ piece_of self.old (length out.old)) }
        ensures zero { (result ≡ Ok 0) ↔ (self.old.left ≡ 0) }
        ensures idle { self.old.left ≡ 0 → depot.new ≡ depot.old }
        ensures edges { IfOk result (λ n. IfSome (D.holds depot.old self.old.file) (λ bytes. take n out.new ≡ edges_next n self.old bytes)) }
        ensures fault { IfSome (D.holds depot.old self.old.file) (λ bytes. FaultIs result (fault_next (piece_of self.old (length out.old)) self.old bytes)) }
        ensures fits { IfOk result (λ n. All (Fits self.old.ends) (take n out.new)) }
        ensures damaged { IfErr result (IsDamage self.old.file self.old.ends self.old.place (piece_of self.old (length out.old))) }
        ensures behind { IfOk result (λ n. drop n out.new ≡ drop n out.old) }
        ensures onward { IfOk result (λ n. self.new ≡ moved_by n self.old) }
        ensures stays { OnErr result (self.new ≡ self.old) }
        ensures taken { IfOk result (λ n. RoseBy (D.taken depot.old self.old.file) (D.taken depot.new self.old.file) (12 * n)) }
        ensures most { D.taken depot.new self.old.file ≤ D.taken depot.old self.old.file + 12 * piece_of self.old (length out.old) }
        ensures reads { Reads D.holds D.taken D.stored D.faults D.attached self.old.file depot.old depot.new }
        ensures cause { result ≡ Err FileFault.Depot → Rose (D.faults depot.old) (D.faults depot.new) }
    {
        if self.left == 0 {
            return Ok(0);
        }
        let count = self.left.min(out.len() as u64).min(PIECE as u64);
        let places = &mut out[..count as usize];
        let mut room = [0; 12 * PIECE];
        let bytes = &mut room[..12 * places.len()];
        match read_piece(depot, self.file, self.ends, self.place, bytes, places) {
            Ok(()) => {
                self.place += 12 * count;
                self.left -= count;
                Ok(count as usize)
            }
            Err(fault) => Err(fault),
        }
    }
}
