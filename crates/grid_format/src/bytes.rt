// Numbers in bytes, the least byte first.
ghost use Rattle.std.specs.Prelude.{◌≡◌, ◌+◌, ◌≤◌, nat_eq, length};
ghost use Rattle.std.specs.List.{starts_with};
ghost use Rattle.lumos_depot.specs.Files.{overwritten};
ghost use Rattle.grid_format.specs.Heads.{field, magic, number_at};

use byteorder::{ByteOrder, LittleEndian};

// The first eight bytes of a grid.
#[tactic(auto, unfolding(crate::specs::Heads::magic))]
pub(crate) fn magic_bytes() -> [u8; 8]
    ensures { result ≡ magic }
{
    *b"LUMOSGRD"
}

// The bytes begin with those of a grid.
pub(crate) fn begins_grid(bytes: &[u8]) -> bool
    ensures { result ≡ starts_with nat_eq bytes.now magic }
{
    bytes.starts_with(&magic_bytes())
}

// The number in the four bytes from a place on.
#[tactic(auto, unfolding(crate::specs::Heads::number_at))]
pub(crate) fn number_of_four(bytes: &[u8], place: usize) -> u32
    requires { place + 4 ≤ length bytes.now }
    ensures { result ≡ number_at 4 place bytes.now }
{
    LittleEndian::read_u32(&bytes[place..])
}

// The number in the eight bytes from a place on.
#[tactic(auto, unfolding(crate::specs::Heads::number_at))]
pub(crate) fn number_of_eight(bytes: &[u8], place: usize) -> u64
    requires { place + 8 ≤ length bytes.now }
    ensures { result ≡ number_at 8 place bytes.now }
{
    LittleEndian::read_u64(&bytes[place..])
}

// A number in four bytes.
#[tactic(auto, unfolding(crate::specs::Heads::field))]
pub(crate) fn four_bytes(n: u32) -> [u8; 4]
    ensures { result ≡ field 4 n }
{
    let mut bytes = [0; 4];
    LittleEndian::write_u32(&mut bytes, n);
    bytes
}

// A number in eight bytes.
#[tactic(auto, unfolding(crate::specs::Heads::field))]
pub(crate) fn eight_bytes(n: u64) -> [u8; 8]
    ensures { result ≡ field 8 n }
{
    let mut bytes = [0; 8];
    LittleEndian::write_u64(&mut bytes, n);
    bytes
}

// Writes a part over the bytes from a place on.
pub(crate) fn put(bytes: &mut [u8], place: usize, part: &[u8])
    requires { place + length part.now ≤ length bytes.old }
    ensures { bytes.new ≡ overwritten place part.now bytes.old }
{
    bytes[place..place + part.len()].copy_from_slice(part);
}
