// Which iterations are full, from which file they read, and which of them feed the next one too.
ghost use Rattle.std.specs.Prelude.{◌≡◌};
ghost use Rattle.early_engine.specs.Passes.{feeds_ahead, file_of, kind_of};

use crate::options::Mode;
use lumos_depot::FileKind;
use lumos_report::Kind;

// The kind of iteration t: in fed mode the odd ones are full and the even ones fed.
pub(crate) fn kind_of(mode: Mode, t: u32) -> Kind
    ensures { result ≡ kind_of mode t }
{
    match mode {
        Mode::Plain => Kind::Full,
        Mode::Fed => { if t % 2 == 1 { Kind::Full } else { Kind::Fed } }
    }
}

// Whether iteration t feeds the next one too, where at most `limit` of them are done.
pub(crate) fn feeds_ahead(mode: Mode, limit: u32, t: u32) -> bool
    ensures { result ≡ feeds_ahead mode limit t }
{
    match mode {
        Mode::Plain => false,
        Mode::Fed => t % 2 == 1 && t < limit,
    }
}

// The file from which iterations of a kind read.
pub(crate) fn file_of(kind: Kind) -> FileKind
    ensures { result ≡ file_of kind }
{
    match kind {
        Kind::Full => FileKind::Primary,
        Kind::Fed => FileKind::Secondary,
    }
}
