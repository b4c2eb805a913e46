// Shares of a thousand, in whole numbers. Each result is made in 128 bits, and only then cut to 64.
ghost use Rattle.std.specs.Prelude.{◌≡◌};
ghost use Rattle.programs.specs.Numbers.{mixed, cut, is_beyond, part_by_weight};

// So many thousandths of what is given, and the rest of a thousand of one's own.
pub(crate) fn mixed(share: u32, own: u64, given: u64) -> u128
    ensures { result ≡ mixed share own given }
{
    let rest = 1000u32.saturating_sub(share);
    u128::from(rest) * u128::from(own) / 1000 + u128::from(share) * u128::from(given) / 1000
}

// A number, or the greatest one of 64 bits.
pub(crate) fn cut(number: u128) -> u64
    ensures { result ≡ cut number }
{
    u64::try_from(number).unwrap_or(u64::MAX)
}

// Whether a sum stands at the greatest number, or what is made of it is above that.
pub(crate) fn is_beyond(sum: u64, next: u128) -> bool
    ensures { result ≡ is_beyond sum next }
{
    sum == u64::MAX || next > u128::from(u64::MAX)
}

// What an edge of this weight takes of a score, where the edges out of its source have this weight together.
pub(crate) fn part_by_weight(score: u64, weight: u32, out: u64) -> u64
    ensures { result ≡ part_by_weight score weight out }
{
    if out == 0 {
        return 0;
    }
    match score.checked_mul(u64::from(weight)) {
        Some(product) => product / out,
        None => cut(u128::from(score) * u128::from(weight) / u128::from(out)),
    }
}
