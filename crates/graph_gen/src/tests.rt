// Texts that another program made, from the rules alone.
ghost use Rattle.std.specs.Prelude.{◌<◌, ◌≤◌};

use crate::GenSource;
use lumos_depot::Source;
use std::test::Fail;

// What a source gives in 200 reads of so many bytes.
fn all_of(rt: &HostRuntime, mut source: GenSource, step: usize) -> Result<Vec<u8>, Fail>
    requires some { 0 < step }
    requires most { step ≤ 64 }
{
    let mut text = Vec::new(rt.alloc());
    let mut buffer = [0; 64];
    for _ in 0..200 {
        let Ok(count) = source.read(&mut buffer[..step]) else {
            return Ok(text);
        };
        text.extend_from_slice(&buffer[..count])?;
    }
    Ok(text)
}

#[test]
fn lines_are_drawn_from_a_seed(rt: HostRuntime) -> Result<(), Fail> {
    let text = b"65278 63231 2\n18673 45545 4\n89864 15764 12\n85686 12195 4\n";
    let source = GenSource::new(7, 100000, 4);
    assert_eq!(rt; all_of(&rt, source, 64)?.as_slice(), text.as_slice());
    let source = GenSource::new(7, 100000, 4);
    assert_eq!(rt; all_of(&rt, source, 1)?.as_slice(), text.as_slice());
    Ok(())
}

#[test]
fn numbers_reach_their_limits(rt: HostRuntime) -> Result<(), Fail> {
    let source = GenSource::new(u64::MAX, 268435456, 3);
    let text = b"232375208 148155063 6\n95711234 207884672 4\n223951061 46255767 9\n";
    assert_eq!(rt; all_of(&rt, source, 64)?.as_slice(), text.as_slice());
    let source = GenSource::new(1, 1, 2);
    assert_eq!(rt;
        all_of(&rt, source, 64)?.as_slice(),
        b"0 0 13\n0 0 4\n".as_slice()
    );
    let source = GenSource::new(7, 100000, 0);
    assert_eq!(rt; all_of(&rt, source, 64)?.as_slice(), b"".as_slice());
    Ok(())
}
