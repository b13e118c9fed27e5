//! Calls with values written down by hand.

ghost use Rattle.std.specs.Prelude.{◌≤◌};

use std::test::Fail;
use text_base::{ByteRange, ByteSet, Bytes};

fn range(lo: u8, hi: u8) -> ByteRange
    requires { lo ≤ hi }
{
    ByteRange { lo, hi }
}

#[test]
fn byte_strings(rt: HostRuntime) -> Result<(), Fail> {
    let alloc = rt.alloc();
    let mut text = Bytes::from_slice(alloc, b"ab")?;
    text.push(b'c')?;
    text.append(b"de")?;
    let second = text.copy(alloc)?;
    assert_eq!(rt; second.as_slice(), b"abcde".as_slice());
    assert_eq!(rt; second.len(), 5);
    assert!(rt; second == text);
    assert!(rt; Bytes::from_slice(alloc, b"abd")? > second);
    assert!(rt; Bytes::new(alloc).is_empty());
    Ok(())
}

#[test]
fn ranges_and_sets(rt: HostRuntime) -> Result<(), Fail> {
    let letters = range(b'a', b'z');
    assert_eq!(rt; ByteRange::new(2, 1), None);
    assert_eq!(rt; letters.meet(range(b'x', 255)), Some(range(b'x', b'z')));
    assert_eq!(rt; letters.meet(range(b'A', b'Z')), None);
    assert_eq!(rt;
        letters.split(b'c'),
        (Some(range(b'a', b'b')), Some(range(b'c', b'z')))
    );
    assert_eq!(rt; letters.split(b'a'), (None, Some(letters)));
    let mut set = ByteSet::empty();
    set.add(range(250, 255));
    let mut other = ByteSet::empty();
    other.add(letters);
    set.join(&other);
    assert!(rt; set.has(255) && set.has(b'q'));
    assert!(rt; !set.has(249) && !set.has(b'Q'));
    Ok(())
}
