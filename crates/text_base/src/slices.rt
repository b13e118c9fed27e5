//! The front of a slice of bytes and what stands behind it, for every length: with fewer bytes than
//! asked for, all of them and none. Nothing stands below.

ghost use Rattle.std.specs.Prelude.{◌≡◌, ◌-◌, min, take, drop, length};

/// The bytes behind the first so many; none where there are fewer.
pub fn behind(bytes: &[u8], n: usize) -> &[u8]
    ensures value { result.now ≡ drop n bytes.now }
    ensures len { length result.now ≡ length bytes.now - n }
{
    if n < bytes.len() { &bytes[n..] } else { &[] }
}

/// The first so many bytes; all where there are fewer.
pub fn front(bytes: &[u8], n: usize) -> &[u8]
    ensures value { result.now ≡ take n bytes.now }
    ensures len { length result.now ≡ min n (length bytes.now) }
{
    if n < bytes.len() { &bytes[..n] } else { bytes }
}
