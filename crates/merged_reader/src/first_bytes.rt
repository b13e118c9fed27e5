//! First bytes of a character that stand for others.

ghost use Rattle.std.specs.Prelude.{◌≡◌, IfOk};
ghost use Rattle.std.specs.Int as int;
ghost use Rattle.merged_reader.specs.Alike as spec;

use byte_stepping::is_begun;
use std::alloc::Global;
use text_base::{Bytes, NoMemory};

/// The first bytes that stand for these: behind both the same bytes make characters of XML.
pub fn representative(alloc: Global, bytes: &[u8]) -> Result<Bytes, NoMemory>
    ensures { IfOk result (λ first. first ≡ spec.representative bytes.now) }
{
    if is_begun(bytes) {
        alike(alloc, bytes)
    } else {
        Bytes::from_slice(alloc, bytes)
    }
}

fn alike(alloc: Global, bytes: &[u8]) -> Result<Bytes, NoMemory>
    ensures { IfOk result (λ first. first ≡ spec.alike bytes.now) }
{
    match bytes {
        [] => Ok(Bytes::new(alloc)),
        [a] => Bytes::from_slice(alloc, &[first_alike(*a)]),
        [a, b] => second_alike(alloc, *a, *b),
        [_, _, _, ..] => Bytes::from_slice(alloc, &[0xF1, 0x80, 0x80]),
    }
}

fn is_in_range(low: u8, high: u8, byte: u8) -> bool
    ensures { result ≡ int.is_in_range low high byte }
{
    low <= byte && byte <= high
}

fn first_alike(a: u8) -> u8
    ensures { result ≡ spec.first_alike a }
{
    if is_in_range(0xC2, 0xDF, a) {
        0xC2
    } else if is_in_range(0xE1, 0xEC, a) || a == 0xEE {
        0xE1
    } else if is_in_range(0xF1, 0xF3, a) {
        0xF1
    } else {
        a
    }
}

fn second_alike(alloc: Global, a: u8, b: u8) -> Result<Bytes, NoMemory>
    ensures { IfOk result (λ first. first ≡ spec.second_alike a b) }
{
    if a == 0xEF && b == 0xBF {
        Bytes::from_slice(alloc, &[a, b])
    } else if is_in_range(0xE0, 0xEF, a) {
        Bytes::from_slice(alloc, &[0xE1, 0x80])
    } else {
        Bytes::from_slice(alloc, &[0xF1, 0x80])
    }
}
