//! The operations on texts with what PHP prints, and with near misses.

ghost use Rattle.std.specs.Prelude.{◌≢◌, IfOk};
ghost use Rattle.op_system.specs.declared.op.Op.TheVariants.{Any};

use fst_core::applies;
use op_system::Op;
use std::alloc::Global;
use std::test::Fail;
use string_ops::machine_of;
use text_base::{Bytes, NoMemory};

/// Whether the machine of the operation relates the two texts.
fn relates(alloc: Global, op: &Op, input: &str, output: &str) -> Result<bool, NoMemory>
    requires { op.now ≢ Any }
{
    let table = machine_of(alloc, op)?;
    applies(alloc, &table, input.as_bytes(), output.as_bytes())
}

fn replace(alloc: Global, search: &str, with: &str) -> Result<Op, NoMemory>
    ensures { IfOk result (λ op. op ≢ Any) }
{
    Ok(Op::Replace {
        search: Bytes::from_slice(alloc, search.as_bytes())?,
        with: Bytes::from_slice(alloc, with.as_bytes())?,
    })
}

fn piece(alloc: Global, sep: &str) -> Result<Op, NoMemory>
    ensures { IfOk result (λ op. op ≢ Any) }
{
    Ok(Op::Piece {
        sep: Bytes::from_slice(alloc, sep.as_bytes())?,
    })
}

#[test]
fn replaces(rt: HostRuntime) -> Result<(), Fail> {
    let alloc = rt.alloc();
    let op = replace(alloc, "aa", "b")?;
    assert!(rt; relates(alloc, &op, "aaa", "ba")?);
    assert!(rt; !relates(alloc, &op, "aaa", "ab")?);
    let op = replace(alloc, "a", "aa")?;
    assert!(rt; relates(alloc, &op, "aba", "aabaa")?);
    assert!(rt; !relates(alloc, &op, "a", "aaaa")?);
    let op = replace(alloc, "aab", "-")?;
    assert!(rt; relates(alloc, &op, "aaab", "a-")?);
    let op = replace(alloc, "", "b")?;
    assert!(rt; relates(alloc, &op, "aaa", "aaa")?);
    Ok(())
}

#[test]
fn pieces_and_parts(rt: HostRuntime) -> Result<(), Fail> {
    let alloc = rt.alloc();
    let op = piece(alloc, ",")?;
    assert!(rt; relates(alloc, &op, "a,,b", "")?);
    assert!(rt; relates(alloc, &op, "a,,b", "b")?);
    assert!(rt; !relates(alloc, &op, "a,,b", "a,")?);
    let op = piece(alloc, "aa")?;
    assert!(rt; relates(alloc, &op, "aaa", "a")?);
    assert!(rt; !relates(alloc, &op, "aaa", "aa")?);
    let op = piece(alloc, "")?;
    assert!(rt; !relates(alloc, &op, "a", "a")?);
    assert!(rt; relates(alloc, &Op::Factor, "abc", "b")?);
    assert!(rt; !relates(alloc, &Op::Factor, "abc", "ac")?);
    assert!(rt; relates(alloc, &Op::Same, "abc", "abc")?);
    Ok(())
}

#[test]
fn escapes(rt: HostRuntime) -> Result<(), Fail> {
    let alloc = rt.alloc();
    let table = machine_of(alloc, &Op::Html)?;
    let link = b"<a href='test'>\xC3\xA9&</a>";
    let escaped = b"&lt;a href=&#039;test&#039;&gt;\xC3\xA9&amp;&lt;/a&gt;";
    assert!(rt; applies(alloc, &table, link.as_slice(), escaped.as_slice())?);
    assert!(rt; !applies(alloc, &table, b"\x80".as_slice(), b"\x80".as_slice())?);
    assert!(rt; !applies(alloc, &table, b"\xC3".as_slice(), b"\xC3".as_slice())?);
    assert!(rt; !applies(alloc, &table, b"<".as_slice(), b"<".as_slice())?);
    assert!(rt; relates(alloc, &Op::Url, "a b~-_.+/", "a+b%7E-_.%2B%2F")?);
    assert!(rt; relates(alloc, &Op::RawUrl, "foo @+%/~", "foo%20%40%2B%25%2F~")?);
    assert!(rt; !relates(alloc, &Op::RawUrl, " ", "+")?);
    assert!(rt; relates(alloc, &Op::Slashes, "O'Reilly", "O\\'Reilly")?);
    assert!(rt; relates(alloc, &Op::Slashes, "\0", "\\0")?);
    Ok(())
}

#[test]
fn cases_and_ends(rt: HostRuntime) -> Result<(), Fail> {
    let alloc = rt.alloc();
    assert!(rt; relates(alloc, &Op::Lower, "Mary [@", "mary [@")?);
    assert!(rt; relates(alloc, &Op::Upper, "zZ{`", "ZZ{`")?);
    assert!(rt; relates(alloc, &Op::First, "hello", "Hello")?);
    assert!(rt; !relates(alloc, &Op::First, "ab", "AB")?);
    let both = Op::Trim {
        left: true,
        right: true,
    };
    assert!(rt; relates(alloc, &both, " a b\t", "a b")?);
    assert!(rt; !relates(alloc, &both, " a b ", "a")?);
    assert!(rt; relates(alloc, &both, " \n", "")?);
    let right = Op::Trim {
        left: false,
        right: true,
    };
    assert!(rt; relates(alloc, &right, " a ", " a")?);
    assert!(rt; relates(alloc, &Op::Breaks, "a\r\nb", "a<br />\r\nb")?);
    assert!(rt; relates(alloc, &Op::Breaks, "\n\r\n", "<br />\n\r<br />\n")?);
    assert!(rt; !relates(alloc, &Op::Breaks, "\r\n", "<br />\r<br />\n")?);
    Ok(())
}

#[test]
fn cuts(rt: HostRuntime) -> Result<(), Fail> {
    let alloc = rt.alloc();
    let last = Op::Cut {
        start: -2,
        len: None,
    };
    assert!(rt; relates(alloc, &last, "abc", "bc")?);
    assert!(rt; relates(alloc, &last, "a", "a")?);
    assert!(rt; !relates(alloc, &last, "abc", "c")?);
    let inner = Op::Cut {
        start: -3,
        len: Some(-1),
    };
    assert!(rt; relates(alloc, &inner, "abcdef", "de")?);
    assert!(rt; !relates(alloc, &inner, "abcdef", "def")?);
    let front = Op::Cut {
        start: 2,
        len: Some(-1),
    };
    assert!(rt; relates(alloc, &front, "abcdef", "cde")?);
    assert!(rt; relates(alloc, &front, "ab", "")?);
    let past = Op::Cut {
        start: 4,
        len: Some(2),
    };
    assert!(rt; relates(alloc, &past, "abc", "")?);
    assert!(rt; relates(alloc, &past, "abcdefg", "ef")?);
    Ok(())
}
