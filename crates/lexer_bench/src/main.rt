//! Measures php_lexer over files of 1,048,576 bytes of one kind each.
//! Without a word it prints how many tokens each file has; with the word `time` also how fast it is
//! cut, and how many times a plain pass over the same bytes that is. It has no clause.
//! Used by: none; it stands at the top.
#![tactic(auto)]

use anyhow::Result;
use php_lexer::lex;
use std::alloc::{AllocError, Global};
use std::env;
use std::rt::Clock;
use std::time::Instant;

/// How many bytes each file has at most.
const BYTES: usize = 1_048_576;

// The head, then the middle as often as it fits, then the tail.
fn file_of(alloc: Global, head: &[u8], middle: &[u8], tail: &[u8]) -> Result<Vec<u8>, AllocError> {
    let mut file = Vec::from_slice(alloc, head)?;
    for _ in 0..BYTES {
        if file
            .len()
            .saturating_add(middle.len())
            .saturating_add(tail.len())
            > BYTES
        {
            break;
        }
        file.extend_from_slice(middle)?;
    }
    file.extend_from_slice(tail)?;
    Ok(file)
}

// A pass that reads each byte once.
fn plain_pass(file: &[u8]) -> u8 {
    let mut all = 0;
    for byte in file {
        all ^= *byte;
    }
    all
}

// Nanoseconds of the fastest of five turns, of the lexer and of a plain pass, and what they came
// to, so that no pass is left out.
fn measured(rt: &(impl Clock + AllocGlobal), file: &[u8]) -> Result<(u64, u64, usize)> {
    let mut lexer = u64::MAX;
    let mut plain = u64::MAX;
    let mut kept = 0;
    for _ in 0..5 {
        let start = Instant::now(rt)?;
        let tokens = lex(rt.alloc(), file)?;
        let taken = start.elapsed(rt)?;
        lexer = lexer.min(u64::try_from(taken.as_nanos()).unwrap_or(u64::MAX));
        kept ^= tokens.len();
        let start = Instant::now(rt)?;
        kept ^= usize::from(plain_pass(file));
        let taken = start.elapsed(rt)?;
        plain = plain.min(u64::try_from(taken.as_nanos()).unwrap_or(u64::MAX));
    }
    Ok((lexer, plain, kept))
}

fn report(
    rt: &(impl Clock + AllocGlobal + Print),
    kind: &str,
    file: &[u8],
    timed: bool,
) -> Result<()> {
    let tokens = lex(rt.alloc(), file)?;
    let count = tokens.len();
    let bytes = file.len();
    println!(rt; "{kind}: {bytes} bytes, {count} tokens")?;
    if timed {
        let (lexer, plain, kept) = measured(rt, file)?;
        let speed = (bytes as u64).saturating_mul(1000) / lexer.max(1);
        let ratio = lexer / plain.max(1);
        println!(rt; "  {speed} million bytes a second, {ratio} times a plain pass ({kept})")?;
    }
    Ok(())
}

fn main(rt: HostRuntime) -> Result<()> {
    let timed = env::args(&rt)?.skip(1).next().is_some();
    let alloc = rt.alloc();
    let kinds: [(&str, &[u8], &[u8], &[u8]); 14] = [
        ("inline", b"", b"<p>a</p>\n", b""),
        ("variables", b"<?php ", b"$a ", b""),
        ("signs", b"<?php ", b"; === ", b""),
        ("integers", b"<?php ", b"12345 ", b""),
        ("single-quoted text", b"<?php '", b"a\\'b ", b"'"),
        ("double-quoted text", b"<?php \"", b"a\\n b ", b"\""),
        (
            "variables in a text",
            b"<?php \"",
            b"a $b[c] {$d['e']}",
            b"\"",
        ),
        ("heredoc", b"<?php <<<A\n", b"a line\n", b"\nA"),
        ("comment", b"<?php /*", b"* a ", b"*/"),
        ("statements", b"<?php ", b"$abc = $def + 12;\n", b""),
        ("blocks", b"<?php ", b"{}", b""),
        ("arguments", b"<?php f(", b"$a, ", b"1);"),
        (
            "calls",
            b"<?php ",
            b"echo htmlspecialchars($row['name']), 'x';\n",
            b"",
        ),
        (
            "page",
            b"",
            b"<li id=\"i<?= $key ?>\"><a href=\"?id=<?= $item['id'] ?>\">x</a></li>\n<?php endforeach; ?>\n",
            b"",
        ),
    ];
    for (kind, head, middle, tail) in kinds {
        let file = file_of(alloc, head, middle, tail)?;
        report(&rt, kind, file.as_slice(), timed)?;
    }
    Ok(())
}
