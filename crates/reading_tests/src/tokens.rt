//! Tables of texts with the tokens that the PHP manual says.

use php_lexer::lex;
use php_syntax::token::{Part, PartKey, Sign, Token, TokenKind};
use std::alloc::{AllocError, Global};
use std::test::Fail;

fn add_bytes(out: &mut String, kind: &str, bytes: &[u8]) -> Result<(), AllocError> {
    out.push_str(kind)?;
    for byte in bytes {
        match *byte {
            b'\n' => out.push_str("\\n")?,
            b'\r' => out.push_str("\\r")?,
            b'\t' => out.push_str("\\t")?,
            _ => out.push(char::from(*byte))?,
        }
    }
    Ok(())
}

fn add_key(alloc: Global, out: &mut String, key: &PartKey) -> Result<(), AllocError> {
    match key {
        PartKey::Text(text) => add_bytes(out, "['", text.as_slice())?,
        PartKey::Int(value) => out.push_str(format!(in alloc; "[{value}")?.as_str())?,
        PartKey::Var(name) => add_bytes(out, "[$", name.as_slice())?,
    }
    out.push_str("]")
}

fn add_part(alloc: Global, out: &mut String, part: &Part) -> Result<(), AllocError> {
    match part {
        Part::Plain(text) => add_bytes(out, "<", text.as_slice())?,
        Part::Read(name, keys) => {
            add_bytes(out, "<$", name.as_slice())?;
            for key in keys {
                add_key(alloc, out, key)?;
            }
        }
    }
    out.push_str(">")
}

// A token as text: a letter for its kind, what it holds, and its place.
fn add_token(alloc: Global, out: &mut String, token: &Token) -> Result<(), AllocError> {
    match &token.kind {
        TokenKind::Inline(text) => add_bytes(out, "I:", text.as_slice())?,
        TokenKind::Var(name) => add_bytes(out, "V:", name.as_slice())?,
        TokenKind::Name(name) => add_bytes(out, "N:", name.as_slice())?,
        TokenKind::Int(value) => out.push_str(format!(in alloc; "{value}")?.as_str())?,
        TokenKind::Str(text) => add_bytes(out, "S:", text.as_slice())?,
        TokenKind::Template(parts) => {
            out.push_str("T:")?;
            for part in parts {
                add_part(alloc, out, part)?;
            }
        }
        TokenKind::Sign(sign) => match *sign {
            Sign::CastInt => out.push_str("CastInt")?,
            Sign::CastString => out.push_str("CastString")?,
            other => add_bytes(out, "", other.spelling())?,
        },
    }
    let at = token.at;
    out.push_str(format!(in alloc; "@{at} ")?.as_str())
}

// What a file comes to, as text.
fn shown(alloc: Global, file: &[u8]) -> Result<String, Fail> {
    let mut out = String::new(alloc);
    match lex(alloc, file) {
        Ok(tokens) => {
            for token in &tokens {
                add_token(alloc, &mut out, token)?;
            }
        }
        Err(refusal) => out.push_str(format!(in alloc; "{refusal:?}")?.as_str())?,
    }
    Ok(out)
}

#[test]
fn files(rt: HostRuntime) -> Result<(), Fail> {
    let table: [(&[u8], &str); 12] = [
        (b"a<?PHP b", "I:a@0 N:b@7 "),
        (b"<?php\r\nb", "N:b@7 "),
        (b"<?php\n\n?>\n\nc", ";@7 I:\\nc@10 "),
        (b"<?php", ""),
        (b"<?phpx <? <?=1", "I:<?phpx <? @0 N:echo@10 1@13 "),
        (b"<?=1?>\r\nx", "N:echo@0 1@3 ;@4 I:x@8 "),
        (b"<?php # a ?>b<?php // c\rd", ";@10 I:b@12 N:d@24 "),
        (b"<?php /* ?> */ a /**/", "N:a@15 "),
        (b"<?php '?>' \"?>\"", "S:?>@6 S:?>@11 "),
        (b"<?php ( Int ) (STRING\t)", "CastInt@6 CastString@14 "),
        (
            b"<?php $a===$b!==$c??=1",
            "V:a@6 ===@8 V:b@11 !==@13 V:c@16 ??=@18 1@21 ",
        ),
        (b"<?php 0 9223372036854775807", "0@6 9223372036854775807@8 "),
    ];
    for (file, expected) in table {
        let found = shown(rt.alloc(), file)?;
        assert_eq!(rt; found.as_str(), expected);
    }
    Ok(())
}

#[test]
fn texts(rt: HostRuntime) -> Result<(), Fail> {
    let table: [(&[u8], &str); 12] = [
        (b"<?='a\\'b\\\\c\\n'", "N:echo@0 S:a'b\\c\\n@3 "),
        (
            b"<?=\"\\n\\r\\t\\\\\\$\\\"\"",
            "N:echo@0 S:\\n\\r\\t\\$\"@3 ",
        ),
        (b"<?=\"$ {a} $\"", "N:echo@0 S:$ {a} $@3 "),
        (
            b"<?=\"a$b[c]$d[0]$e[$f]g\"",
            "N:echo@0 T:<a><$b['c]><$d[0]><$e[$f]><g>@3 ",
        ),
        (
            b"<?=\"{$a}{$b['\\'\"'][7][$c]}\"",
            "N:echo@0 T:<$a><$b['\'\"][7][$c]>@3 ",
        ),
        (b"<?=<<<A\na\n\nA;", "N:echo@0 S:a\\n@3 ;@12 "),
        (b"<?=<<<A\r\na\r\nAB\r\nA", "N:echo@0 S:a\\r\\nAB@3 "),
        (b"<?=<<<A\nA", "N:echo@0 S:@3 "),
        (b"<?=<<<A\na\rAB\r\r\nA", "N:echo@0 S:a\\rAB\\r@3 "),
        (
            b"<?=<<<A\n\"$x\"\n$y[z]\nA.",
            "N:echo@0 T:<\"><$x><\"\\n><$y['z]>@3 .@20 ",
        ),
        (b"<?=<<<'A'\n$x\\n\nA", "N:echo@0 S:$x\\n@3 "),
        (b"<?=<<<A\nxA\nA", "N:echo@0 S:xA@3 "),
    ];
    for (file, expected) in table {
        let found = shown(rt.alloc(), file)?;
        assert_eq!(rt; found.as_str(), expected);
    }
    Ok(())
}
