// Texts with escapes, and names for them.
use anyhow::{Context, Result, anyhow};
use document_types::strict_text;
use std::alloc::Global;
use text_base::Bytes;

/// A piece of a text: a byte, where the number of a repetition stands, or one more than that, or
/// where what a line says stands.
#[derive(Clone, Copy)]
pub enum Piece {
    Byte(u8),
    Number,
    Next,
    Said,
}

/// Texts by their names.
pub struct Names {
    held: Vec<(String, Vec<Piece>)>,
}

impl Drop for Names {
    fn drop(self) {
        let Names { held: _ } = self;
    }
}

fn push_bytes(pieces: &mut Vec<Piece>, bytes: &[u8]) -> Result<()> {
    for byte in bytes {
        pieces.push(Piece::Byte(*byte))?;
    }
    Ok(())
}

/// The bytes of a text in the repetition of this number, where a line says this.
pub fn filled(alloc: Global, pieces: &[Piece], number: u64, said: &[u8]) -> Result<Bytes> {
    let mut bytes = Vec::new(alloc);
    for piece in pieces {
        match *piece {
            Piece::Byte(byte) => bytes.push(byte)?,
            Piece::Number => bytes.extend_from_slice(number.to_string(alloc)?.as_bytes())?,
            Piece::Next => {
                let next = number.saturating_add(1).to_string(alloc)?;
                bytes.extend_from_slice(next.as_bytes())?;
            }
            Piece::Said => bytes.extend_from_slice(said)?,
        }
    }
    Ok(Bytes::from_vec(bytes))
}

impl Names {
    /// The name `strict` alone, of the text of the built-in definition.
    pub fn new(alloc: Global) -> Result<Names> {
        let mut pieces = Vec::new(alloc);
        push_bytes(&mut pieces, strict_text(alloc)?.as_slice())?;
        let mut held = Vec::new(alloc);
        held.push((String::from_str(alloc, "strict")?, pieces))?;
        Ok(Names { held })
    }

    /// Gives a text a name, which no text has so far.
    pub fn add(&mut self, alloc: Global, name: &str, pieces: Vec<Piece>) -> Result<()> {
        if self.find(name).is_ok() {
            return Err(anyhow!("a further text has the name {name}"));
        }
        self.held.push((String::from_str(alloc, name)?, pieces))?;
        Ok(())
    }

    fn find(&self, name: &str) -> Result<&[Piece]> {
        for (held, pieces) in &self.held {
            if held.as_str() == name {
                return Ok(pieces.as_slice());
            }
        }
        Err(anyhow!("no text has the name {name}"))
    }

    // The text of a name, once or as often as is said behind it.
    fn push_named(&self, alloc: Global, pieces: &mut Vec<Piece>, name: &str) -> Result<()> {
        match name.split_once("*") {
            None => pieces.extend_from_slice(self.find(name)?)?,
            Some((name, count)) => {
                let named = self.find(name)?;
                for number in 0..count.parse::<u64>().context("a count")? {
                    let bytes = filled(alloc, named, number, b"")?;
                    push_bytes(pieces, bytes.as_slice())?;
                }
            }
        }
        Ok(())
    }

    // What an escape stands for, where its text begins behind the backslash; the text behind it.
    fn escape<'a>(&self, alloc: Global, pieces: &mut Vec<Piece>, text: &'a str) -> Result<&'a str> {
        if let Some(behind) = text.strip_prefix("(") {
            let (name, behind) = behind.split_once(")").context("a name's end")?;
            self.push_named(alloc, pieces, name)?;
            return Ok(behind);
        }
        if let Some(behind) = text.strip_prefix("x") {
            let digits = behind.get(..2).context("two digits")?;
            let byte = u8::from_str_radix(digits, 16).context("a byte")?;
            pieces.push(Piece::Byte(byte))?;
            return behind.get(2..).context("two digits");
        }
        for (sign, piece) in [
            ("n", Piece::Byte(b'\n')),
            ("\\", Piece::Byte(b'\\')),
            ("#", Piece::Number),
            ("+", Piece::Next),
            ("?", Piece::Said),
        ] {
            if let Some(behind) = text.strip_prefix(sign) {
                pieces.push(piece)?;
                return Ok(behind);
            }
        }
        Err(anyhow!("no escape begins so: {text}"))
    }

    /// What a text stands for, with its escapes and names.
    pub fn read(&self, alloc: Global, text: &str) -> Result<Vec<Piece>> {
        let mut pieces = Vec::new(alloc);
        let mut rest = text;
        for _ in 0..=text.len() {
            let Some((before, behind)) = rest.split_once("\\") else {
                break;
            };
            push_bytes(&mut pieces, before.as_bytes())?;
            rest = self.escape(alloc, &mut pieces, behind)?;
        }
        push_bytes(&mut pieces, rest.as_bytes())?;
        Ok(pieces)
    }

    /// The bytes of a text.
    pub fn bytes(&self, alloc: Global, text: &str) -> Result<Bytes> {
        filled(alloc, self.read(alloc, text)?.as_slice(), 0, b"")
    }
}
