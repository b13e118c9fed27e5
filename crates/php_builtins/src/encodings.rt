//! The functions that write each byte as some bytes: `htmlspecialchars`, `urlencode`,
//! `rawurlencode` and `addslashes`.

ghost use Rattle.std.specs.Prelude.{◌≡◌, ◌≤◌, ◌⊎◌, ◌++◌, length, nat_lt, IfOk, IfErr, OnOk, Ok, Err};
ghost use Rattle.text_base.specs.declared.limits.TheConstants.{TEXT_LIMIT};
ghost use Rattle.plain_values.specs.Plain.{Plain};
ghost use Rattle.plain_values.specs.Members.{within_length};
ghost use Rattle.string_functions.specs.Url.{percent_of_byte, url_of_byte, raw_url_of_byte};
ghost use Rattle.string_functions.specs.Html.{html_of_byte, html_of};
ghost use Rattle.string_functions.specs.Slashes.{slashes_of_byte};
ghost use Rattle.php_builtins.specs.Encodings.{bytes_for, encoded};

use php_values::Text;
use plain_values::Fault;
use std::alloc::Global;
use string_functions::of_byte::{hex_digit_of, html_reference, is_kept_byte};
use text_base::NoMemory;
use text_base::limits::TEXT_LIMIT;

/// A function that writes each byte as some bytes, each named for the function of PHP.
#[derive(Clone, Copy, Debug)]
pub(crate) enum Encoding {
    /// `htmlspecialchars`, of bytes that are UTF-8.
    Html,
    /// `urlencode`.
    Url,
    /// `rawurlencode`.
    RawUrl,
    /// `addslashes`.
    Slashes,
}

fn push_html(out: &mut Vec<u8>, byte: u8) -> Result<(), NoMemory>
    ensures { OnOk result (out.new.items ≡ out.old.items ++ html_of_byte byte) }
{
    match html_reference(byte) {
        None => out.push(byte)?,
        Some(reference) => out.extend_from_slice(reference.as_bytes())?,
    }
    Ok(())
}

fn html_length(byte: u8) -> usize
    ensures { result ≡ length (html_of_byte byte) }
{
    match html_reference(byte) {
        None => 1,
        Some(reference) => reference.len(),
    }
}

fn push_percent(out: &mut Vec<u8>, byte: u8) -> Result<(), NoMemory>
    ensures { OnOk result (out.new.items ≡ out.old.items ++ percent_of_byte byte) }
{
    let three = [b'%', hex_digit_of(byte / 16), hex_digit_of(byte % 16)];
    out.extend_from_slice(&three)?;
    Ok(())
}

fn push_url(out: &mut Vec<u8>, byte: u8) -> Result<(), NoMemory>
    ensures { OnOk result (out.new.items ≡ out.old.items ++ url_of_byte byte) }
{
    if is_kept_byte(byte) {
        out.push(byte)?;
        return Ok(());
    }
    if byte == b' ' {
        out.push(b'+')?;
        return Ok(());
    }
    push_percent(out, byte)
}

fn push_raw_url(out: &mut Vec<u8>, byte: u8) -> Result<(), NoMemory>
    ensures { OnOk result (out.new.items ≡ out.old.items ++ raw_url_of_byte byte) }
{
    if is_kept_byte(byte) || byte == b'~' {
        out.push(byte)?;
        return Ok(());
    }
    push_percent(out, byte)
}

fn push_slashes(out: &mut Vec<u8>, byte: u8) -> Result<(), NoMemory>
    ensures { OnOk result (out.new.items ≡ out.old.items ++ slashes_of_byte byte) }
{
    if byte == b'\'' || byte == b'"' || byte == b'\\' {
        out.extend_from_slice(&[b'\\', byte])?;
        return Ok(());
    }
    if byte == 0 {
        out.extend_from_slice(b"\\0")?;
        return Ok(());
    }
    out.push(byte)?;
    Ok(())
}

fn url_length(byte: u8) -> usize
    ensures { result ≡ length (url_of_byte byte) }
{
    if is_kept_byte(byte) || byte == b' ' {
        1
    } else {
        3
    }
}

fn raw_url_length(byte: u8) -> usize
    ensures { result ≡ length (raw_url_of_byte byte) }
{
    if is_kept_byte(byte) || byte == b'~' {
        1
    } else {
        3
    }
}

fn slashes_length(byte: u8) -> usize
    ensures { result ≡ length (slashes_of_byte byte) }
{
    if byte == b'\'' || byte == b'"' || byte == b'\\' || byte == 0 {
        2
    } else {
        1
    }
}

// Puts at the end what stands for a byte.
fn push_for(encoding: Encoding, out: &mut Vec<u8>, byte: u8) -> Result<(), NoMemory>
    ensures { OnOk result (out.new.items ≡ out.old.items ++ bytes_for encoding byte) }
{
    match encoding {
        Encoding::Html => push_html(out, byte),
        Encoding::Url => push_url(out, byte),
        Encoding::RawUrl => push_raw_url(out, byte),
        Encoding::Slashes => push_slashes(out, byte),
    }
}

// How many bytes stand for a byte.
fn length_for(encoding: Encoding, byte: u8) -> usize
    ensures { result ≡ length (bytes_for encoding byte) }
{
    match encoding {
        Encoding::Html => html_length(byte),
        Encoding::Url => url_length(byte),
        Encoding::RawUrl => raw_url_length(byte),
        Encoding::Slashes => slashes_length(byte),
    }
}

// Whether more bytes than a text may have are written.
fn is_too_long(encoding: Encoding, text: &[u8]) -> bool
    ensures { result ≡ nat_lt TEXT_LIMIT (length (encoded encoding text.now)) }
{
    let mut total: usize = 0;
    let mut rest = text;
    while let Some((first, others)) = rest.split_first() {
        let more = length_for(encoding, *first);
        if more > TEXT_LIMIT - total {
            return true;
        }
        total += more;
        rest = others;
    }
    false
}

fn written(alloc: Global, encoding: Encoding, text: &[u8]) -> Result<Vec<u8>, NoMemory>
    requires { length (encoded encoding text.now) ≤ TEXT_LIMIT }
    ensures { IfOk result (λ bytes. bytes.items ≡ encoded encoding text.now) }
{
    let mut out = Vec::new(alloc);
    let mut rest = text;
    while let Some((first, others)) = rest.split_first() {
        push_for(encoding, &mut out, *first)?;
        rest = others;
    }
    Ok(out)
}

/// The text with each byte written so. Faults Long exactly where it would be longer than
/// 16,777,216 bytes, before anything is built.
pub(crate) fn encode(alloc: Global, encoding: Encoding, text: &[u8]) -> Result<Text, Fault>
    ensures ok { IfOk result (λ t. within_length (encoded encoding text.now) ≡ Ok (Plain.text t)) }
    ensures err { IfErr result
        (λ fault. (fault ≡ Fault.Memory) ⊎ (within_length (encoded encoding text.now) ≡ Err fault)) }
{
    if is_too_long(encoding, text) {
        return Err(Fault::Long);
    }
    let bytes = written(alloc, encoding, text)?;
    Text::from_vec(alloc, bytes)
}

/// `htmlspecialchars(text)` (PHP manual), of a text that is UTF-8. Faults Long exactly where it
/// would be longer than 16,777,216 bytes, before anything is built.
pub fn html(alloc: Global, text: &[u8]) -> Result<Text, Fault>
    ensures ok { IfOk result (λ t. within_length (html_of text.now) ≡ Ok (Plain.text t)) }
    ensures err { IfErr result (λ fault. (fault ≡ Fault.Memory)
        ⊎ (within_length (html_of text.now) ≡ Err fault)) }
{
    encode(alloc, Encoding::Html, text)
}
