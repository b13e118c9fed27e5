//! The coarse form in an arena (crate coarse_forms).

ghost use Rattle.std.specs.Prelude.{◌≡◌, OnOk};
ghost use Rattle.coarse_forms.specs.CoarseForms as spec;
ghost use Rattle.derivatives.specs.Expressions.{star};
ghost use Rattle.form_maker.specs.Making.{changed, making_of, pushed};
ghost use Rattle.page_forms.specs.Quotes.{quoted};
ghost use Rattle.page_forms.specs.Remarks.{times};
ghost use Rattle.page_forms.specs.Words as words;
ghost use Rattle.broken_readers.specs.Classes.{in_class};
ghost use Rattle.broken_readers.specs.Wrapped.{closed_by, opened_by};

use crate::class::PieceClass;
use form_maker::{ByteClass, Maker};
use text_base::{ByteRange, NoMemory};

/// The last expression with this word behind it.
pub fn close(maker: &mut Maker, word: &[u8]) -> Result<(), NoMemory>
    ensures { OnOk result
        (making_of maker.new ≡ changed (closed_by word.now) (making_of maker.old)) }
{
    maker.word(word)?;
    maker.chain()?;
    Ok(())
}

/// The last expression with this word before it.
pub fn open(maker: &mut Maker, word: &[u8]) -> Result<(), NoMemory>
    ensures { OnOk result
        (making_of maker.new ≡ changed (opened_by word.now) (making_of maker.old)) }
{
    maker.word(word)?;
    maker.chain_before()?;
    Ok(())
}

/// A byte of ASCII of a class, or any byte of a longer character.
fn byte_of(maker: &mut Maker, class: PieceClass) -> Result<(), NoMemory>
    ensures { OnOk result
        (making_of maker.new ≡ pushed (spec.byte_of (in_class class)) (making_of maker.old)) }
{
    maker.ascii(&class)?;
    maker.range(ByteRange { lo: 128, hi: 255 })?;
    maker.either()?;
    Ok(())
}

/// References.
fn reference(maker: &mut Maker) -> Result<(), NoMemory>
    ensures { OnOk result
        (making_of maker.new ≡ pushed spec.coarse_reference (making_of maker.old)) }
{
    maker.ascii(&PieceClass::Reference)?;
    maker.star()?;
    close(maker, b";")?;
    open(maker, b"&")?;
    Ok(())
}

/// Any number of bytes of a class.
fn bytes_of(maker: &mut Maker, class: PieceClass) -> Result<(), NoMemory>
    ensures { OnOk result
        (making_of maker.new
        ≡ pushed (star (spec.byte_of (in_class class)))
        (making_of maker.old)) }
{
    byte_of(maker, class)?;
    maker.star()?;
    Ok(())
}

/// Values in either quote.
pub fn values(maker: &mut Maker) -> Result<(), NoMemory>
    ensures { OnOk result
        (making_of maker.new ≡ pushed (quoted spec.value_bytes) (making_of maker.old)) }
{
    bytes_of(maker, PieceClass::Value(b'"'))?;
    maker.quote(b'"')?;
    bytes_of(maker, PieceClass::Value(b'\''))?;
    maker.quote(b'\'')?;
    maker.either()?;
    Ok(())
}

/// Literals in either quote.
fn literals(maker: &mut Maker) -> Result<(), NoMemory>
    ensures { OnOk result
        (making_of maker.new ≡ pushed (quoted spec.literal_bytes) (making_of maker.old)) }
{
    bytes_of(maker, PieceClass::But(b'"'))?;
    maker.quote(b'"')?;
    bytes_of(maker, PieceClass::But(b'\''))?;
    maker.quote(b'\'')?;
    maker.either()?;
    Ok(())
}

/// Tags.
fn tag(maker: &mut Maker) -> Result<(), NoMemory>
    ensures { OnOk result (making_of maker.new ≡ pushed spec.coarse_tag (making_of maker.old)) }
{
    maker.ascii(&ByteClass::NameStart)?;
    maker.ascii(&PieceClass::Tag)?;
    values(maker)?;
    maker.either()?;
    maker.star()?;
    close(maker, b">")?;
    maker.chain()?;
    open(maker, b"<")?;
    Ok(())
}

/// End tags.
fn end_tag(maker: &mut Maker) -> Result<(), NoMemory>
    ensures { OnOk result (making_of maker.new ≡ pushed spec.coarse_end_tag (making_of maker.old)) }
{
    maker.ascii(&PieceClass::EndTag)?;
    maker.star()?;
    close(maker, b">")?;
    open(maker, b"</")?;
    Ok(())
}

/// Document type declarations.
fn doctype(maker: &mut Maker) -> Result<(), NoMemory>
    ensures { OnOk result (making_of maker.new ≡ pushed spec.coarse_doctype (making_of maker.old)) }
{
    maker.ascii(&PieceClass::EndTag)?;
    literals(maker)?;
    maker.either()?;
    maker.star()?;
    close(maker, b">")?;
    open(maker, b"<!DOCTYPE")?;
    Ok(())
}

/// Comments.
fn comment(maker: &mut Maker) -> Result<(), NoMemory>
    ensures { OnOk result (making_of maker.new ≡ pushed spec.coarse_comment (making_of maker.old)) }
{
    byte_of(maker, PieceClass::But(b'-'))?;
    maker.byte(b'-')?;
    byte_of(maker, PieceClass::But(b'-'))?;
    maker.chain()?;
    maker.either()?;
    maker.star()?;
    close(maker, b"-->")?;
    open(maker, b"<!--")?;
    Ok(())
}

/// A byte but this one, behind it at most so many times; or any but `>` behind more.
fn bytes_then(maker: &mut Maker, byte: u8, count: u8) -> Result<(), NoMemory>
    ensures { OnOk result
        (making_of maker.new ≡ pushed (spec.bytes_then byte count) (making_of maker.old)) }
{
    if count == 0 {
        maker.byte(byte)?;
        maker.star()?;
        byte_of(maker, PieceClass::Neither(byte))?;
        maker.chain()?;
        return Ok(());
    }
    byte_of(maker, PieceClass::But(byte))?;
    maker.byte(byte)?;
    bytes_then(maker, byte, count - 1)?;
    maker.chain()?;
    maker.either()?;
    Ok(())
}

/// So many times the same byte.
fn same_bytes(maker: &mut Maker, byte: u8, count: u8) -> Result<(), NoMemory>
    ensures { OnOk result
        (making_of maker.new ≡ pushed (words.word (times byte count)) (making_of maker.old)) }
{
    if count == 0 {
        maker.empty()?;
        return Ok(());
    }
    maker.byte(byte)?;
    same_bytes(maker, byte, count - 1)?;
    maker.chain()?;
    Ok(())
}

/// Bytes up to the first place where this one stands so many times with `>` behind it.
fn bytes_up_to(maker: &mut Maker, byte: u8, count: u8) -> Result<(), NoMemory>
    ensures { OnOk result
        (making_of maker.new ≡ pushed (spec.bytes_up_to byte count) (making_of maker.old)) }
{
    bytes_then(maker, byte, count)?;
    maker.star()?;
    same_bytes(maker, byte, count)?;
    maker.byte(byte)?;
    maker.star()?;
    maker.byte(b'>')?;
    maker.chain()?;
    maker.chain()?;
    maker.chain()?;
    Ok(())
}

/// CDATA sections.
fn section(maker: &mut Maker) -> Result<(), NoMemory>
    ensures { OnOk result (making_of maker.new ≡ pushed spec.coarse_section (making_of maker.old)) }
{
    bytes_up_to(maker, b']', 2)?;
    open(maker, b"<![CDATA[")?;
    Ok(())
}

/// Instructions and the XML declaration.
fn instruction(maker: &mut Maker) -> Result<(), NoMemory>
    ensures { OnOk result
        (making_of maker.new ≡ pushed spec.coarse_instruction (making_of maker.old)) }
{
    maker.name_by(ByteClass::NameStart)?;
    maker.word(b"?>")?;
    maker.ascii(&ByteClass::Blank)?;
    bytes_up_to(maker, b'?', 1)?;
    maker.chain()?;
    maker.either()?;
    maker.chain()?;
    open(maker, b"<?")?;
    Ok(())
}

/// A coarse piece.
#[tactic(auto, unfolding(coarse_forms::specs::CoarseForms::coarse_form))]
pub fn coarse(maker: &mut Maker) -> Result<(), NoMemory>
    ensures { OnOk result (making_of maker.new ≡ pushed spec.coarse_form (making_of maker.old)) }
{
    instruction(maker)?;
    doctype(maker)?;
    maker.either()?;
    section(maker)?;
    maker.either_before()?;
    comment(maker)?;
    maker.either_before()?;
    end_tag(maker)?;
    maker.either_before()?;
    tag(maker)?;
    maker.either_before()?;
    reference(maker)?;
    maker.either_before()?;
    byte_of(maker, PieceClass::Text)?;
    maker.either_before()?;
    Ok(())
}
