//! The line of a production.

ghost use Rattle.std.specs.Prelude.{◌≡◌, ◌+◌, ◌≤◌, ◌++◌, ◌∷◌, [], length};
ghost use Rattle.arrayvec.specs.ArrayVec.{array_vec_len};
ghost use Rattle.hex.specs.Hex.{encode_lower};
ghost use Rattle.derivations.specs.Text as spec;

use arrayvec::ArrayVec;
use cfg_grammar::{Production, Right, Symbol};
use hex::encode_to_slice;
use itoa::Buffer;
use text_base::ByteRange;

/// Room for a line: three numbers of at most 20 digits, and what stands between them.
pub type Line = ArrayVec<u8, 96>;

fn put(line: &mut Line, bytes: &[u8])
    requires { array_vec_len line.old + length bytes.now ≤ 96 }
    ensures items { line.new.items ≡ line.old.items ++ bytes.now }
    ensures len { array_vec_len line.new ≡ array_vec_len line.old + length bytes.now }
{
    match line.try_extend_from_slice(bytes) {
        Ok(()) => {}
        Err(_) => unreachable!(),
    }
}

/// The number that a nonterminal is written with.
fn written_number(start: u64, number: u64) -> u64
    ensures { result ≡ spec.written_number start number }
{
    if number == start {
        0
    } else if number == 0 {
        start
    } else {
        number
    }
}

fn put_nonterminal(line: &mut Line, start: u64, number: u64)
    requires { array_vec_len line.old + 21 ≤ 96 }
    ensures items { line.new.items ≡ line.old.items ++ spec.nonterminal_text start number }
    ensures len { array_vec_len line.new ≤ array_vec_len line.old + 21 }
{
    let mut buffer = Buffer::new();
    put(line, b"n");
    let digits = buffer.format(written_number(start, number));
    put(line, digits.as_bytes());
}

/// A byte as two digits.
fn hexadecimal(byte: u8) -> [u8; 2]
    ensures { result ≡ encode_lower (byte ∷ []) }
{
    let mut digits = [0; 2];
    match encode_to_slice([byte].as_slice(), &mut digits) {
        Ok(()) => digits,
        Err(_) => unreachable!(),
    }
}

fn put_range(line: &mut Line, range: ByteRange)
    requires { array_vec_len line.old + 5 ≤ 96 }
    ensures items { line.new.items ≡ line.old.items ++ spec.range_text range.lo range.hi }
    ensures len { array_vec_len line.new ≤ array_vec_len line.old + 5 }
{
    put(line, &hexadecimal(range.lo));
    put(line, b"-");
    put(line, &hexadecimal(range.hi));
}

fn put_symbol(line: &mut Line, start: u64, symbol: Symbol)
    requires { array_vec_len line.old + 22 ≤ 96 }
    ensures items { line.new.items ≡ line.old.items ++ spec.symbol_text start symbol }
    ensures len { array_vec_len line.new ≤ array_vec_len line.old + 22 }
{
    match symbol {
        Symbol::Range(range) => {
            put(line, b" ");
            put_range(line, range);
        }
        Symbol::Token(_) => {}
        Symbol::Nt(a) => {
            put(line, b" ");
            put_nonterminal(line, start, a.0);
        }
    }
}

fn put_right(line: &mut Line, start: u64, right: Right)
    requires { array_vec_len line.old + 44 ≤ 96 }
    ensures items { line.new.items ≡ line.old.items ++ spec.right_text start right }
    ensures len { array_vec_len line.new ≤ array_vec_len line.old + 44 }
{
    match right {
        Right::Empty => {}
        Right::One(a) => put_symbol(line, start, a),
        Right::Two(a, b) => {
            put_symbol(line, start, a);
            put_symbol(line, start, b);
        }
    }
}

/// The line of a production, where the start is this.
pub fn line_of(start: u64, production: Production) -> Line
    ensures { result.items ≡ spec.line_text start production }
{
    let mut line = ArrayVec::new();
    put_nonterminal(&mut line, start, production.left.0);
    put(&mut line, b" =");
    put_right(&mut line, start, production.right);
    put(&mut line, b"\n");
    line
}
