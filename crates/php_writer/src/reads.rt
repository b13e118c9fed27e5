//! Templates that read a member of a variable.

ghost use Rattle.std.specs.Prelude.{◌≡◌, ◌++◌, ◌∷◌, [], OnOk, ℕ, List};
ghost use Rattle.php_syntax.specs.Tokens.{PlainKey, text_key, int_key, var_key};
ghost use Rattle.php_syntax.specs.Trees.{plain_expr};
ghost use Rattle.spellable.specs.Marks.{Mark, Adds, keys_spelling};
ghost use Rattle.spellable.specs.Marks as mark;
ghost use Rattle.php_writer.specs.Written.{read_name, part_key, read_keys};

use crate::marks::Writer;
use php_syntax::tree::Expr;
use script_grammar::reserved::request_name;
use text_base::NoMemory;

// Puts a text as a key.
#[tactic(auto, unfolding(spellable::specs::Marks::keys_spelling))]
fn put_text_key(out: &mut Writer, text: &[u8]) -> Result<(), NoMemory>
    ensures { OnOk result ((keys : List PlainKey) (rest : List ℕ)
        → out.new.bytes ++ (keys_spelling keys ++ rest)
        ≡ out.old.bytes ++ (keys_spelling (text_key text.now ∷ keys) ++ rest)) }
{
    out.bytes.append(b"['")?;
    out.quote(text)?;
    out.bytes.push(b']')?;
    Ok(())
}

// Puts an integer as a key.
#[tactic(auto, unfolding(spellable::specs::Marks::keys_spelling))]
fn put_int_key(out: &mut Writer, number: i64) -> Result<(), NoMemory>
    ensures { OnOk result ((keys : List PlainKey) (rest : List ℕ)
        → out.new.bytes ++ (keys_spelling keys ++ rest)
        ≡ out.old.bytes ++ (keys_spelling (int_key number ∷ keys) ++ rest)) }
{
    out.bytes.push(b'[')?;
    out.digits(number)?;
    out.bytes.push(b']')?;
    Ok(())
}

// Puts a variable as a key.
#[tactic(auto, unfolding(spellable::specs::Marks::keys_spelling))]
fn put_variable_key(out: &mut Writer, name: &[u8]) -> Result<(), NoMemory>
    ensures { OnOk result ((keys : List PlainKey) (rest : List ℕ)
        → out.new.bytes ++ (keys_spelling keys ++ rest)
        ≡ out.old.bytes ++ (keys_spelling (var_key name.now ∷ keys) ++ rest)) }
{
    out.bytes.append(b"[$")?;
    out.bytes.append(name)?;
    out.bytes.push(b']')?;
    Ok(())
}

// Puts a key in brackets; what is none is put as an empty text.
#[tactic(auto, using(php_syntax::proofs::Views::views), unfolding(crate::specs::Written::part_key))]
fn put_key(out: &mut Writer, key: &Expr) -> Result<(), NoMemory>
    ensures { OnOk result ((keys : List PlainKey) (rest : List ℕ)
        → out.new.bytes ++ (keys_spelling keys ++ rest)
        ≡ out.old.bytes ++ (keys_spelling (part_key (plain_expr key.now) ∷ keys) ++ rest)) }
{
    match key {
        Expr::Int(number) => put_int_key(out, *number),
        Expr::Var(name) => put_variable_key(out, name.as_slice()),
        Expr::Super(name) => put_variable_key(out, request_name(*name)),
        Expr::Text(text) => put_text_key(out, text.as_slice()),
        Expr::Null | Expr::Flag(_) | Expr::Step { .. } => put_text_key(out, b""),
        Expr::Member(..) | Expr::ArrayOf(_) | Expr::Join(_) => put_text_key(out, b""),
        Expr::Neg(_) | Expr::Not(_) | Expr::Isset(_) | Expr::Empty(_) => put_text_key(out, b""),
        Expr::Arith(..) | Expr::Compare(..) | Expr::And(..) | Expr::Or(..) => {
            put_text_key(out, b"")
        }
        Expr::Coalesce(..) | Expr::Choice(..) | Expr::Assign(..) => put_text_key(out, b""),
        Expr::Update(..) | Expr::Call(..) => put_text_key(out, b""),
    }
}

// Puts bytes.
fn put_bytes(out: &mut Writer, text: &[u8]) -> Result<(), NoMemory>
    ensures { OnOk result ((rest : List ℕ) → out.new.bytes ++ rest ≡
        out.old.bytes ++ (text.now ++ rest)) }
{
    out.bytes.append(text)?;
    Ok(())
}

// Puts the variable that is read, and the keys in the order in which they are taken.
#[tactic(auto, using(php_syntax::proofs::Views::views), unfolding(crate::specs::Written::read_name, crate::specs::Written::read_keys))]
fn put_path(out: &mut Writer, expr: &Expr) -> Result<(), NoMemory>
    ensures { OnOk result ((keys : List PlainKey) (rest : List ℕ)
        → out.new.bytes ++ (keys_spelling keys ++ rest)
        ≡ out.old.bytes ++ (read_name (plain_expr expr.now)
        ++ (keys_spelling (read_keys (plain_expr expr.now) keys) ++ rest))) }
{
    match expr {
        Expr::Var(name) => put_bytes(out, name.as_slice()),
        Expr::Super(name) => put_bytes(out, request_name(*name)),
        Expr::Member(base, key) => {
            put_path(out, base)?;
            put_key(out, key)
        }
        Expr::Null | Expr::Flag(_) | Expr::Int(_) | Expr::Text(_) => Ok(()),
        Expr::Step { .. } | Expr::ArrayOf(_) | Expr::Join(_) | Expr::Neg(_) => Ok(()),
        Expr::Not(_) | Expr::Isset(_) | Expr::Empty(_) | Expr::Arith(..) => Ok(()),
        Expr::Compare(..) | Expr::And(..) | Expr::Or(..) | Expr::Coalesce(..) => Ok(()),
        Expr::Choice(..) | Expr::Assign(..) | Expr::Update(..) | Expr::Call(..) => Ok(()),
    }
}

/// Puts a template that reads a member of a variable.
#[tactic(auto, unfolding(spellable::specs::Marks::all_written, spellable::specs::Marks::keys_spelling))]
pub fn put_read(out: &mut Writer, expr: &Expr) -> Result<(), NoMemory>
    ensures { OnOk result (Adds out.old.bytes out.new.bytes (λ behind.
        mark.read (read_name (plain_expr expr.now)) (read_keys (plain_expr expr.now) []) ∷ behind)) }
{
    out.bytes.append(b"\"{$")?;
    put_path(out, expr)?;
    out.bytes.append(b"}\" ")?;
    Ok(())
}
