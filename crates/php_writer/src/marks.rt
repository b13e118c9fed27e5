//! The marks of a script, one after another.

ghost use Rattle.std.specs.Prelude.{◌≡◌, ◌++◌, ◌∷◌, OnOk, ℕ, List, pos};
ghost use Rattle.spellable.specs.Marks.{Mark, Adds, all_written, keyword_spelling, digits_of};
ghost use Rattle.spellable.specs.Marks as mark;
ghost use Rattle.php_writer.specs.Written.{int_mark};
ghost use Rattle.lexical_grammar.specs.Spelled.{quoted};

use php_syntax::token::Sign;
use script_grammar::keyword::Keyword;
use std::alloc::Global;
use text_base::{Bytes, NoMemory};

/// The bytes that are written so far.
#[derive(Drop)]
pub struct Writer {
    pub alloc: Global,
    pub bytes: Bytes,
}

impl Writer {
    /// Puts bytes and a space.
    fn put(&mut self, text: &[u8]) -> Result<(), NoMemory>
        ensures { OnOk result ((rest : List ℕ) → self.new.bytes ++ rest ≡
            self.old.bytes ++ (text.now ++ 32 ∷ rest)) }
    {
        self.bytes.append(text)?;
        self.bytes.push(b' ')?;
        Ok(())
    }

    /// Puts a sign.
    #[tactic(auto, unfolding(spellable::specs::Marks::all_written))]
    pub fn sign(&mut self, sign: Sign) -> Result<(), NoMemory>
        ensures { OnOk result (Adds self.old.bytes self.new.bytes (λ behind.
            mark.sign sign ∷ behind)) }
    {
        self.put(sign.spelling())?;
        Ok(())
    }

    /// Puts a keyword.
    #[tactic(auto, unfolding(spellable::specs::Marks::all_written))]
    pub fn keyword(&mut self, keyword: Keyword) -> Result<(), NoMemory>
        ensures { OnOk result (Adds self.old.bytes self.new.bytes (λ behind.
            mark.keyword keyword ∷ behind)) }
    {
        self.put(keyword_text(keyword))?;
        Ok(())
    }

    /// Puts a name.
    #[tactic(auto, unfolding(spellable::specs::Marks::all_written))]
    pub fn name(&mut self, name: &[u8]) -> Result<(), NoMemory>
        ensures { OnOk result (Adds self.old.bytes self.new.bytes (λ behind.
            mark.name name.now ∷ behind)) }
    {
        self.put(name)?;
        Ok(())
    }

    /// Puts a variable.
    #[tactic(auto, unfolding(spellable::specs::Marks::all_written))]
    pub fn variable(&mut self, name: &[u8]) -> Result<(), NoMemory>
        ensures { OnOk result (Adds self.old.bytes self.new.bytes (λ behind.
            mark.variable name.now ∷ behind)) }
    {
        self.bytes.push(b'$')?;
        self.put(name)?;
        Ok(())
    }

    /// Puts the bytes of a text, with a backslash where one is needed, and the quote behind it.
    #[tactic(auto, using(crate::proofs::RustLemmas::quoted_drop))]
    pub fn quote(&mut self, text: &[u8]) -> Result<(), NoMemory>
        ensures { OnOk result ((rest : List ℕ) → self.new.bytes ++ rest ≡
            self.old.bytes ++ (quoted text.now ++ rest)) }
    {
        for byte in text {
            if *byte == b'\'' || *byte == b'\\' {
                self.bytes.push(b'\\')?;
            }
            self.bytes.push(*byte)?;
        }
        self.bytes.push(b'\'')?;
        Ok(())
    }

    /// Puts a text in single quotes.
    #[tactic(auto, unfolding(spellable::specs::Marks::all_written))]
    pub fn text(&mut self, text: &[u8]) -> Result<(), NoMemory>
        ensures { OnOk result (Adds self.old.bytes self.new.bytes (λ behind.
            mark.text text.now ∷ behind)) }
    {
        self.bytes.push(b'\'')?;
        self.quote(text)?;
        self.bytes.push(b' ')?;
        Ok(())
    }

    /// Puts bytes outside PHP, and the tags round them.
    #[tactic(auto, unfolding(spellable::specs::Marks::all_written))]
    pub fn outside(&mut self, text: &[u8]) -> Result<(), NoMemory>
        ensures { OnOk result (Adds self.old.bytes self.new.bytes (λ behind.
            mark.outside text.now ∷ behind)) }
    {
        self.bytes.append(b"?>\n")?;
        self.bytes.append(text)?;
        self.bytes.append(b"<?php ")?;
        Ok(())
    }

    /// Puts the digits of an integer, and of a negative one nothing.
    pub fn digits(&mut self, number: i64) -> Result<(), NoMemory>
        ensures { OnOk result (self.new.bytes ≡ self.old.bytes ++ digits_of number) }
    {
        if number < 0 {
            return Ok(());
        }
        let text = format!(in self.alloc; "{number}")?;
        self.bytes.append(text.as_bytes())?;
        Ok(())
    }

    /// Puts an integer literal, or the constant of the least integer.
    #[tactic(auto, unfolding(spellable::specs::Marks::all_written, crate::specs::Written::int_mark))]
    pub fn integer(&mut self, number: i64) -> Result<(), NoMemory>
        ensures { OnOk result (Adds self.old.bytes self.new.bytes (λ behind.
            int_mark number ∷ behind)) }
    {
        if number < 0 {
            return self.keyword(Keyword::PhpIntMin);
        }
        self.digits(number)?;
        self.bytes.push(b' ')?;
        Ok(())
    }
}

// The spelling of a keyword.
fn keyword_text(keyword: Keyword) -> &'static [u8]
    ensures { result.now ≡ keyword_spelling keyword }
{
    match keyword {
        Keyword::Function => b"function",
        Keyword::True => b"true",
        Keyword::False => b"false",
        Keyword::Null => b"null",
        Keyword::Echo => b"echo",
        Keyword::Print => b"print",
        Keyword::If => b"if",
        Keyword::ElseIf => b"elseif",
        Keyword::Else => b"else",
        Keyword::EndIf => b"endif",
        Keyword::While => b"while",
        Keyword::EndWhile => b"endwhile",
        Keyword::Do => b"do",
        Keyword::For => b"for",
        Keyword::EndFor => b"endfor",
        Keyword::Foreach => b"foreach",
        Keyword::As => b"as",
        Keyword::EndForeach => b"endforeach",
        Keyword::Break => b"break",
        Keyword::Continue => b"continue",
        Keyword::Return => b"return",
        Keyword::Include => b"include",
        Keyword::Require => b"require",
        Keyword::Exit => b"exit",
        Keyword::Isset => b"isset",
        Keyword::Empty => b"empty",
        Keyword::Array => b"array",
        Keyword::PhpEol => b"PHP_EOL",
        Keyword::PhpIntMax => b"PHP_INT_MAX",
        Keyword::PhpIntMin => b"PHP_INT_MIN",
        Keyword::Miscased => b"php_eol",
    }
}
