//! What stands at the head of the bytes, place by place.

ghost use Rattle.std.specs.Prelude.{◌≡◌, ◌<◌, ◌≤◌, ◌+◌, ◌^◌, ◌∷◌, ◌++◌, [], length, IfOk, true, false};
ghost use Rattle.dtd_texts.specs.Places as places;
ghost use Rattle.dtd_texts.specs.Reading as spec;
ghost use Rattle.dtd_texts.specs.Tokens.{tokens};
ghost use Rattle.dtd_entities.specs.Positions.{state_of, seen, IsWithin, plain_source};
ghost use Rattle.dtd_entities.specs.Entities.{entity_by, entity_found};
ghost use Rattle.dtd_entities.specs.Endings.{ended_of};
ghost use Rattle.std.specs.Char.{encode_utf8};
ghost use Rattle.std.specs.String.{string_bytes};

use crate::ended::Ended;
use crate::entity::{Ending, external, is_entity, valued};
use crate::file_name::FileName;
use crate::parameters::declare;
use crate::state::{Mode, Move, Reading, Source, Written};
use dtd_declarations::{
    begins, behind, character, entity_length, front, head_is_blank, is_plain_value, is_quote,
    name_length, reference_length, same_letters, tokens_of,
};
use indexmap::{IndexMap, IndexSet};
use io_edge::name_beside;
use std::alloc::Global;
use std::mem;
use text_base::{Bytes, NoMemory};

// A reference at the head, or no move.
fn reference(bytes: &[u8]) -> Move
    ensures value { (s : spec.State) → seen result s bytes.now
        ≡ spec.moved s (places.reference_or bytes.now places.refuses) }
    ensures within { (s : spec.State) → IsWithin result s s bytes.now }
{
    let n = reference_length(bytes);
    if 0 < n { Move::Opens(n) } else { Move::Stuck }
}

// How long the target of the instruction at the head is; 0 where it is `xml`, or there is none.
fn target_length(bytes: &[u8]) -> usize
    ensures value { result ≡ places.target_length bytes.now }
    ensures within { 0 < result → 2 + result ≤ length bytes.now }
{
    let target = behind(bytes, 2);
    let n = name_length(target);
    if same_letters(b"xml", front(target, n)) {
        0
    } else {
        n
    }
}

impl Reading {
    /// Before all text.
    pub fn new(alloc: Global) -> Result<Reading, NoMemory>
        ensures { IfOk result (λ r. state_of r ≡ spec.start) }
    {
        Ok(Reading {
            mode: Mode::Between,
            text: Bytes::new(alloc),
            is_parameter: true,
            name: Bytes::new(alloc),
            quote: 0,
            depth: 0,
            parameters: IndexMap::new(alloc),
            generals: IndexSet::new(alloc),
            written: Vec::new(alloc),
            length: 0,
            begun: 0,
            references: 0,
            passed: 0,
            file: FileName::new(alloc, String::new(alloc))?,
        })
    }

    // So many bytes more.
    fn count(&mut self, n: usize)
        requires small { self.old.length < 2 ^ 32 }
        requires few { n < 2 ^ 63 }
        ensures { state_of self.new ≡ spec.on_to (state_of self.old) n (state_of self.old).place }
    {
        self.length += n as u64;
        if let Mode::Between = self.mode {
            self.begun = self.length;
        }
    }

    #[tactic(auto, unfolding(dtd_texts::specs::Places::comment_step))]
    fn in_comment(&mut self, bytes: &[u8]) -> Move
        requires small { self.old.length < 2 ^ 32 }
        requires some { 0 < length bytes.now }
        requires place { self.old.mode ≡ Mode.InComment }
        ensures value { seen result (state_of self.new) bytes.now
            ≡ spec.moved (state_of self.old) (places.comment_step bytes.now) }
        ensures within { IsWithin result (state_of self.old) (state_of self.new) bytes.now }
    {
        if begins(bytes, b"-->") {
            self.mode = Mode::Between;
            self.count(3);
            return Move::On(3);
        }
        if begins(bytes, b"--") {
            return Move::Stuck;
        }
        self.count(1);
        Move::On(1)
    }

    #[tactic(auto, unfolding(dtd_texts::specs::Places::target_step))]
    fn behind_target(&mut self, bytes: &[u8]) -> Move
        requires small { self.old.length < 2 ^ 32 }
        requires place { self.old.mode ≡ Mode.BehindTarget }
        ensures value { seen result (state_of self.new) bytes.now
            ≡ spec.moved (state_of self.old) (places.target_step bytes.now) }
        ensures within { IsWithin result (state_of self.old) (state_of self.new) bytes.now }
    {
        if begins(bytes, b"?>") {
            self.mode = Mode::Between;
            self.count(2);
            return Move::On(2);
        }
        if head_is_blank(bytes) {
            self.mode = Mode::InInstruction;
            self.count(1);
            return Move::On(1);
        }
        Move::Stuck
    }

    #[tactic(auto, unfolding(dtd_texts::specs::Places::instruction_step))]
    fn in_instruction(&mut self, bytes: &[u8]) -> Move
        requires small { self.old.length < 2 ^ 32 }
        requires some { 0 < length bytes.now }
        requires place { self.old.mode ≡ Mode.InInstruction }
        ensures value { seen result (state_of self.new) bytes.now
            ≡ spec.moved (state_of self.old) (places.instruction_step bytes.now) }
        ensures within { IsWithin result (state_of self.old) (state_of self.new) bytes.now }
    {
        if begins(bytes, b"?>") {
            self.mode = Mode::Between;
            self.count(2);
            return Move::On(2);
        }
        self.count(1);
        Move::On(1)
    }

    #[tactic(auto, unfolding(dtd_texts::specs::Places::between_step))]
    fn between(&mut self, alloc: Global, bytes: &[u8]) -> Move
        requires small { self.old.length < 2 ^ 32 }
        requires place { self.old.mode ≡ Mode.Between }
        ensures value { seen result (state_of self.new) bytes.now
            ≡ spec.moved (state_of self.old) (places.between_step bytes.now) }
        ensures within { IsWithin result (state_of self.old) (state_of self.new) bytes.now }
    {
        if head_is_blank(bytes) {
            self.count(1);
            return Move::On(1);
        }
        if begins(bytes, b"<!--") {
            self.mode = Mode::InComment;
            self.count(4);
            return Move::On(4);
        }
        if begins(bytes, b"<![") {
            return Move::Omits;
        }
        if begins(bytes, b"<!") {
            self.text = Bytes::new(alloc);
            self.mode = Mode::Inside(false);
            self.count(2);
            return Move::On(2);
        }
        self.instruction(bytes)
    }

    // Between declarations, where no declaration, comment or white space stands.
    fn instruction(&mut self, bytes: &[u8]) -> Move
        requires small { self.old.length < 2 ^ 32 }
        requires place { self.old.mode ≡ Mode.Between }
        ensures value { seen result (state_of self.new) bytes.now
            ≡ spec.moved (state_of self.old) (places.instruction_or_reference bytes.now) }
        ensures within { IsWithin result (state_of self.old) (state_of self.new) bytes.now }
    {
        if !begins(bytes, b"<?") {
            return reference(bytes);
        }
        let n = target_length(bytes);
        if n == 0 {
            return reference(bytes);
        }
        self.mode = Mode::BehindTarget;
        self.count(2 + n);
        Move::On(2 + n)
    }

    // In a literal that is no entity value.
    #[tactic(auto, unfolding(dtd_texts::specs::Places::literal_step))]
    fn in_literal(&mut self, bytes: &[u8]) -> Result<Move, NoMemory>
        requires small { self.old.length < 2 ^ 32 }
        requires place { self.old.mode ≡ Mode.InLiteral }
        ensures value { IfOk result (λ m. seen m (state_of self.new) bytes.now
            ≡ spec.moved (state_of self.old)
            (places.literal_step self.old.text self.old.quote bytes.now)) }
        ensures within { IfOk result
            (λ m. IsWithin m (state_of self.old) (state_of self.new) bytes.now) }
    {
        let byte = match bytes {
            [] => return Ok(Move::Stuck),
            [byte, ..] => *byte,
        };
        self.text.push(byte)?;
        if byte == self.quote {
            self.mode = Mode::Inside(true);
        }
        self.count(1);
        Ok(Move::On(1))
    }

    // A literal that begins here.
    fn literal(&mut self, bytes: &[u8], quote: u8) -> Result<Move, NoMemory>
        requires small { self.old.length < 2 ^ 32 }
        requires some { 0 < length bytes.now }
        ensures value { IfOk result (λ m. seen m (state_of self.new) bytes.now
            ≡ spec.moved (state_of self.old)
            (places.goes 1 (places.in_literal (self.old.text ++ quote ∷ []) quote))) }
        ensures within { IfOk result
            (λ m. IsWithin m (state_of self.old) (state_of self.new) bytes.now) }
    {
        self.text.push(quote)?;
        self.quote = quote;
        self.mode = Mode::InLiteral;
        self.count(1);
        Ok(Move::On(1))
    }

    // The value of an entity that begins here.
    fn value(
        &mut self,
        alloc: Global,
        bytes: &[u8],
        quote: u8,
        is_parameter: bool,
        name: Bytes,
    ) -> Move
        requires small { self.old.length < 2 ^ 32 }
        requires some { 0 < length bytes.now }
        ensures value { seen result (state_of self.new) bytes.now
            ≡ spec.moved (state_of self.old)
            (places.goes 1 (places.in_value (entity_by is_parameter name) quote [] 0)) }
        ensures within { IsWithin result (state_of self.old) (state_of self.new) bytes.now }
    {
        self.text = Bytes::new(alloc);
        self.quote = quote;
        self.is_parameter = is_parameter;
        self.name = name;
        self.depth = 0;
        self.mode = Mode::InValue;
        self.count(1);
        Move::On(1)
    }

    // A quote in a declaration.
    #[tactic(auto, unfolding(dtd_texts::specs::Places::quote_step))]
    fn quote(
        &mut self,
        alloc: Global,
        bytes: &[u8],
        quoted: bool,
        quote: u8,
    ) -> Result<Move, NoMemory>
        requires small { self.old.length < 2 ^ 32 }
        requires some { 0 < length bytes.now }
        requires place { self.old.mode ≡ Mode.Inside quoted }
        ensures value { IfOk result (λ m. seen m (state_of self.new) bytes.now
            ≡ spec.moved (state_of self.old) (places.quote_step self.old.text quoted quote)) }
        ensures within { IfOk result
            (λ m. IsWithin m (state_of self.old) (state_of self.new) bytes.now) }
    {
        if quoted {
            return self.literal(bytes, quote);
        }
        match entity_before(alloc, self.text.as_slice())? {
            None => self.literal(bytes, quote),
            Some((is_parameter, name)) => Ok(self.value(alloc, bytes, quote, is_parameter, name)),
        }
    }

    // The `>` of a declaration, behind which the reading stands between declarations.
    fn end_declaration(&mut self)
        requires small { self.old.length < 2 ^ 32 }
        ensures { state_of self.new ≡ spec.on_to (state_of self.old) 1 places.between }
    {
        self.mode = Mode::Between;
        self.count(1);
    }

    // The end of the declaration of a parameter entity.
    fn declare_parameter(
        &mut self,
        bytes: &[u8],
        name: Bytes,
        source: Source,
    ) -> Result<Move, NoMemory>
        requires small { self.old.length < 2 ^ 32 }
        requires some { 0 < length bytes.now }
        ensures value { IfOk result (λ m. seen m (state_of self.new) bytes.now
            ≡ spec.declared_parameter (state_of self.old) name (plain_source source)) }
        ensures within { IfOk result
            (λ m. IsWithin m (state_of self.old) (state_of self.new) bytes.now) }
    {
        declare(&mut self.parameters, name, source)?;
        self.end_declaration();
        Ok(Move::On(1))
    }

    // The end of the declaration of a general entity.
    fn declare_general(&mut self, bytes: &[u8], name: Bytes) -> Result<Move, NoMemory>
        requires small { self.old.length < 2 ^ 32 }
        requires some { 0 < length bytes.now }
        ensures value { IfOk result (λ m. seen m (state_of self.new) bytes.now
            ≡ spec.moved (state_of self.old) (places.declares_general name)) }
        ensures within { IfOk result
            (λ m. IsWithin m (state_of self.old) (state_of self.new) bytes.now) }
    {
        self.generals.insert(name)?;
        self.end_declaration();
        Ok(Move::On(1))
    }

    // The end of another declaration.
    fn declare_written(&mut self, alloc: Global, bytes: &[u8]) -> Result<Move, NoMemory>
        requires small { self.old.length < 2 ^ 32 }
        requires some { 0 < length bytes.now }
        ensures value { IfOk result (λ m. seen m (state_of self.new) bytes.now
            ≡ spec.moved (state_of self.old) (places.declares self.old.text)) }
        ensures within { IfOk result
            (λ m. IsWithin m (state_of self.old) (state_of self.new) bytes.now) }
    {
        let text = mem::replace(&mut self.text, Bytes::new(alloc));
        let at = self.begun;
        self.written.push(Written { text, at })?;
        self.end_declaration();
        Ok(Move::On(1))
    }

    // A byte more of the text of a declaration or of a value, for so many bytes.
    fn put(&mut self, byte: u8) -> Result<(), NoMemory>
        requires small { self.old.length < 2 ^ 32 }
        requires place { (self.old.mode ≡ Mode.InValue) }
        ensures { IfOk result (λ done. state_of self.new ≡ spec.on_to (state_of self.old) 1
            (places.in_value (entity_by self.old.is_parameter self.old.name) self.old.quote
            (self.old.text ++ byte ∷ []) self.old.depth)) }
    {
        self.text.push(byte)?;
        self.count(1);
        Ok(())
    }

    // A character of the value, for so many bytes.
    fn put_character(&mut self, c: char, n: usize) -> Result<(), NoMemory>
        requires small { self.old.length < 2 ^ 32 }
        requires few { n < 2 ^ 63 }
        requires place { self.old.mode ≡ Mode.InValue }
        ensures { IfOk result (λ done. state_of self.new ≡ spec.on_to (state_of self.old) n
            (places.in_value (entity_by self.old.is_parameter self.old.name) self.old.quote
            (self.old.text ++ encode_utf8 c) self.old.depth)) }
    {
        let mut buffer = [0; 4];
        let encoded = c.encode_utf8(&mut buffer);
        self.text.append(encoded.as_bytes())?;
        self.count(n);
        Ok(())
    }

    // In the value of an entity, where no character reference stands and the value does not end.
    fn in_value_else(&mut self, bytes: &[u8], byte: u8) -> Result<Move, NoMemory>
        requires small { self.old.length < 2 ^ 32 }
        requires some { 0 < length bytes.now }
        requires place { self.old.mode ≡ Mode.InValue }
        ensures value { IfOk result
            (λ m. seen m (state_of self.new) bytes.now ≡ spec.moved (state_of self.old)
            (places.value_else (entity_by self.old.is_parameter self.old.name) self.old.quote
            self.old.text self.old.depth byte bytes.now)) }
        ensures within { IfOk result
            (λ m. IsWithin m (state_of self.old) (state_of self.new) bytes.now) }
    {
        if byte == b'&' {
            if entity_length(bytes) == 0 {
                return Ok(Move::Stuck);
            }
            self.put(byte)?;
            return Ok(Move::On(1));
        }
        if byte == b'%' {
            return Ok(reference(bytes));
        }
        self.put(byte)?;
        Ok(Move::On(1))
    }

    #[tactic(auto, unfolding(dtd_texts::specs::Places::value_step))]
    fn in_value(&mut self, bytes: &[u8]) -> Result<Move, NoMemory>
        requires small { self.old.length < 2 ^ 32 }
        requires place { self.old.mode ≡ Mode.InValue }
        ensures value { IfOk result
            (λ m. seen m (state_of self.new) bytes.now ≡ spec.moved (state_of self.old)
            (places.value_step (entity_by self.old.is_parameter self.old.name) self.old.quote
            self.old.text self.old.depth bytes.now)) }
        ensures within { IfOk result
            (λ m. IsWithin m (state_of self.old) (state_of self.new) bytes.now) }
    {
        let byte = match bytes {
            [] => return Ok(Move::Stuck),
            [byte, ..] => *byte,
        };
        if byte == self.quote && self.depth == 0 {
            self.mode = Mode::BehindValue;
            self.count(1);
            return Ok(Move::On(1));
        }
        if let Some((c, n)) = character(bytes) {
            self.put_character(c, n)?;
            return Ok(Move::On(n));
        }
        self.in_value_else(bytes, byte)
    }

    // The end of the value of an entity.
    fn end_value(&mut self, alloc: Global, bytes: &[u8]) -> Result<Move, NoMemory>
        requires small { self.old.length < 2 ^ 32 }
        requires some { 0 < length bytes.now }
        requires place { self.old.mode ≡ Mode.BehindValue }
        ensures value { IfOk result
            (λ m. seen m (state_of self.new) bytes.now ≡ spec.moved (state_of self.old)
            (places.declares_value (entity_by self.old.is_parameter self.old.name) self.old.text)) }
        ensures within { IfOk result
            (λ m. IsWithin m (state_of self.old) (state_of self.new) bytes.now) }
    {
        if self.is_parameter {
            let name = mem::replace(&mut self.name, Bytes::new(alloc));
            let value = mem::replace(&mut self.text, Bytes::new(alloc));
            return self.declare_parameter(bytes, name, Source::Internal(value));
        }
        if !is_plain_value(self.text.as_slice()) {
            return Ok(Move::Omits);
        }
        let name = mem::replace(&mut self.name, Bytes::new(alloc));
        self.declare_general(bytes, name)
    }

    #[tactic(auto, unfolding(dtd_texts::specs::Places::behind_step))]
    fn behind_value(&mut self, alloc: Global, bytes: &[u8]) -> Result<Move, NoMemory>
        requires small { self.old.length < 2 ^ 32 }
        requires place { self.old.mode ≡ Mode.BehindValue }
        ensures value { IfOk result
            (λ m. seen m (state_of self.new) bytes.now ≡ spec.moved (state_of self.old)
            (places.behind_step (entity_by self.old.is_parameter self.old.name) self.old.text
            bytes.now)) }
        ensures within { IfOk result
            (λ m. IsWithin m (state_of self.old) (state_of self.new) bytes.now) }
    {
        if head_is_blank(bytes) {
            self.count(1);
            return Ok(Move::On(1));
        }
        if begins(bytes, b">") {
            return self.end_value(alloc, bytes);
        }
        Ok(reference(bytes))
    }

    // The end of a declaration, but for entities with a value.
    #[tactic(auto, unfolding(dtd_texts::specs::Places::end_step))]
    fn end(&mut self, alloc: Global, bytes: &[u8]) -> Result<Move, NoMemory>
        requires small { self.old.length < 2 ^ 32 }
        requires some { 0 < length bytes.now }
        ensures value { IfOk result (λ m. seen m (state_of self.new) bytes.now
            ≡ spec.moved (state_of self.old) (places.end_step self.old.text)) }
        ensures within { IfOk result
            (λ m. IsWithin m (state_of self.old) (state_of self.new) bytes.now) }
    {
        match ending(alloc, self.text.as_slice())? {
            Ended::Written => self.declare_written(alloc, bytes),
            Ended::Outside(name, system) => {
                let meant = name_beside(alloc, self.file.as_str(), system.as_str())?;
                let meant = FileName::new(alloc, meant)?;
                self.declare_parameter(bytes, name, Source::External(meant))
            }
            Ended::LeftOut => Ok(Move::Omits),
            Ended::Refused => Ok(Move::Stuck),
        }
    }

    #[tactic(auto, unfolding(dtd_texts::specs::Places::inside_step))]
    fn inside(&mut self, alloc: Global, quoted: bool, bytes: &[u8]) -> Result<Move, NoMemory>
        requires small { self.old.length < 2 ^ 32 }
        requires place { self.old.mode ≡ Mode.Inside quoted }
        ensures value { IfOk result (λ m. seen m (state_of self.new) bytes.now
            ≡ spec.moved (state_of self.old) (places.inside_step self.old.text quoted bytes.now)) }
        ensures within { IfOk result
            (λ m. IsWithin m (state_of self.old) (state_of self.new) bytes.now) }
    {
        let byte = match bytes {
            [] => return Ok(Move::Stuck),
            [byte, ..] => *byte,
        };
        if is_quote(byte) {
            return self.quote(alloc, bytes, quoted, byte);
        }
        if byte == b'>' {
            return self.end(alloc, bytes);
        }
        let n = reference_length(bytes);
        if 0 < n {
            return Ok(Move::Opens(n));
        }
        self.text.push(byte)?;
        self.count(1);
        Ok(Move::On(1))
    }

    /// The move at the head of the bytes.
    pub fn step(&mut self, alloc: Global, bytes: &[u8]) -> Result<Move, NoMemory>
        requires small { self.old.length < 2 ^ 32 }
        requires some { 0 < length bytes.now }
        ensures value { IfOk result
            (λ m. seen m (state_of self.new) bytes.now ≡ spec.move (state_of self.old) bytes.now) }
        ensures within { IfOk result
            (λ m. IsWithin m (state_of self.old) (state_of self.new) bytes.now) }
    {
        match self.mode {
            Mode::Between => Ok(self.between(alloc, bytes)),
            Mode::InComment => Ok(self.in_comment(bytes)),
            Mode::BehindTarget => Ok(self.behind_target(bytes)),
            Mode::InInstruction => Ok(self.in_instruction(bytes)),
            Mode::Inside(quoted) => self.inside(alloc, quoted, bytes),
            Mode::InLiteral => self.in_literal(bytes),
            Mode::InValue => self.in_value(bytes),
            Mode::BehindValue => self.behind_value(alloc, bytes),
        }
    }

    /// Behind the beginning of an entity and so many bytes that are passed over, in this file.
    pub fn enter(&mut self, over: u64, file: FileName) -> Result<(), NoMemory>
        requires small { (self.old.length < 2 ^ 32) × (self.old.references < 2 ^ 32) }
        requires few { (self.old.passed < 2 ^ 32) × (over < 2 ^ 32) }
        ensures { IfOk result
            (λ done. state_of self.new ≡ spec.enter (state_of self.old) over file) }
    {
        self.references += 1;
        self.passed += over;
        self.file = file;
        match self.mode {
            Mode::Inside(_) => {
                self.text.push(b' ')?;
                self.count(1);
            }
            Mode::InLiteral => {
                self.text.push(b' ')?;
                self.count(1);
            }
            Mode::InValue => {
                self.depth += 1;
            }
            Mode::BehindTarget => {
                self.mode = Mode::InInstruction;
                self.count(1);
            }
            _ => self.count(1),
        }
        Ok(())
    }

    /// Behind the end of an entity, in this file again.
    pub fn leave(&mut self, file: FileName) -> Result<(), NoMemory>
        requires small { self.old.length < 2 ^ 32 }
        ensures { IfOk result
            (λ done. state_of self.new ≡ spec.leave (state_of self.old) file) }
    {
        self.file = file;
        match self.mode {
            Mode::Inside(_) => {
                self.text.push(b' ')?;
                self.count(1);
            }
            Mode::InLiteral => {
                self.text.push(b' ')?;
                self.count(1);
            }
            Mode::InValue => {
                if self.depth == 0 {
                    self.text.push(b' ')?;
                    self.count(1);
                } else {
                    self.depth -= 1;
                }
            }
            Mode::BehindTarget => {
                self.mode = Mode::InInstruction;
                self.count(1);
            }
            _ => self.count(1),
        }
        Ok(())
    }
}

// The entity whose value comes next behind this text of a declaration: whether it is a parameter
// entity, and its name.
fn entity_before(alloc: Global, text: &[u8]) -> Result<Option<(bool, Bytes)>, NoMemory>
    ensures { IfOk result
        (λ found. entity_found found ≡ places.value_of (places.entity_of (tokens text.now))) }
{
    let tokens = tokens_of(alloc, text)?;
    match valued(tokens.as_slice()) {
        None => Ok(None),
        Some(entity) => Ok(Some((entity.is_parameter, Bytes::from_slice(alloc, entity.name)?))),
    }
}

// What the end of a declaration comes to.
fn text_copy(alloc: Global, text: &str) -> Result<String, NoMemory>
    ensures { IfOk result (λ t. string_bytes t ≡ text.now) }
{
    Ok(String::from_str(alloc, text)?)
}

#[tactic(auto, unfolding(dtd_texts::specs::Places::end_step))]
fn ending(alloc: Global, text: &[u8]) -> Result<Ended, NoMemory>
    ensures { IfOk result (λ ended. ended_of ended text.now ≡ places.end_step text.now) }
{
    let tokens = tokens_of(alloc, text)?;
    if !is_entity(tokens.as_slice()) {
        return Ok(Ended::Written);
    }
    match external(tokens.as_slice()) {
        Ending::Declares(name, system) => {
            let name = Bytes::from_slice(alloc, name)?;
            let system = text_copy(alloc, system)?;
            Ok(Ended::Outside(name, system))
        }
        Ending::LeavesOut => Ok(Ended::LeftOut),
        Ending::Refuses => Ok(Ended::Refused),
    }
}
