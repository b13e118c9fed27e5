//! The values of a text in which variables are read.

ghost use Rattle.std.specs.Prelude.{◌≡◌, ◌∷◌, [], map, IfOk, MatchOption};
ghost use Rattle.php_syntax.specs.Tokens.{plain_part_of, plain_key, read_part};
ghost use Rattle.expr_machine.specs.Values.{apply, execute};
ghost use Rattle.expr_machine.specs.Actions.{key_action, keys_actions, part_actions, parts_actions, template_actions};
ghost use Rattle.expr_builder.specs.Views.{plain_values};
ghost use Rattle.expr_builder.specs.Outcomes.{Applied, AppliedFirst};

use crate::values::Values;
use php_syntax::token::{Part, PartKey};
use php_syntax::tree::Expr;
use std::alloc::Global;
use text_base::{Bytes, NoMemory};

// The first key, and those behind it.
fn first_key(keys: &[PartKey]) -> Option<(&PartKey, &[PartKey])>
    ensures { MatchOption result (keys.now ≡ []) (λ found. keys.now ≡ found.0.now ∷ found.1.now) }
{
    match keys {
        [] => None,
        [key, behind @ ..] => Some((key, behind)),
    }
}

// The first part, and those behind it.
fn first_part(parts: &[Part]) -> Option<(&Part, &[Part])>
    ensures { MatchOption result (parts.now ≡ []) (λ found. parts.now ≡ found.0.now ∷ found.1.now) }
{
    match parts {
        [] => None,
        [part, behind @ ..] => Some((part, behind)),
    }
}

impl Values {
    // A key.
    #[tactic(auto, using(php_syntax::proofs::Views::views))]
    fn template_key(&mut self, alloc: Global, key: &PartKey) -> Result<bool, NoMemory>
        ensures { IfOk result (λ fine.
            Applied fine (apply (key_action (plain_key key.now)) (plain_values self.old))
            (plain_values self.new)) }
    {
        match key {
            PartKey::Text(text) => {
                self.leaf(Expr::Text(text.copy(alloc)?))?;
                Ok(true)
            }
            PartKey::Int(number) => {
                self.leaf(Expr::Int(*number))?;
                Ok(true)
            }
            PartKey::Var(name) => self.variable(name.copy(alloc)?),
        }
    }

    // Members by keys, the outermost first.
    fn template_keys(&mut self, alloc: Global, keys: &[PartKey]) -> Result<bool, NoMemory>
        ensures { IfOk result (λ fine.
            AppliedFirst fine (keys_actions (map plain_key keys.now)) (plain_values self.old)
            (plain_values self.new)) }
    {
        let mut left = keys;
        'keys: while let Some((key, behind)) = first_key(left) {
            let fine = self.template_key(alloc, key)?;
            if !fine {
                return Ok(false);
            }
            let member = self.member(alloc)?;
            if !member {
                return Ok(false);
            }
            left = behind;
        }
        Ok(true)
    }

    // A variable and its members.
    fn template_read(
        &mut self,
        alloc: Global,
        name: &Bytes,
        keys: &[PartKey],
    ) -> Result<bool, NoMemory>
        ensures { IfOk result (λ fine.
            AppliedFirst fine (part_actions (read_part name.now (map plain_key keys.now)))
            (plain_values self.old) (plain_values self.new)) }
    {
        let copied = name.copy(alloc)?;
        let fine = self.variable(copied)?;
        if !fine {
            return Ok(false);
        }
        self.template_keys(alloc, keys)
    }

    // A part of a template.
    #[tactic(auto, using(php_syntax::proofs::Views::views))]
    fn template_part(&mut self, alloc: Global, part: &Part) -> Result<bool, NoMemory>
        ensures { IfOk result (λ fine.
            AppliedFirst fine (part_actions (plain_part_of part.now)) (plain_values self.old)
            (plain_values self.new)) }
    {
        match part {
            Part::Plain(text) => {
                let copied = text.copy(alloc)?;
                self.leaf(Expr::Text(copied))?;
                Ok(true)
            }
            Part::Read(name, keys) => self.template_read(alloc, name, keys.as_slice()),
        }
    }

    // Parts of a template.
    fn template_parts(&mut self, alloc: Global, parts: &[Part]) -> Result<bool, NoMemory>
        ensures { IfOk result (λ fine.
            AppliedFirst fine (parts_actions (map plain_part_of parts.now)) (plain_values self.old)
            (plain_values self.new)) }
    {
        let mut left = parts;
        'parts: while let Some((part, behind)) = first_part(left) {
            let fine = self.template_part(alloc, part)?;
            if !fine {
                return Ok(false);
            }
            left = behind;
        }
        Ok(true)
    }

    /// A template is the join of its parts.
    pub(crate) fn template(&mut self, alloc: Global, parts: &[Part]) -> Result<bool, NoMemory>
        ensures { IfOk result (λ fine.
            Applied fine (execute (template_actions (map plain_part_of parts.now) [])
            (plain_values self.old)) (plain_values self.new)) }
    {
        let fine = self.template_parts(alloc, parts)?;
        if !fine {
            return Ok(false);
        }
        self.join(alloc, parts.len())
    }
}
