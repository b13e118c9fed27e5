//! Laws of the definitions, each proved by a function that does nothing.

ghost use Rattle.std.specs.Prelude.{◌≡◌, ◌↔◌, ◌⊎◌, ℕ, ℤ, List, true, false};
ghost use Rattle.std.specs.Bool.{Decides};
ghost use Rattle.plain_values.specs.Plain.{Plain};
ghost use Rattle.plain_values.specs.Identity.{identical};
ghost use Rattle.plain_values.specs.Numeric.{numeric, is_in_range};
ghost use Rattle.plain_values.specs.declared.numeric.Numeric.TheVariants.{Integer, Float};
ghost use Rattle.plain_values.specs.Grammar.{IsIntegerText, IsFloatText};

/// The texts that read as integers are the integer texts of the manual's grammar with a number in
/// range, and those that read as floats are its float texts and its other integer texts.
pub fn numeric_texts()
    ensures integer { (text : List ℕ) (z : ℤ)
        → (numeric text ≡ Integer z) ↔ (IsIntegerText text z × (is_in_range z ≡ true)) }
    ensures float { (text : List ℕ) → (numeric text ≡ Float) ↔ (IsFloatText text
        ⊎ ((z : ℤ) × IsIntegerText text z × (is_in_range z ≡ false))) }
{}

/// Values are identical exactly where they are equal as plain values.
pub fn identity_is_equality()
    ensures { (a b : Plain) → Decides (identical a b) (a ≡ b) }
{}
