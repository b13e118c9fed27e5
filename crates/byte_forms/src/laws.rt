//! The law. The function does nothing, and stands for the law that its contract states.

ghost use Rattle.byte_forms.specs.Laws.{ByteIsMatched};

/// The ranges of a test below a bound match exactly one byte that passes.
pub fn a_byte_is_matched()
    ensures { ByteIsMatched }
{}
