//! The forms that the text of PHP's grammar names against those of the rules.

use php_grammar::form::Form;
use php_grammar::forms::FORMS;
use php_grammar::rules::RULES;
use php_grammar::text::TEXT;

// The form of a rule, by the word behind its ` ~ `, if it has one.
const NAMED: [(&str, Form); 66] = [
    ("", Form::Other),
    ("namespace", Form::Namespace),
    ("use", Form::Use),
    ("constant_definition", Form::ConstantDefinition),
    ("halt", Form::Halt),
    ("last_comma", Form::LastComma),
    ("inner_declaration", Form::InnerDeclaration),
    ("label", Form::Label),
    ("goto", Form::Goto),
    ("switch", Form::Switch),
    ("leave_loops", Form::LeaveLoops),
    ("global", Form::Global),
    ("static_variable", Form::StaticVariable),
    ("try", Form::Try),
    ("declare", Form::Declare),
    ("reference", Form::Reference),
    ("destructuring", Form::Destructuring),
    ("attribute", Form::Attribute),
    ("class", Form::Class),
    ("interface", Form::Interface),
    ("trait", Form::Trait),
    ("enum", Form::Enum),
    ("reserved_name", Form::ReservedName),
    ("promotion", Form::Promotion),
    ("variadic", Form::Variadic),
    ("type", Form::Type),
    ("yield", Form::Yield),
    ("class_constant", Form::ClassConstant),
    ("parts", Form::Parts),
    ("shell_command", Form::ShellCommand),
    ("word_operator", Form::WordOperator),
    ("bit_operator", Form::BitOperator),
    ("power", Form::Power),
    ("instanceof", Form::Instanceof),
    ("clone", Form::Clone),
    ("throw", Form::Throw),
    ("new", Form::New),
    ("closure", Form::Closure),
    ("match", Form::Match),
    ("callable", Form::Callable),
    ("named_argument", Form::NamedArgument),
    ("spread", Form::Spread),
    ("variable_variable", Form::VariableVariable),
    ("method", Form::Method),
    ("static_member", Form::StaticMember),
    ("called_value", Form::CalledValue),
    ("property", Form::Property),
    ("literal_member", Form::LiteralMember),
    ("constant_member", Form::ConstantMember),
    ("magic_constant", Form::MagicConstant),
    ("qualified_name", Form::QualifiedName),
    ("jump", Form::Jump),
    ("equal_parameters", Form::EqualParameters),
    ("default", Form::Default),
    ("conditions", Form::Conditions),
    ("loop_target", Form::LoopTarget),
    ("target", Form::Target),
    ("step", Form::Step),
    ("operator", Form::Operator),
    ("prefix", Form::Prefix),
    ("include", Form::Include),
    ("isset", Form::Isset),
    ("constant", Form::Constant),
    ("variable", Form::Variable),
    ("empty_key", Form::EmptyKey),
    ("missing_item", Form::MissingItem),
];

// The form that a word names.
fn form_of(word: &str) -> Option<Form> {
    for row in &NAMED {
        if row.0 == word {
            return Some(row.1);
        }
    }
    None
}

// The number of the first rule whose form is not as the text says, if there is one.
fn first_other() -> Option<usize> {
    let mut number: usize = 0;
    for line in TEXT.lines() {
        if line.is_empty() || line.starts_with("#") || line.starts_with("%") {
            continue;
        }
        let word = match line.split_once(" ~ ") {
            Some((_, word)) => word,
            None => "",
        };
        match (form_of(word), FORMS.get(number)) {
            (Some(named), Some(form)) if named == *form => {}
            _ => return Some(number),
        }
        number = number.saturating_add(1);
    }
    if number == RULES.len() {
        None
    } else {
        Some(number)
    }
}

#[test]
fn forms_are_as_the_text_says(rt: HostRuntime) {
    assert_eq!(rt; first_other(), None);
    assert_eq!(rt; FORMS.len(), RULES.len());
}
