//! The text of PHP's grammar against the rules, what each makes, the terminals and the start that
//! are made of it, by the notation that tools/tables.py tells.

use lr_tables::Rule;
use php_grammar::actions::{ACTIONS, Action};
use php_grammar::rules::{LEFTS, NAMES, RIGHTS, RULES, START, TERMINALS};
use php_grammar::text::TEXT;

// A power that no symbol has.
const MOST: u16 = 65535;

// What a rule makes, by the word behind its ` = `, if it has one.
const MADE: [(&str, Action); 71] = [
    ("", Action::Outside),
    ("pass", Action::Pass),
    ("no_parts", Action::NoParts),
    ("next_part", Action::NextPart),
    ("next_function", Action::NextFunction),
    ("absent", Action::Absent),
    ("no_statements", Action::NoStatements),
    ("next_statement", Action::NextStatement),
    ("block", Action::Block),
    ("inline", Action::Inline),
    ("echo", Action::Echo),
    ("run", Action::Run),
    ("empty_statement", Action::EmptyStatement),
    ("branch", Action::Branch),
    ("colon_branch", Action::ColonBranch),
    ("while_loop", Action::WhileLoop),
    ("colon_while_loop", Action::ColonWhileLoop),
    ("do_loop", Action::DoLoop),
    ("for_loop", Action::ForLoop),
    ("each_loop", Action::EachLoop),
    ("keyed_each_loop", Action::KeyedEachLoop),
    ("colon_each_loop", Action::ColonEachLoop),
    ("leave", Action::Leave),
    ("turn", Action::Turn),
    ("return_nothing", Action::ReturnNothing),
    ("return_value", Action::ReturnValue),
    ("unset", Action::Unset),
    ("no_rest", Action::NoRest),
    ("other", Action::Other),
    ("colon_other", Action::ColonOther),
    ("colon_arm", Action::ColonArm),
    ("second", Action::Second),
    ("first_expression", Action::FirstExpression),
    ("next_expression", Action::NextExpression),
    ("function", Action::Function),
    ("no_parameters", Action::NoParameters),
    ("next_parameter", Action::NextParameter),
    ("parameter", Action::Parameter),
    ("no_expressions", Action::NoExpressions),
    ("literal", Action::Literal),
    ("assign", Action::Assign),
    ("update", Action::Update),
    ("step_after", Action::StepAfter),
    ("step_before", Action::StepBefore),
    ("operate", Action::Operate),
    ("coalesce", Action::Coalesce),
    ("choice", Action::Choice),
    ("short_choice", Action::ShortChoice),
    ("prefix", Action::Prefix),
    ("print", Action::Print),
    ("include", Action::Include),
    ("exit", Action::Exit),
    ("exit_value", Action::ExitValue),
    ("isset", Action::Isset),
    ("empty", Action::Empty),
    ("eval", Action::Eval),
    ("bracket", Action::Bracket),
    ("no_arguments", Action::NoArguments),
    ("first_argument", Action::FirstArgument),
    ("next_argument", Action::NextArgument),
    ("next_element", Action::NextElement),
    ("hole", Action::Hole),
    ("element", Action::Element),
    ("keyed_element", Action::KeyedElement),
    ("variable", Action::Variable),
    ("member", Action::Member),
    ("open_member", Action::OpenMember),
    ("call", Action::Call),
    ("constant", Action::Constant),
    ("named_array", Action::NamedArray),
    ("array", Action::Array),
];

// How an operator leans, and its power.
#[derive(Clone, Copy)]
struct Level {
    power: u16,
    leans_left: bool,
    leans_right: bool,
    has_left: bool,
    has_right: bool,
}

impl Level {
    // The power before which a rule of this level stands.
    fn before(self) -> u16 {
        if self.leans_left {
            self.power
        } else {
            self.power.saturating_sub(1)
        }
    }

    // The power behind which it stands.
    fn behind(self) -> u16 {
        if self.leans_right {
            self.power
        } else {
            self.power.saturating_sub(1)
        }
    }
}

// What a right side says of a rule's powers: its first and last symbols, the level of the first
// symbol that has one, a level that is named, and another mark.
#[derive(Clone, Copy)]
struct Side {
    first: &'static str,
    last: &'static str,
    leveled: Option<Level>,
    named: Option<Level>,
    mark: &'static str,
}

// The name of a symbol.
fn name_of(symbol: u16) -> &'static str {
    match NAMES.get(symbol as usize) {
        Some(name) => name,
        None => "",
    }
}

// What the word behind ` = ` says that a rule makes.
fn action_of(word: &str) -> Option<Action> {
    for row in &MADE {
        if row.0 == word {
            return Some(row.1);
        }
    }
    None
}

// Whether a line of the text is a level of operators.
fn is_level(line: &str) -> bool {
    line.starts_with("%left ")
        || line.starts_with("%right ")
        || line.starts_with("%none ")
        || line.starts_with("%prefix ")
}

// The power to the left of a token before which some rule does not stand: more than any operator's.
fn top_power() -> u16 {
    let mut power: u16 = 4;
    for line in TEXT.lines() {
        if is_level(line) {
            power = power.saturating_add(2);
        }
    }
    power
}

// The level of a symbol, if a line of the text gives it one.
fn level_of(name: &str) -> Option<Level> {
    let mut power: u16 = 2;
    for line in TEXT.lines() {
        let Some((how, names)) = line.split_once(" ") else {
            continue;
        };
        if !is_level(line) {
            continue;
        }
        power = power.saturating_add(2);
        for word in names.split(' ') {
            let bare = word
                .strip_prefix("+")
                .unwrap_or(word.strip_prefix("-").unwrap_or(word));
            if bare == name {
                return Some(Level {
                    power,
                    leans_left: how == "%left" || how == "%prefix",
                    leans_right: how == "%right",
                    has_left: !word.starts_with("+"),
                    has_right: !word.starts_with("-"),
                });
            }
        }
    }
    None
}

// Whether the words of a right side, without its marks, are the symbols of a rule.
fn is_side(side: &str, rule: &Rule) -> bool {
    let mut left: usize = 0;
    for symbol in &rule.back {
        if *symbol != 0 {
            left = left.saturating_add(1);
        }
    }
    for word in side.split(' ') {
        if word.is_empty() || word.starts_with("!") {
            continue;
        }
        if left == 0 {
            return false;
        }
        left -= 1;
        match rule.back.get(left) {
            Some(symbol) if name_of(*symbol) == word => {}
            _ => return false,
        }
    }
    left == 0
}

// What the words of a right side say.
fn side_of(text: &'static str) -> Side {
    let mut side = Side {
        first: "",
        last: "",
        leveled: None,
        named: None,
        mark: "",
    };
    for word in text.split(' ') {
        if word.is_empty() {
            continue;
        }
        if let Some(name) = word.strip_prefix("!=") {
            side.named = level_of(name);
        } else if word.starts_with("!") {
            side.mark = word;
        } else {
            if side.first.is_empty() {
                side.first = word;
            }
            side.last = word;
            if side.leveled.is_none() {
                side.leveled = level_of(word);
            }
        }
    }
    side
}

// The powers of a rule: before which tokens and behind which symbols it does not stand.
fn powers_of(left: &str, text: &'static str) -> (u16, u16) {
    let side = side_of(text);
    let level = if side.mark == "!loose" {
        None
    } else if side.named.is_none() && side.last == left {
        side.leveled
    } else {
        side.named
    };
    let (before, behind) = match level {
        Some(level) if side.first == left => (level.before(), level.behind()),
        Some(level) => (level.before(), MOST),
        None => (MOST, MOST),
    };
    match side.mark {
        "" => (before, behind),
        "!loose" | "!closed" => (MOST, behind),
        _ => (top_power().saturating_sub(1), behind),
    }
}

// Whether a right side with its marks, and what stands behind its ` = `, is that of a rule with
// its left side; the form behind ` ~ ` is compared elsewhere.
fn is_rule(text: &'static str, rule: &Rule, action: Action) -> bool {
    let text = match text.split_once(" ~ ") {
        Some((text, _)) => text,
        None => text,
    };
    let (side, word) = match text.split_once(" = ") {
        Some((side, word)) => (side, word),
        None => (text, ""),
    };
    let (before, behind) = powers_of(name_of(rule.left), side);
    match action_of(word) {
        Some(made) => {
            made == action && is_side(side, rule) && rule.before == before && rule.behind == behind
        }
        None => false,
    }
}

// The number of the first rule that is not as the text says, if there is one. A line that begins
// with a bar has the left side of the rule before.
fn first_other() -> Option<usize> {
    let mut left = 0;
    let mut number: usize = 0;
    for line in TEXT.lines() {
        if line.is_empty() || line.starts_with("#") || line.starts_with("%") {
            continue;
        }
        let (Some(rule), Some(action)) = (RULES.get(number), ACTIONS.get(number)) else {
            return Some(number);
        };
        let side = match line.strip_prefix(" |") {
            Some(side) if rule.left == left => side,
            Some(_) => return Some(number),
            None => match line.split_once(":") {
                Some((name, side)) if name_of(rule.left) == name => side,
                _ => return Some(number),
            },
        };
        if !is_rule(side, rule, *action) {
            return Some(number);
        }
        left = rule.left;
        number = number.saturating_add(1);
    }
    if number == RULES.len() {
        None
    } else {
        Some(number)
    }
}

// Whether the powers of each symbol are as the text says; a token before which some rule does not
// stand has the highest.
fn are_powers() -> bool {
    let top = top_power();
    for number in 0..NAMES.len() {
        let (Some(name), Some(before), Some(behind)) = (
            NAMES.get(number),
            LEFTS.get(number),
            RIGHTS.get(number),
        ) else {
            return false;
        };
        let (left, right) = match level_of(name) {
            Some(level) => (
                if level.has_left { level.power } else { 0 },
                if level.has_right { level.power } else { 0 },
            ),
            None => (0, 0),
        };
        let is_refused = *name == "ELSE" || *name == "ELSEIF";
        if *behind != right || *before != if is_refused { top } else { left } {
            return false;
        }
    }
    true
}

// The name of the start in the text.
fn start_name() -> &'static str {
    for line in TEXT.lines() {
        if let Some(name) = line.strip_prefix("%start ") {
            return name;
        }
    }
    ""
}

// Whether the terminals are those of the text in its order, behind the end, and the start is its.
fn are_symbols() -> bool {
    let mut number: usize = 1;
    for line in TEXT.lines() {
        let Some(names) = line.strip_prefix("%token ") else {
            continue;
        };
        for name in names.split(' ') {
            match NAMES.get(number) {
                Some(named) if *named == name => {}
                _ => return false,
            }
            number = number.saturating_add(1);
        }
    }
    number == TERMINALS as usize && name_of(START) == start_name()
}

// Whether no two symbols have one name.
fn are_distinct() -> bool {
    for number in 0..NAMES.len() {
        for other in 0..number {
            if NAMES.get(number) == NAMES.get(other) {
                return false;
            }
        }
    }
    true
}

#[test]
fn rules_are_as_the_text_says(rt: HostRuntime) {
    assert_eq!(rt; first_other(), None);
    assert_eq!(rt; are_powers(), true);
    assert_eq!(rt; ACTIONS.len(), RULES.len());
    assert_eq!(rt; are_symbols(), true);
    assert_eq!(rt; are_distinct(), true);
}
