//! Forms of PHP that the language leaves out, by name.

/// A form that is refused, of PHP or of a rule beside its grammar.
#[derive(Clone, Copy, Debug, PartialEq, Eq)]
pub enum Form {
    /// A form that has no name of its own.
    Other,
    /// `namespace a;`, `namespace { }`
    Namespace,
    /// `use a\b;`
    Use,
    /// `const A = 1;`
    ConstantDefinition,
    /// `__halt_compiler();`
    Halt,
    /// A comma behind the last argument, parameter or operand.
    LastComma,
    /// A function or class that does not stand at the top of a file.
    InnerDeclaration,
    /// `a:`
    Label,
    /// `goto a;`
    Goto,
    /// `switch`
    Switch,
    /// `break 2;`, `continue 2;`
    LeaveLoops,
    /// `global $x;`
    Global,
    /// `static $x;`
    StaticVariable,
    /// `try`
    Try,
    /// `declare(strict_types=1);`
    Declare,
    /// `&$x`, `function &f()`
    Reference,
    /// `list($a, $b) = e`, `[$a, $b] = e`
    Destructuring,
    /// `#[A]`
    Attribute,
    /// `class`
    Class,
    /// `interface`
    Interface,
    /// `trait`
    Trait,
    /// `enum`
    Enum,
    /// A word that PHP or the language reserves, as the name of a function.
    ReservedName,
    /// `private` or `readonly` before a parameter.
    Promotion,
    /// `...$x` as a parameter.
    Variadic,
    /// `int $x`, `: int`
    Type,
    /// `yield`, `yield from`
    Yield,
    /// `A::B`, `A::class`
    ClassConstant,
    /// A text that comes in parts, with expressions between them.
    Parts,
    /// A command in backquotes.
    ShellCommand,
    /// `and`, `or`, `xor`
    WordOperator,
    /// `|`, `^`, `&`, `<<`, `>>`
    BitOperator,
    /// `**`
    Power,
    /// `instanceof`
    Instanceof,
    /// `clone e`
    Clone,
    /// `throw e`
    Throw,
    /// `new A`
    New,
    /// `function () { }`, `fn () => e`
    Closure,
    /// `match (e) { }`
    Match,
    /// `f(...)`
    Callable,
    /// `f(a: e)`
    NamedArgument,
    /// `...e`
    Spread,
    /// `$$x`, `${e}`
    VariableVariable,
    /// `$x->f()`
    Method,
    /// `A::f()`, `A::$x`
    StaticMember,
    /// `$f()`, `(e)()`
    CalledValue,
    /// `$x->y`
    Property,
    /// `'abc'[0]`, `[1, 2][0]`
    LiteralMember,
    /// `A[0]`
    ConstantMember,
    /// `__DIR__` and its like.
    MagicConstant,
    /// `a\b`, `\a`
    QualifiedName,
    /// A `break` or `continue` outside of loops, or a `return` outside of functions.
    Jump,
    /// Two parameters of one name.
    EqualParameters,
    /// A default that is no literal, or a parameter that may not be written.
    Default,
    /// More than one condition of a `for`.
    Conditions,
    /// What a `foreach` may not write.
    LoopTarget,
    /// What an assignment may not write.
    Target,
    /// `++` or `--` of what is no variable, or of one that may not be written.
    Step,
    /// An operator between operands that it does not take.
    Operator,
    /// `+` before an operand, `~`, `@` and other casts.
    Prefix,
    /// `include_once`, `require_once`, or the include of what is no literal path in UTF-8.
    Include,
    /// `isset` or `empty` of what is no variable with keys.
    Isset,
    /// A constant that the language does not have.
    Constant,
    /// `$this`, `$GLOBALS` and other variables that the language does not have.
    Variable,
    /// `$x[]` where its value is wanted, or before other keys.
    EmptyKey,
    /// `[, 1]`
    MissingItem,
    /// `print` that is no statement.
    InnerPrint,
    /// `include` that is no statement.
    InnerInclude,
    /// `exit` that is no statement.
    InnerExit,
    /// `!$x = e` without brackets.
    InnerAssignment,
    /// `a ?: b ?: c` without brackets.
    InnerChoice,
}

impl Form {
    /// Its name, as messages tell it.
    pub fn name(self) -> &'static str {
        match self {
            Form::Other => "another form",
            Form::Namespace => "namespace",
            Form::Use => "use",
            Form::ConstantDefinition => "const",
            Form::Halt => "__halt_compiler",
            Form::LastComma => "a comma before a bracket",
            Form::InnerDeclaration => "a declaration in a body",
            Form::Label => "label",
            Form::Goto => "goto",
            Form::Switch => "switch",
            Form::LeaveLoops => "break or continue with a number",
            Form::Global => "global",
            Form::StaticVariable => "static",
            Form::Try => "try",
            Form::Declare => "declare",
            Form::Reference => "by reference",
            Form::Destructuring => "list",
            Form::Attribute => "attribute",
            Form::Class => "class",
            Form::Interface => "interface",
            Form::Trait => "trait",
            Form::Enum => "enum",
            Form::ReservedName => "reserved name",
            Form::Promotion => "promoted parameter",
            Form::Variadic => "variadic parameter",
            Form::Type => "type declaration",
            Form::Yield => "yield",
            Form::ClassConstant => "class constant",
            Form::Parts => "text with parts",
            Form::ShellCommand => "shell command",
            Form::WordOperator => "and, or, xor",
            Form::BitOperator => "operator on bits",
            Form::Power => "**",
            Form::Instanceof => "instanceof",
            Form::Clone => "clone",
            Form::Throw => "throw",
            Form::New => "new",
            Form::Closure => "closure",
            Form::Match => "match",
            Form::Callable => "callable",
            Form::NamedArgument => "named argument",
            Form::Spread => "spread",
            Form::VariableVariable => "variable variable",
            Form::Method => "method",
            Form::StaticMember => "static member",
            Form::CalledValue => "call of a value",
            Form::Property => "property",
            Form::LiteralMember => "member of a literal",
            Form::ConstantMember => "member of a constant",
            Form::MagicConstant => "magic constant",
            Form::QualifiedName => "qualified name",
            Form::Jump => "break, continue or return out of place",
            Form::EqualParameters => "equal parameters",
            Form::Default => "parameter",
            Form::Conditions => "conditions of a for",
            Form::LoopTarget => "variable of a foreach",
            Form::Target => "target of an assignment",
            Form::Step => "++ or --",
            Form::Operator => "operator",
            Form::Prefix => "prefix operator",
            Form::Include => "include",
            Form::Isset => "isset or empty of no variable",
            Form::Constant => "constant",
            Form::Variable => "variable",
            Form::EmptyKey => "[] that is read",
            Form::MissingItem => "item that is left out",
            Form::InnerPrint => "print in an expression",
            Form::InnerInclude => "include in an expression",
            Form::InnerExit => "exit in an expression",
            Form::InnerAssignment => "assignment as an operand",
            Form::InnerChoice => "?: in ?:",
        }
    }
}
