//! The grammar. Made by tools/tables.py.

use lr_tables::Rule;

const END: u16 = 0;
/// The terminal ECHO.
pub const ECHO: u16 = 1;
/// The terminal PRINT.
pub const PRINT: u16 = 2;
/// The terminal IF.
pub const IF: u16 = 3;
/// The terminal ELSEIF.
pub const ELSEIF: u16 = 4;
/// The terminal ELSE.
pub const ELSE: u16 = 5;
/// The terminal ENDIF.
pub const ENDIF: u16 = 6;
/// The terminal WHILE.
pub const WHILE: u16 = 7;
/// The terminal ENDWHILE.
pub const ENDWHILE: u16 = 8;
/// The terminal DO.
pub const DO: u16 = 9;
/// The terminal FOR.
pub const FOR: u16 = 10;
/// The terminal ENDFOR.
pub const ENDFOR: u16 = 11;
/// The terminal FOREACH.
pub const FOREACH: u16 = 12;
/// The terminal ENDFOREACH.
pub const ENDFOREACH: u16 = 13;
/// The terminal AS.
pub const AS: u16 = 14;
/// The terminal SWITCH.
pub const SWITCH: u16 = 15;
/// The terminal ENDSWITCH.
pub const ENDSWITCH: u16 = 16;
/// The terminal CASE.
pub const CASE: u16 = 17;
/// The terminal DEFAULT.
pub const DEFAULT: u16 = 18;
/// The terminal BREAK.
pub const BREAK: u16 = 19;
/// The terminal CONTINUE.
pub const CONTINUE: u16 = 20;
/// The terminal RETURN.
pub const RETURN: u16 = 21;
/// The terminal GOTO.
pub const GOTO: u16 = 22;
/// The terminal DECLARE.
pub const DECLARE: u16 = 23;
/// The terminal ENDDECLARE.
pub const ENDDECLARE: u16 = 24;
/// The terminal TRY.
pub const TRY: u16 = 25;
/// The terminal CATCH.
pub const CATCH: u16 = 26;
/// The terminal FINALLY.
pub const FINALLY: u16 = 27;
/// The terminal THROW.
pub const THROW: u16 = 28;
/// The terminal GLOBAL.
pub const GLOBAL: u16 = 29;
/// The terminal UNSET.
pub const UNSET: u16 = 30;
/// The terminal ISSET.
pub const ISSET: u16 = 31;
/// The terminal EMPTY.
pub const EMPTY: u16 = 32;
/// The terminal EVAL.
pub const EVAL: u16 = 33;
/// The terminal EXIT.
pub const EXIT: u16 = 34;
/// The terminal INCLUDE.
pub const INCLUDE: u16 = 35;
/// The terminal ARRAY.
pub const ARRAY: u16 = 36;
/// The terminal LIST.
pub const LIST: u16 = 37;
/// The terminal MATCH.
pub const MATCH: u16 = 38;
/// The terminal FUNCTION.
pub const FUNCTION: u16 = 39;
/// The terminal FN.
pub const FN: u16 = 40;
/// The terminal YIELD.
pub const YIELD: u16 = 41;
/// The terminal YIELD_FROM.
pub const YIELD_FROM: u16 = 42;
/// The terminal CLASS.
pub const CLASS: u16 = 43;
/// The terminal INTERFACE.
pub const INTERFACE: u16 = 44;
/// The terminal TRAIT.
pub const TRAIT: u16 = 45;
/// The terminal ENUM.
pub const ENUM: u16 = 46;
/// The terminal EXTENDS.
pub const EXTENDS: u16 = 47;
/// The terminal IMPLEMENTS.
pub const IMPLEMENTS: u16 = 48;
/// The terminal INSTEADOF.
pub const INSTEADOF: u16 = 49;
/// The terminal CALLABLE.
pub const CALLABLE: u16 = 50;
/// The terminal CONST.
pub const CONST: u16 = 51;
/// The terminal VAR.
pub const VAR: u16 = 52;
/// The terminal STATIC.
pub const STATIC: u16 = 53;
/// The terminal VISIBILITY.
pub const VISIBILITY: u16 = 54;
/// The terminal ABSTRACT.
pub const ABSTRACT: u16 = 55;
/// The terminal READONLY.
pub const READONLY: u16 = 56;
/// The terminal NEW.
pub const NEW: u16 = 57;
/// The terminal CLONE.
pub const CLONE: u16 = 58;
/// The terminal INSTANCEOF.
pub const INSTANCEOF: u16 = 59;
/// The terminal NAMESPACE.
pub const NAMESPACE: u16 = 60;
/// The terminal USE.
pub const USE: u16 = 61;
/// The terminal HALT.
pub const HALT: u16 = 62;
/// The terminal MAGIC.
pub const MAGIC: u16 = 63;
/// The terminal AND.
pub const AND: u16 = 64;
/// The terminal OR.
pub const OR: u16 = 65;
/// The terminal XOR.
pub const XOR: u16 = 66;
/// The terminal INLINE.
pub const INLINE: u16 = 67;
/// The terminal NAME.
pub const NAME: u16 = 68;
/// The terminal QUALIFIED.
pub const QUALIFIED: u16 = 69;
/// The terminal ROOTED.
pub const ROOTED: u16 = 70;
/// The terminal RELATIVE.
pub const RELATIVE: u16 = 71;
/// The terminal VARIABLE.
pub const VARIABLE: u16 = 72;
/// The terminal NUMBER.
pub const NUMBER: u16 = 73;
/// The terminal TEXT.
pub const TEXT: u16 = 74;
/// The terminal TEMPLATE.
pub const TEMPLATE: u16 = 75;
/// The terminal QUOTE.
pub const QUOTE: u16 = 76;
/// The terminal BACKQUOTE.
pub const BACKQUOTE: u16 = 77;
/// The terminal HEREDOC.
pub const HEREDOC: u16 = 78;
/// The terminal HEREDOC_END.
pub const HEREDOC_END: u16 = 79;
/// The terminal PIECE.
pub const PIECE: u16 = 80;
/// The terminal PIECE_NAME.
pub const PIECE_NAME: u16 = 81;
/// The terminal PIECE_NUMBER.
pub const PIECE_NUMBER: u16 = 82;
/// The terminal SEMI.
pub const SEMI: u16 = 83;
/// The terminal COMMA.
pub const COMMA: u16 = 84;
/// The terminal COLON.
pub const COLON: u16 = 85;
/// The terminal OPEN.
pub const OPEN: u16 = 86;
/// The terminal CLOSE.
pub const CLOSE: u16 = 87;
/// The terminal FROM.
pub const FROM: u16 = 88;
/// The terminal TO.
pub const TO: u16 = 89;
/// The terminal BEGIN.
pub const BEGIN: u16 = 90;
/// The terminal FINISH.
pub const FINISH: u16 = 91;
/// The terminal ATTRIBUTE.
pub const ATTRIBUTE: u16 = 92;
/// The terminal ARROW.
pub const ARROW: u16 = 93;
/// The terminal SCOPE.
pub const SCOPE: u16 = 94;
/// The terminal DOUBLE_ARROW.
pub const DOUBLE_ARROW: u16 = 95;
/// The terminal ELLIPSIS.
pub const ELLIPSIS: u16 = 96;
/// The terminal DOLLAR.
pub const DOLLAR: u16 = 97;
/// The terminal DOLLAR_BEGIN.
pub const DOLLAR_BEGIN: u16 = 98;
/// The terminal BEGIN_VARIABLE.
pub const BEGIN_VARIABLE: u16 = 99;
/// The terminal BACKSLASH.
pub const BACKSLASH: u16 = 100;
/// The terminal ASSIGN.
pub const ASSIGN: u16 = 101;
/// The terminal UPDATE.
pub const UPDATE: u16 = 102;
/// The terminal STEP.
pub const STEP: u16 = 103;
/// The terminal QUESTION.
pub const QUESTION: u16 = 104;
/// The terminal COALESCE.
pub const COALESCE: u16 = 105;
/// The terminal BOOL_OR.
pub const BOOL_OR: u16 = 106;
/// The terminal BOOL_AND.
pub const BOOL_AND: u16 = 107;
/// The terminal BAR.
pub const BAR: u16 = 108;
/// The terminal CARET.
pub const CARET: u16 = 109;
/// The terminal AMPERSAND.
pub const AMPERSAND: u16 = 110;
/// The terminal REFERENCE.
pub const REFERENCE: u16 = 111;
/// The terminal EQUALITY.
pub const EQUALITY: u16 = 112;
/// The terminal COMPARISON.
pub const COMPARISON: u16 = 113;
/// The terminal DOT.
pub const DOT: u16 = 114;
/// The terminal SHIFT.
pub const SHIFT: u16 = 115;
/// The terminal SUM.
pub const SUM: u16 = 116;
/// The terminal PRODUCT.
pub const PRODUCT: u16 = 117;
/// The terminal NOT.
pub const NOT: u16 = 118;
/// The terminal UNARY.
pub const UNARY: u16 = 119;
/// The terminal POWER.
pub const POWER: u16 = 120;

const FILE_: u16 = 121;

const TOP_STATEMENTS_: u16 = 122;

const NEW_NAMESPACE_: u16 = 123;

const NAMESPACE_NAME_: u16 = 124;

const IMPORTS_: u16 = 125;

const IMPORT_KIND_: u16 = 126;

const SOME_IMPORTS_: u16 = 127;

const IMPORT_: u16 = 128;

const IMPORT_NAME_: u16 = 129;

const GROUP_: u16 = 130;

const GROUP_IMPORT_: u16 = 131;

const PLAIN_GROUP_: u16 = 132;

const PLAIN_IMPORT_: u16 = 133;

const CONSTANTS_: u16 = 134;

const CONSTANT_ITEM_: u16 = 135;

const POSSIBLE_COMMA_: u16 = 136;

const STATEMENTS_: u16 = 137;

const STATEMENT_: u16 = 138;

const REST_: u16 = 139;

const COLON_REST_: u16 = 140;

const COLON_FOR_: u16 = 141;

const COLON_EACH_: u16 = 142;

const TARGET_: u16 = 143;

const POSSIBLE_SEMI_: u16 = 144;

const CASES_: u16 = 145;

const GLOBALS_: u16 = 146;

const STATIC_VARIABLES_: u16 = 147;

const STATIC_VARIABLE_: u16 = 148;

const VARIABLES_: u16 = 149;

const CATCHES_: u16 = 150;

const CAUGHT_: u16 = 151;

const CATCH_VARIABLE_: u16 = 152;

const FINALLY_: u16 = 153;

const INITIAL_: u16 = 154;

const GIVEN_: u16 = 155;

const NAMED_: u16 = 156;

const DECLARATION_: u16 = 157;

const DECLARED_: u16 = 158;

const FUNCTION_NAME_: u16 = 159;

const ATTRIBUTES_: u16 = 160;

const ATTRIBUTE_LIST_: u16 = 161;

const ATTRIBUTE_: u16 = 162;

const POSSIBLE_AMPERSAND_: u16 = 163;

const AMPERSAND_: u16 = 164;

const PARAMETERS_: u16 = 165;

const SOME_PARAMETERS_: u16 = 166;

const PARAMETER_: u16 = 167;

const PLAIN_PARAMETER_: u16 = 168;

const PROMOTIONS_: u16 = 169;

const PASSING_: u16 = 170;

const POSSIBLE_TYPE_: u16 = 171;

const TYPE_: u16 = 172;

const SINGLE_TYPE_: u16 = 173;

const UNION_: u16 = 174;

const UNION_PART_: u16 = 175;

const INTERSECTION_: u16 = 176;

const RETURN_TYPE_: u16 = 177;

const STATIC_UNION_: u16 = 178;

const CLASS_MODIFIERS_: u16 = 179;

const EXTENDS_: u16 = 180;

const IMPLEMENTS_: u16 = 181;

const INTERFACE_EXTENDS_: u16 = 182;

const ENUM_TYPE_: u16 = 183;

const CLASS_NAMES_: u16 = 184;

const MEMBERS_: u16 = 185;

const MEMBER_: u16 = 186;

const MODIFIERS_: u16 = 187;

const SOME_MODIFIERS_: u16 = 188;

const MODIFIER_: u16 = 189;

const PROPERTIES_: u16 = 190;

const CLASS_CONSTANTS_: u16 = 191;

const CLASS_CONSTANT_ITEM_: u16 = 192;

const BODY_: u16 = 193;

const ADAPTATIONS_: u16 = 194;

const SOME_ADAPTATIONS_: u16 = 195;

const ADAPTATION_: u16 = 196;

const ADAPTED_: u16 = 197;

const WHOLE_: u16 = 198;

const KEYED_: u16 = 199;

const EXPRESSIONS_: u16 = 200;

const ANY_EXPRESSIONS_: u16 = 201;

const EXPRESSION_: u16 = 202;

const SIGN_: u16 = 203;

const BRACKETED_: u16 = 204;

const CLOSURE_: u16 = 205;

const USES_: u16 = 206;

const USED_VARIABLES_: u16 = 207;

const USED_VARIABLE_: u16 = 208;

const ARMS_: u16 = 209;

const SOME_ARMS_: u16 = 210;

const ARM_: u16 = 211;

const CREATED_: u16 = 212;

const POSSIBLE_ARGUMENTS_: u16 = 213;

const CLASS_REFERENCE_: u16 = 214;

const NEW_VARIABLE_: u16 = 215;

const ARGUMENTS_: u16 = 216;

const SOME_ARGUMENTS_: u16 = 217;

const ARGUMENT_: u16 = 218;

const ELEMENTS_: u16 = 219;

const ELEMENT_: u16 = 220;

const CALLABLE_VARIABLE_: u16 = 221;

const VARIABLE_: u16 = 222;

const OBJECT_: u16 = 223;

const CONTAINER_: u16 = 224;

const SIMPLE_: u16 = 225;

const PROPERTY_: u16 = 226;

const METHOD_: u16 = 227;

const CONSTANT_: u16 = 228;

const CLASS_CONSTANT_: u16 = 229;

const CLASS_NAME_: u16 = 230;

const NAME_: u16 = 231;

const LITERAL_: u16 = 232;

const PIECES_: u16 = 233;

const PIECE_: u16 = 234;

const OFFSET_: u16 = 235;

const WORD_: u16 = 236;

const PLAIN_WORD_: u16 = 237;

/// The names of the symbols.
pub const NAMES: [&str; 238] = [
    "END",
    "ECHO",
    "PRINT",
    "IF",
    "ELSEIF",
    "ELSE",
    "ENDIF",
    "WHILE",
    "ENDWHILE",
    "DO",
    "FOR",
    "ENDFOR",
    "FOREACH",
    "ENDFOREACH",
    "AS",
    "SWITCH",
    "ENDSWITCH",
    "CASE",
    "DEFAULT",
    "BREAK",
    "CONTINUE",
    "RETURN",
    "GOTO",
    "DECLARE",
    "ENDDECLARE",
    "TRY",
    "CATCH",
    "FINALLY",
    "THROW",
    "GLOBAL",
    "UNSET",
    "ISSET",
    "EMPTY",
    "EVAL",
    "EXIT",
    "INCLUDE",
    "ARRAY",
    "LIST",
    "MATCH",
    "FUNCTION",
    "FN",
    "YIELD",
    "YIELD_FROM",
    "CLASS",
    "INTERFACE",
    "TRAIT",
    "ENUM",
    "EXTENDS",
    "IMPLEMENTS",
    "INSTEADOF",
    "CALLABLE",
    "CONST",
    "VAR",
    "STATIC",
    "VISIBILITY",
    "ABSTRACT",
    "READONLY",
    "NEW",
    "CLONE",
    "INSTANCEOF",
    "NAMESPACE",
    "USE",
    "HALT",
    "MAGIC",
    "AND",
    "OR",
    "XOR",
    "INLINE",
    "NAME",
    "QUALIFIED",
    "ROOTED",
    "RELATIVE",
    "VARIABLE",
    "NUMBER",
    "TEXT",
    "TEMPLATE",
    "QUOTE",
    "BACKQUOTE",
    "HEREDOC",
    "HEREDOC_END",
    "PIECE",
    "PIECE_NAME",
    "PIECE_NUMBER",
    "SEMI",
    "COMMA",
    "COLON",
    "OPEN",
    "CLOSE",
    "FROM",
    "TO",
    "BEGIN",
    "FINISH",
    "ATTRIBUTE",
    "ARROW",
    "SCOPE",
    "DOUBLE_ARROW",
    "ELLIPSIS",
    "DOLLAR",
    "DOLLAR_BEGIN",
    "BEGIN_VARIABLE",
    "BACKSLASH",
    "ASSIGN",
    "UPDATE",
    "STEP",
    "QUESTION",
    "COALESCE",
    "BOOL_OR",
    "BOOL_AND",
    "BAR",
    "CARET",
    "AMPERSAND",
    "REFERENCE",
    "EQUALITY",
    "COMPARISON",
    "DOT",
    "SHIFT",
    "SUM",
    "PRODUCT",
    "NOT",
    "UNARY",
    "POWER",
    "file",
    "top_statements",
    "new_namespace",
    "namespace_name",
    "imports",
    "import_kind",
    "some_imports",
    "import",
    "import_name",
    "group",
    "group_import",
    "plain_group",
    "plain_import",
    "constants",
    "constant_item",
    "possible_comma",
    "statements",
    "statement",
    "rest",
    "colon_rest",
    "colon_for",
    "colon_each",
    "target",
    "possible_semi",
    "cases",
    "globals",
    "static_variables",
    "static_variable",
    "variables",
    "catches",
    "caught",
    "catch_variable",
    "finally",
    "initial",
    "given",
    "named",
    "declaration",
    "declared",
    "function_name",
    "attributes",
    "attribute_list",
    "attribute",
    "possible_ampersand",
    "ampersand",
    "parameters",
    "some_parameters",
    "parameter",
    "plain_parameter",
    "promotions",
    "passing",
    "possible_type",
    "type",
    "single_type",
    "union",
    "union_part",
    "intersection",
    "return_type",
    "static_union",
    "class_modifiers",
    "extends",
    "implements",
    "interface_extends",
    "enum_type",
    "class_names",
    "members",
    "member",
    "modifiers",
    "some_modifiers",
    "modifier",
    "properties",
    "class_constants",
    "class_constant_item",
    "body",
    "adaptations",
    "some_adaptations",
    "adaptation",
    "adapted",
    "whole",
    "keyed",
    "expressions",
    "any_expressions",
    "expression",
    "sign",
    "bracketed",
    "closure",
    "uses",
    "used_variables",
    "used_variable",
    "arms",
    "some_arms",
    "arm",
    "created",
    "possible_arguments",
    "class_reference",
    "new_variable",
    "arguments",
    "some_arguments",
    "argument",
    "elements",
    "element",
    "callable_variable",
    "variable",
    "object",
    "container",
    "simple",
    "property",
    "method",
    "constant",
    "class_constant",
    "class_name",
    "name",
    "literal",
    "pieces",
    "piece",
    "offset",
    "word",
    "plain_word",
];

/// The rules.
pub const RULES: [Rule; 464] = [
    // file: top_statements
    Rule {
        left: FILE_,
        back: [TOP_STATEMENTS_, 0, 0, 0, 0, 0, 0, 0, 0, 0],
        before: 65535,
        behind: 65535,
    },
    // top_statements:
    Rule {
        left: TOP_STATEMENTS_,
        back: [0, 0, 0, 0, 0, 0, 0, 0, 0, 0],
        before: 65535,
        behind: 65535,
    },
    // top_statements: top_statements statement
    Rule {
        left: TOP_STATEMENTS_,
        back: [STATEMENT_, TOP_STATEMENTS_, 0, 0, 0, 0, 0, 0, 0, 0],
        before: 65535,
        behind: 65535,
    },
    // top_statements: top_statements declaration
    Rule {
        left: TOP_STATEMENTS_,
        back: [DECLARATION_, TOP_STATEMENTS_, 0, 0, 0, 0, 0, 0, 0, 0],
        before: 65535,
        behind: 65535,
    },
    // top_statements: top_statements NAMESPACE new_namespace SEMI
    Rule {
        left: TOP_STATEMENTS_,
        back: [
            SEMI,
            NEW_NAMESPACE_,
            NAMESPACE,
            TOP_STATEMENTS_,
            0,
            0,
            0,
            0,
            0,
            0,
        ],
        before: 65535,
        behind: 65535,
    },
    // top_statements: top_statements NAMESPACE new_namespace BEGIN top_statements FINISH
    Rule {
        left: TOP_STATEMENTS_,
        back: [
            FINISH,
            TOP_STATEMENTS_,
            BEGIN,
            NEW_NAMESPACE_,
            NAMESPACE,
            TOP_STATEMENTS_,
            0,
            0,
            0,
            0,
        ],
        before: 65535,
        behind: 65535,
    },
    // top_statements: top_statements NAMESPACE BEGIN top_statements FINISH
    Rule {
        left: TOP_STATEMENTS_,
        back: [
            FINISH,
            TOP_STATEMENTS_,
            BEGIN,
            NAMESPACE,
            TOP_STATEMENTS_,
            0,
            0,
            0,
            0,
            0,
        ],
        before: 65535,
        behind: 65535,
    },
    // top_statements: top_statements USE imports SEMI
    Rule {
        left: TOP_STATEMENTS_,
        back: [SEMI, IMPORTS_, USE, TOP_STATEMENTS_, 0, 0, 0, 0, 0, 0],
        before: 65535,
        behind: 65535,
    },
    // top_statements: top_statements CONST constants SEMI
    Rule {
        left: TOP_STATEMENTS_,
        back: [SEMI, CONSTANTS_, CONST, TOP_STATEMENTS_, 0, 0, 0, 0, 0, 0],
        before: 65535,
        behind: 65535,
    },
    // top_statements: top_statements HALT OPEN CLOSE SEMI
    Rule {
        left: TOP_STATEMENTS_,
        back: [SEMI, CLOSE, OPEN, HALT, TOP_STATEMENTS_, 0, 0, 0, 0, 0],
        before: 65535,
        behind: 65535,
    },
    // new_namespace: word
    Rule {
        left: NEW_NAMESPACE_,
        back: [WORD_, 0, 0, 0, 0, 0, 0, 0, 0, 0],
        before: 65535,
        behind: 65535,
    },
    // new_namespace: QUALIFIED
    Rule {
        left: NEW_NAMESPACE_,
        back: [QUALIFIED, 0, 0, 0, 0, 0, 0, 0, 0, 0],
        before: 65535,
        behind: 65535,
    },
    // namespace_name: NAME
    Rule {
        left: NAMESPACE_NAME_,
        back: [NAME, 0, 0, 0, 0, 0, 0, 0, 0, 0],
        before: 65535,
        behind: 65535,
    },
    // namespace_name: QUALIFIED
    Rule {
        left: NAMESPACE_NAME_,
        back: [QUALIFIED, 0, 0, 0, 0, 0, 0, 0, 0, 0],
        before: 65535,
        behind: 65535,
    },
    // imports: some_imports
    Rule {
        left: IMPORTS_,
        back: [SOME_IMPORTS_, 0, 0, 0, 0, 0, 0, 0, 0, 0],
        before: 65535,
        behind: 65535,
    },
    // imports: import_kind some_imports
    Rule {
        left: IMPORTS_,
        back: [SOME_IMPORTS_, IMPORT_KIND_, 0, 0, 0, 0, 0, 0, 0, 0],
        before: 65535,
        behind: 65535,
    },
    // imports: import_name BACKSLASH BEGIN group possible_comma FINISH
    Rule {
        left: IMPORTS_,
        back: [
            FINISH,
            POSSIBLE_COMMA_,
            GROUP_,
            BEGIN,
            BACKSLASH,
            IMPORT_NAME_,
            0,
            0,
            0,
            0,
        ],
        before: 65535,
        behind: 65535,
    },
    // imports: import_kind import_name BACKSLASH BEGIN plain_group possible_comma FINISH
    Rule {
        left: IMPORTS_,
        back: [
            FINISH,
            POSSIBLE_COMMA_,
            PLAIN_GROUP_,
            BEGIN,
            BACKSLASH,
            IMPORT_NAME_,
            IMPORT_KIND_,
            0,
            0,
            0,
        ],
        before: 65535,
        behind: 65535,
    },
    // import_kind: FUNCTION
    Rule {
        left: IMPORT_KIND_,
        back: [FUNCTION, 0, 0, 0, 0, 0, 0, 0, 0, 0],
        before: 65535,
        behind: 65535,
    },
    // import_kind: CONST
    Rule {
        left: IMPORT_KIND_,
        back: [CONST, 0, 0, 0, 0, 0, 0, 0, 0, 0],
        before: 65535,
        behind: 65535,
    },
    // some_imports: import
    Rule {
        left: SOME_IMPORTS_,
        back: [IMPORT_, 0, 0, 0, 0, 0, 0, 0, 0, 0],
        before: 65535,
        behind: 65535,
    },
    // some_imports: some_imports COMMA import
    Rule {
        left: SOME_IMPORTS_,
        back: [IMPORT_, COMMA, SOME_IMPORTS_, 0, 0, 0, 0, 0, 0, 0],
        before: 65535,
        behind: 65535,
    },
    // import: import_name
    Rule {
        left: IMPORT_,
        back: [IMPORT_NAME_, 0, 0, 0, 0, 0, 0, 0, 0, 0],
        before: 65535,
        behind: 65535,
    },
    // import: import_name AS NAME
    Rule {
        left: IMPORT_,
        back: [NAME, AS, IMPORT_NAME_, 0, 0, 0, 0, 0, 0, 0],
        before: 65535,
        behind: 65535,
    },
    // import_name: namespace_name
    Rule {
        left: IMPORT_NAME_,
        back: [NAMESPACE_NAME_, 0, 0, 0, 0, 0, 0, 0, 0, 0],
        before: 65535,
        behind: 65535,
    },
    // import_name: ROOTED
    Rule {
        left: IMPORT_NAME_,
        back: [ROOTED, 0, 0, 0, 0, 0, 0, 0, 0, 0],
        before: 65535,
        behind: 65535,
    },
    // group: group_import
    Rule {
        left: GROUP_,
        back: [GROUP_IMPORT_, 0, 0, 0, 0, 0, 0, 0, 0, 0],
        before: 65535,
        behind: 65535,
    },
    // group: group COMMA group_import
    Rule {
        left: GROUP_,
        back: [GROUP_IMPORT_, COMMA, GROUP_, 0, 0, 0, 0, 0, 0, 0],
        before: 65535,
        behind: 65535,
    },
    // group_import: plain_import
    Rule {
        left: GROUP_IMPORT_,
        back: [PLAIN_IMPORT_, 0, 0, 0, 0, 0, 0, 0, 0, 0],
        before: 65535,
        behind: 65535,
    },
    // group_import: import_kind plain_import
    Rule {
        left: GROUP_IMPORT_,
        back: [PLAIN_IMPORT_, IMPORT_KIND_, 0, 0, 0, 0, 0, 0, 0, 0],
        before: 65535,
        behind: 65535,
    },
    // plain_group: plain_import
    Rule {
        left: PLAIN_GROUP_,
        back: [PLAIN_IMPORT_, 0, 0, 0, 0, 0, 0, 0, 0, 0],
        before: 65535,
        behind: 65535,
    },
    // plain_group: plain_group COMMA plain_import
    Rule {
        left: PLAIN_GROUP_,
        back: [PLAIN_IMPORT_, COMMA, PLAIN_GROUP_, 0, 0, 0, 0, 0, 0, 0],
        before: 65535,
        behind: 65535,
    },
    // plain_import: namespace_name
    Rule {
        left: PLAIN_IMPORT_,
        back: [NAMESPACE_NAME_, 0, 0, 0, 0, 0, 0, 0, 0, 0],
        before: 65535,
        behind: 65535,
    },
    // plain_import: namespace_name AS NAME
    Rule {
        left: PLAIN_IMPORT_,
        back: [NAME, AS, NAMESPACE_NAME_, 0, 0, 0, 0, 0, 0, 0],
        before: 65535,
        behind: 65535,
    },
    // constants: constant_item
    Rule {
        left: CONSTANTS_,
        back: [CONSTANT_ITEM_, 0, 0, 0, 0, 0, 0, 0, 0, 0],
        before: 65535,
        behind: 65535,
    },
    // constants: constants COMMA constant_item
    Rule {
        left: CONSTANTS_,
        back: [CONSTANT_ITEM_, COMMA, CONSTANTS_, 0, 0, 0, 0, 0, 0, 0],
        before: 65535,
        behind: 65535,
    },
    // constant_item: NAME given expression
    Rule {
        left: CONSTANT_ITEM_,
        back: [EXPRESSION_, GIVEN_, NAME, 0, 0, 0, 0, 0, 0, 0],
        before: 65535,
        behind: 65535,
    },
    // possible_comma:
    Rule {
        left: POSSIBLE_COMMA_,
        back: [0, 0, 0, 0, 0, 0, 0, 0, 0, 0],
        before: 65535,
        behind: 65535,
    },
    // possible_comma: COMMA
    Rule {
        left: POSSIBLE_COMMA_,
        back: [COMMA, 0, 0, 0, 0, 0, 0, 0, 0, 0],
        before: 65535,
        behind: 65535,
    },
    // statements:
    Rule {
        left: STATEMENTS_,
        back: [0, 0, 0, 0, 0, 0, 0, 0, 0, 0],
        before: 65535,
        behind: 65535,
    },
    // statements: statements statement
    Rule {
        left: STATEMENTS_,
        back: [STATEMENT_, STATEMENTS_, 0, 0, 0, 0, 0, 0, 0, 0],
        before: 65535,
        behind: 65535,
    },
    // statements: statements declaration
    Rule {
        left: STATEMENTS_,
        back: [DECLARATION_, STATEMENTS_, 0, 0, 0, 0, 0, 0, 0, 0],
        before: 65535,
        behind: 65535,
    },
    // statement: BEGIN statements FINISH
    Rule {
        left: STATEMENT_,
        back: [FINISH, STATEMENTS_, BEGIN, 0, 0, 0, 0, 0, 0, 0],
        before: 65535,
        behind: 65535,
    },
    // statement: INLINE
    Rule {
        left: STATEMENT_,
        back: [INLINE, 0, 0, 0, 0, 0, 0, 0, 0, 0],
        before: 65535,
        behind: 65535,
    },
    // statement: ECHO expressions SEMI
    Rule {
        left: STATEMENT_,
        back: [SEMI, EXPRESSIONS_, ECHO, 0, 0, 0, 0, 0, 0, 0],
        before: 65535,
        behind: 65535,
    },
    // statement: whole SEMI
    Rule {
        left: STATEMENT_,
        back: [SEMI, WHOLE_, 0, 0, 0, 0, 0, 0, 0, 0],
        before: 65535,
        behind: 65535,
    },
    // statement: SEMI
    Rule {
        left: STATEMENT_,
        back: [SEMI, 0, 0, 0, 0, 0, 0, 0, 0, 0],
        before: 65535,
        behind: 65535,
    },
    // statement: NAME COLON
    Rule {
        left: STATEMENT_,
        back: [COLON, NAME, 0, 0, 0, 0, 0, 0, 0, 0],
        before: 65535,
        behind: 65535,
    },
    // statement: GOTO NAME SEMI
    Rule {
        left: STATEMENT_,
        back: [SEMI, NAME, GOTO, 0, 0, 0, 0, 0, 0, 0],
        before: 65535,
        behind: 65535,
    },
    // statement: IF OPEN whole CLOSE statement rest
    Rule {
        left: STATEMENT_,
        back: [REST_, STATEMENT_, CLOSE, WHOLE_, OPEN, IF, 0, 0, 0, 0],
        before: 65535,
        behind: 65535,
    },
    // statement: IF OPEN whole CLOSE COLON statements colon_rest
    Rule {
        left: STATEMENT_,
        back: [
            COLON_REST_,
            STATEMENTS_,
            COLON,
            CLOSE,
            WHOLE_,
            OPEN,
            IF,
            0,
            0,
            0,
        ],
        before: 65535,
        behind: 65535,
    },
    // statement: WHILE OPEN whole CLOSE statement
    Rule {
        left: STATEMENT_,
        back: [STATEMENT_, CLOSE, WHOLE_, OPEN, WHILE, 0, 0, 0, 0, 0],
        before: 65535,
        behind: 65535,
    },
    // statement: WHILE OPEN whole CLOSE COLON statements ENDWHILE SEMI
    Rule {
        left: STATEMENT_,
        back: [
            SEMI,
            ENDWHILE,
            STATEMENTS_,
            COLON,
            CLOSE,
            WHOLE_,
            OPEN,
            WHILE,
            0,
            0,
        ],
        before: 65535,
        behind: 65535,
    },
    // statement: DO statement WHILE OPEN whole CLOSE SEMI
    Rule {
        left: STATEMENT_,
        back: [SEMI, CLOSE, WHOLE_, OPEN, WHILE, STATEMENT_, DO, 0, 0, 0],
        before: 65535,
        behind: 65535,
    },
    // statement: FOR OPEN any_expressions SEMI any_expressions SEMI any_expressions CLOSE statement
    Rule {
        left: STATEMENT_,
        back: [
            STATEMENT_,
            CLOSE,
            ANY_EXPRESSIONS_,
            SEMI,
            ANY_EXPRESSIONS_,
            SEMI,
            ANY_EXPRESSIONS_,
            OPEN,
            FOR,
            0,
        ],
        before: 65535,
        behind: 65535,
    },
    // statement: FOR OPEN any_expressions SEMI any_expressions SEMI any_expressions CLOSE colon_for
    Rule {
        left: STATEMENT_,
        back: [
            COLON_FOR_,
            CLOSE,
            ANY_EXPRESSIONS_,
            SEMI,
            ANY_EXPRESSIONS_,
            SEMI,
            ANY_EXPRESSIONS_,
            OPEN,
            FOR,
            0,
        ],
        before: 65535,
        behind: 65535,
    },
    // statement: FOREACH OPEN expression AS target CLOSE statement
    Rule {
        left: STATEMENT_,
        back: [
            STATEMENT_,
            CLOSE,
            TARGET_,
            AS,
            EXPRESSION_,
            OPEN,
            FOREACH,
            0,
            0,
            0,
        ],
        before: 65535,
        behind: 65535,
    },
    // statement: FOREACH OPEN expression AS target DOUBLE_ARROW target CLOSE statement
    Rule {
        left: STATEMENT_,
        back: [
            STATEMENT_,
            CLOSE,
            TARGET_,
            DOUBLE_ARROW,
            TARGET_,
            AS,
            EXPRESSION_,
            OPEN,
            FOREACH,
            0,
        ],
        before: 65535,
        behind: 65535,
    },
    // statement: FOREACH OPEN expression AS target CLOSE COLON statements ENDFOREACH SEMI
    Rule {
        left: STATEMENT_,
        back: [
            SEMI,
            ENDFOREACH,
            STATEMENTS_,
            COLON,
            CLOSE,
            TARGET_,
            AS,
            EXPRESSION_,
            OPEN,
            FOREACH,
        ],
        before: 65535,
        behind: 65535,
    },
    // statement: FOREACH OPEN expression AS target DOUBLE_ARROW target CLOSE colon_each
    Rule {
        left: STATEMENT_,
        back: [
            COLON_EACH_,
            CLOSE,
            TARGET_,
            DOUBLE_ARROW,
            TARGET_,
            AS,
            EXPRESSION_,
            OPEN,
            FOREACH,
            0,
        ],
        before: 65535,
        behind: 65535,
    },
    // statement: SWITCH OPEN whole CLOSE BEGIN possible_semi cases FINISH
    Rule {
        left: STATEMENT_,
        back: [
            FINISH,
            CASES_,
            POSSIBLE_SEMI_,
            BEGIN,
            CLOSE,
            WHOLE_,
            OPEN,
            SWITCH,
            0,
            0,
        ],
        before: 65535,
        behind: 65535,
    },
    // statement: SWITCH OPEN whole CLOSE COLON possible_semi cases ENDSWITCH SEMI
    Rule {
        left: STATEMENT_,
        back: [
            SEMI,
            ENDSWITCH,
            CASES_,
            POSSIBLE_SEMI_,
            COLON,
            CLOSE,
            WHOLE_,
            OPEN,
            SWITCH,
            0,
        ],
        before: 65535,
        behind: 65535,
    },
    // statement: BREAK SEMI
    Rule {
        left: STATEMENT_,
        back: [SEMI, BREAK, 0, 0, 0, 0, 0, 0, 0, 0],
        before: 65535,
        behind: 65535,
    },
    // statement: BREAK expression SEMI
    Rule {
        left: STATEMENT_,
        back: [SEMI, EXPRESSION_, BREAK, 0, 0, 0, 0, 0, 0, 0],
        before: 65535,
        behind: 65535,
    },
    // statement: CONTINUE SEMI
    Rule {
        left: STATEMENT_,
        back: [SEMI, CONTINUE, 0, 0, 0, 0, 0, 0, 0, 0],
        before: 65535,
        behind: 65535,
    },
    // statement: CONTINUE expression SEMI
    Rule {
        left: STATEMENT_,
        back: [SEMI, EXPRESSION_, CONTINUE, 0, 0, 0, 0, 0, 0, 0],
        before: 65535,
        behind: 65535,
    },
    // statement: RETURN SEMI
    Rule {
        left: STATEMENT_,
        back: [SEMI, RETURN, 0, 0, 0, 0, 0, 0, 0, 0],
        before: 65535,
        behind: 65535,
    },
    // statement: RETURN whole SEMI
    Rule {
        left: STATEMENT_,
        back: [SEMI, WHOLE_, RETURN, 0, 0, 0, 0, 0, 0, 0],
        before: 65535,
        behind: 65535,
    },
    // statement: GLOBAL globals SEMI
    Rule {
        left: STATEMENT_,
        back: [SEMI, GLOBALS_, GLOBAL, 0, 0, 0, 0, 0, 0, 0],
        before: 65535,
        behind: 65535,
    },
    // statement: STATIC static_variables SEMI
    Rule {
        left: STATEMENT_,
        back: [SEMI, STATIC_VARIABLES_, STATIC, 0, 0, 0, 0, 0, 0, 0],
        before: 65535,
        behind: 65535,
    },
    // statement: UNSET OPEN variables possible_comma CLOSE SEMI
    Rule {
        left: STATEMENT_,
        back: [
            SEMI,
            CLOSE,
            POSSIBLE_COMMA_,
            VARIABLES_,
            OPEN,
            UNSET,
            0,
            0,
            0,
            0,
        ],
        before: 65535,
        behind: 65535,
    },
    // statement: TRY BEGIN statements FINISH catches finally
    Rule {
        left: STATEMENT_,
        back: [
            FINALLY_,
            CATCHES_,
            FINISH,
            STATEMENTS_,
            BEGIN,
            TRY,
            0,
            0,
            0,
            0,
        ],
        before: 65535,
        behind: 65535,
    },
    // statement: DECLARE OPEN constants CLOSE statement
    Rule {
        left: STATEMENT_,
        back: [STATEMENT_, CLOSE, CONSTANTS_, OPEN, DECLARE, 0, 0, 0, 0, 0],
        before: 65535,
        behind: 65535,
    },
    // statement: DECLARE OPEN constants CLOSE COLON statements ENDDECLARE SEMI
    Rule {
        left: STATEMENT_,
        back: [
            SEMI,
            ENDDECLARE,
            STATEMENTS_,
            COLON,
            CLOSE,
            CONSTANTS_,
            OPEN,
            DECLARE,
            0,
            0,
        ],
        before: 65535,
        behind: 65535,
    },
    // rest:
    Rule {
        left: REST_,
        back: [0, 0, 0, 0, 0, 0, 0, 0, 0, 0],
        before: 59,
        behind: 65535,
    },
    // rest: ELSE statement
    Rule {
        left: REST_,
        back: [STATEMENT_, ELSE, 0, 0, 0, 0, 0, 0, 0, 0],
        before: 65535,
        behind: 65535,
    },
    // rest: ELSEIF OPEN whole CLOSE statement rest
    Rule {
        left: REST_,
        back: [REST_, STATEMENT_, CLOSE, WHOLE_, OPEN, ELSEIF, 0, 0, 0, 0],
        before: 65535,
        behind: 65535,
    },
    // colon_rest: ENDIF SEMI
    Rule {
        left: COLON_REST_,
        back: [SEMI, ENDIF, 0, 0, 0, 0, 0, 0, 0, 0],
        before: 65535,
        behind: 65535,
    },
    // colon_rest: ELSE COLON statements ENDIF SEMI
    Rule {
        left: COLON_REST_,
        back: [SEMI, ENDIF, STATEMENTS_, COLON, ELSE, 0, 0, 0, 0, 0],
        before: 65535,
        behind: 65535,
    },
    // colon_rest: ELSEIF OPEN whole CLOSE COLON statements colon_rest
    Rule {
        left: COLON_REST_,
        back: [
            COLON_REST_,
            STATEMENTS_,
            COLON,
            CLOSE,
            WHOLE_,
            OPEN,
            ELSEIF,
            0,
            0,
            0,
        ],
        before: 65535,
        behind: 65535,
    },
    // colon_for: COLON statements ENDFOR SEMI
    Rule {
        left: COLON_FOR_,
        back: [SEMI, ENDFOR, STATEMENTS_, COLON, 0, 0, 0, 0, 0, 0],
        before: 65535,
        behind: 65535,
    },
    // colon_each: COLON statements ENDFOREACH SEMI
    Rule {
        left: COLON_EACH_,
        back: [SEMI, ENDFOREACH, STATEMENTS_, COLON, 0, 0, 0, 0, 0, 0],
        before: 65535,
        behind: 65535,
    },
    // target: variable
    Rule {
        left: TARGET_,
        back: [VARIABLE_, 0, 0, 0, 0, 0, 0, 0, 0, 0],
        before: 65535,
        behind: 65535,
    },
    // target: ampersand variable
    Rule {
        left: TARGET_,
        back: [VARIABLE_, AMPERSAND_, 0, 0, 0, 0, 0, 0, 0, 0],
        before: 65535,
        behind: 65535,
    },
    // target: LIST OPEN elements CLOSE
    Rule {
        left: TARGET_,
        back: [CLOSE, ELEMENTS_, OPEN, LIST, 0, 0, 0, 0, 0, 0],
        before: 65535,
        behind: 65535,
    },
    // target: FROM elements TO
    Rule {
        left: TARGET_,
        back: [TO, ELEMENTS_, FROM, 0, 0, 0, 0, 0, 0, 0],
        before: 65535,
        behind: 65535,
    },
    // possible_semi:
    Rule {
        left: POSSIBLE_SEMI_,
        back: [0, 0, 0, 0, 0, 0, 0, 0, 0, 0],
        before: 65535,
        behind: 65535,
    },
    // possible_semi: SEMI
    Rule {
        left: POSSIBLE_SEMI_,
        back: [SEMI, 0, 0, 0, 0, 0, 0, 0, 0, 0],
        before: 65535,
        behind: 65535,
    },
    // cases:
    Rule {
        left: CASES_,
        back: [0, 0, 0, 0, 0, 0, 0, 0, 0, 0],
        before: 65535,
        behind: 65535,
    },
    // cases: cases CASE whole COLON statements
    Rule {
        left: CASES_,
        back: [STATEMENTS_, COLON, WHOLE_, CASE, CASES_, 0, 0, 0, 0, 0],
        before: 65535,
        behind: 65535,
    },
    // cases: cases CASE whole SEMI statements
    Rule {
        left: CASES_,
        back: [STATEMENTS_, SEMI, WHOLE_, CASE, CASES_, 0, 0, 0, 0, 0],
        before: 65535,
        behind: 65535,
    },
    // cases: cases DEFAULT COLON statements
    Rule {
        left: CASES_,
        back: [STATEMENTS_, COLON, DEFAULT, CASES_, 0, 0, 0, 0, 0, 0],
        before: 65535,
        behind: 65535,
    },
    // cases: cases DEFAULT SEMI statements
    Rule {
        left: CASES_,
        back: [STATEMENTS_, SEMI, DEFAULT, CASES_, 0, 0, 0, 0, 0, 0],
        before: 65535,
        behind: 65535,
    },
    // globals: simple
    Rule {
        left: GLOBALS_,
        back: [SIMPLE_, 0, 0, 0, 0, 0, 0, 0, 0, 0],
        before: 65535,
        behind: 65535,
    },
    // globals: globals COMMA simple
    Rule {
        left: GLOBALS_,
        back: [SIMPLE_, COMMA, GLOBALS_, 0, 0, 0, 0, 0, 0, 0],
        before: 65535,
        behind: 65535,
    },
    // static_variables: static_variable
    Rule {
        left: STATIC_VARIABLES_,
        back: [STATIC_VARIABLE_, 0, 0, 0, 0, 0, 0, 0, 0, 0],
        before: 65535,
        behind: 65535,
    },
    // static_variables: static_variables COMMA static_variable
    Rule {
        left: STATIC_VARIABLES_,
        back: [
            STATIC_VARIABLE_,
            COMMA,
            STATIC_VARIABLES_,
            0,
            0,
            0,
            0,
            0,
            0,
            0,
        ],
        before: 65535,
        behind: 65535,
    },
    // static_variable: VARIABLE initial
    Rule {
        left: STATIC_VARIABLE_,
        back: [INITIAL_, VARIABLE, 0, 0, 0, 0, 0, 0, 0, 0],
        before: 65535,
        behind: 65535,
    },
    // variables: variable
    Rule {
        left: VARIABLES_,
        back: [VARIABLE_, 0, 0, 0, 0, 0, 0, 0, 0, 0],
        before: 65535,
        behind: 65535,
    },
    // variables: variables COMMA variable
    Rule {
        left: VARIABLES_,
        back: [VARIABLE_, COMMA, VARIABLES_, 0, 0, 0, 0, 0, 0, 0],
        before: 65535,
        behind: 65535,
    },
    // catches:
    Rule {
        left: CATCHES_,
        back: [0, 0, 0, 0, 0, 0, 0, 0, 0, 0],
        before: 65535,
        behind: 65535,
    },
    // catches: catches CATCH OPEN caught catch_variable CLOSE BEGIN statements FINISH
    Rule {
        left: CATCHES_,
        back: [
            FINISH,
            STATEMENTS_,
            BEGIN,
            CLOSE,
            CATCH_VARIABLE_,
            CAUGHT_,
            OPEN,
            CATCH,
            CATCHES_,
            0,
        ],
        before: 65535,
        behind: 65535,
    },
    // caught: name
    Rule {
        left: CAUGHT_,
        back: [NAME_, 0, 0, 0, 0, 0, 0, 0, 0, 0],
        before: 65535,
        behind: 65535,
    },
    // caught: caught BAR name
    Rule {
        left: CAUGHT_,
        back: [NAME_, BAR, CAUGHT_, 0, 0, 0, 0, 0, 0, 0],
        before: 65535,
        behind: 65535,
    },
    // catch_variable:
    Rule {
        left: CATCH_VARIABLE_,
        back: [0, 0, 0, 0, 0, 0, 0, 0, 0, 0],
        before: 65535,
        behind: 65535,
    },
    // catch_variable: VARIABLE
    Rule {
        left: CATCH_VARIABLE_,
        back: [VARIABLE, 0, 0, 0, 0, 0, 0, 0, 0, 0],
        before: 65535,
        behind: 65535,
    },
    // finally:
    Rule {
        left: FINALLY_,
        back: [0, 0, 0, 0, 0, 0, 0, 0, 0, 0],
        before: 65535,
        behind: 65535,
    },
    // finally: FINALLY BEGIN statements FINISH
    Rule {
        left: FINALLY_,
        back: [FINISH, STATEMENTS_, BEGIN, FINALLY, 0, 0, 0, 0, 0, 0],
        before: 65535,
        behind: 65535,
    },
    // initial:
    Rule {
        left: INITIAL_,
        back: [0, 0, 0, 0, 0, 0, 0, 0, 0, 0],
        before: 65535,
        behind: 65535,
    },
    // initial: given expression
    Rule {
        left: INITIAL_,
        back: [EXPRESSION_, GIVEN_, 0, 0, 0, 0, 0, 0, 0, 0],
        before: 65535,
        behind: 65535,
    },
    // given: ASSIGN
    Rule {
        left: GIVEN_,
        back: [ASSIGN, 0, 0, 0, 0, 0, 0, 0, 0, 0],
        before: 65535,
        behind: 65535,
    },
    // named: word COLON
    Rule {
        left: NAMED_,
        back: [COLON, WORD_, 0, 0, 0, 0, 0, 0, 0, 0],
        before: 65535,
        behind: 65535,
    },
    // declaration: declared
    Rule {
        left: DECLARATION_,
        back: [DECLARED_, 0, 0, 0, 0, 0, 0, 0, 0, 0],
        before: 65535,
        behind: 65535,
    },
    // declaration: attributes declared
    Rule {
        left: DECLARATION_,
        back: [DECLARED_, ATTRIBUTES_, 0, 0, 0, 0, 0, 0, 0, 0],
        before: 65535,
        behind: 65535,
    },
    // declared: FUNCTION possible_ampersand function_name OPEN parameters CLOSE return_type BEGIN statements FINISH
    Rule {
        left: DECLARED_,
        back: [
            FINISH,
            STATEMENTS_,
            BEGIN,
            RETURN_TYPE_,
            CLOSE,
            PARAMETERS_,
            OPEN,
            FUNCTION_NAME_,
            POSSIBLE_AMPERSAND_,
            FUNCTION,
        ],
        before: 65535,
        behind: 65535,
    },
    // declared: class_modifiers CLASS NAME extends implements BEGIN members FINISH
    Rule {
        left: DECLARED_,
        back: [
            FINISH,
            MEMBERS_,
            BEGIN,
            IMPLEMENTS_,
            EXTENDS_,
            NAME,
            CLASS,
            CLASS_MODIFIERS_,
            0,
            0,
        ],
        before: 65535,
        behind: 65535,
    },
    // declared: INTERFACE NAME interface_extends BEGIN members FINISH
    Rule {
        left: DECLARED_,
        back: [
            FINISH,
            MEMBERS_,
            BEGIN,
            INTERFACE_EXTENDS_,
            NAME,
            INTERFACE,
            0,
            0,
            0,
            0,
        ],
        before: 65535,
        behind: 65535,
    },
    // declared: TRAIT NAME BEGIN members FINISH
    Rule {
        left: DECLARED_,
        back: [FINISH, MEMBERS_, BEGIN, NAME, TRAIT, 0, 0, 0, 0, 0],
        before: 65535,
        behind: 65535,
    },
    // declared: ENUM NAME enum_type implements BEGIN members FINISH
    Rule {
        left: DECLARED_,
        back: [
            FINISH,
            MEMBERS_,
            BEGIN,
            IMPLEMENTS_,
            ENUM_TYPE_,
            NAME,
            ENUM,
            0,
            0,
            0,
        ],
        before: 65535,
        behind: 65535,
    },
    // function_name: NAME
    Rule {
        left: FUNCTION_NAME_,
        back: [NAME, 0, 0, 0, 0, 0, 0, 0, 0, 0],
        before: 65535,
        behind: 65535,
    },
    // function_name: READONLY
    Rule {
        left: FUNCTION_NAME_,
        back: [READONLY, 0, 0, 0, 0, 0, 0, 0, 0, 0],
        before: 65535,
        behind: 65535,
    },
    // attributes: ATTRIBUTE attribute_list possible_comma TO
    Rule {
        left: ATTRIBUTES_,
        back: [
            TO,
            POSSIBLE_COMMA_,
            ATTRIBUTE_LIST_,
            ATTRIBUTE,
            0,
            0,
            0,
            0,
            0,
            0,
        ],
        before: 65535,
        behind: 65535,
    },
    // attributes: attributes ATTRIBUTE attribute_list possible_comma TO
    Rule {
        left: ATTRIBUTES_,
        back: [
            TO,
            POSSIBLE_COMMA_,
            ATTRIBUTE_LIST_,
            ATTRIBUTE,
            ATTRIBUTES_,
            0,
            0,
            0,
            0,
            0,
        ],
        before: 65535,
        behind: 65535,
    },
    // attribute_list: attribute
    Rule {
        left: ATTRIBUTE_LIST_,
        back: [ATTRIBUTE_, 0, 0, 0, 0, 0, 0, 0, 0, 0],
        before: 65535,
        behind: 65535,
    },
    // attribute_list: attribute_list COMMA attribute
    Rule {
        left: ATTRIBUTE_LIST_,
        back: [ATTRIBUTE_, COMMA, ATTRIBUTE_LIST_, 0, 0, 0, 0, 0, 0, 0],
        before: 65535,
        behind: 65535,
    },
    // attribute: class_name
    Rule {
        left: ATTRIBUTE_,
        back: [CLASS_NAME_, 0, 0, 0, 0, 0, 0, 0, 0, 0],
        before: 65535,
        behind: 65535,
    },
    // attribute: class_name arguments
    Rule {
        left: ATTRIBUTE_,
        back: [ARGUMENTS_, CLASS_NAME_, 0, 0, 0, 0, 0, 0, 0, 0],
        before: 65535,
        behind: 65535,
    },
    // possible_ampersand:
    Rule {
        left: POSSIBLE_AMPERSAND_,
        back: [0, 0, 0, 0, 0, 0, 0, 0, 0, 0],
        before: 65535,
        behind: 65535,
    },
    // possible_ampersand: ampersand
    Rule {
        left: POSSIBLE_AMPERSAND_,
        back: [AMPERSAND_, 0, 0, 0, 0, 0, 0, 0, 0, 0],
        before: 65535,
        behind: 65535,
    },
    // ampersand: AMPERSAND
    Rule {
        left: AMPERSAND_,
        back: [AMPERSAND, 0, 0, 0, 0, 0, 0, 0, 0, 0],
        before: 65535,
        behind: 65535,
    },
    // ampersand: REFERENCE
    Rule {
        left: AMPERSAND_,
        back: [REFERENCE, 0, 0, 0, 0, 0, 0, 0, 0, 0],
        before: 65535,
        behind: 65535,
    },
    // parameters:
    Rule {
        left: PARAMETERS_,
        back: [0, 0, 0, 0, 0, 0, 0, 0, 0, 0],
        before: 65535,
        behind: 65535,
    },
    // parameters: some_parameters possible_comma
    Rule {
        left: PARAMETERS_,
        back: [POSSIBLE_COMMA_, SOME_PARAMETERS_, 0, 0, 0, 0, 0, 0, 0, 0],
        before: 65535,
        behind: 65535,
    },
    // some_parameters: parameter
    Rule {
        left: SOME_PARAMETERS_,
        back: [PARAMETER_, 0, 0, 0, 0, 0, 0, 0, 0, 0],
        before: 65535,
        behind: 65535,
    },
    // some_parameters: some_parameters COMMA parameter
    Rule {
        left: SOME_PARAMETERS_,
        back: [PARAMETER_, COMMA, SOME_PARAMETERS_, 0, 0, 0, 0, 0, 0, 0],
        before: 65535,
        behind: 65535,
    },
    // parameter: plain_parameter
    Rule {
        left: PARAMETER_,
        back: [PLAIN_PARAMETER_, 0, 0, 0, 0, 0, 0, 0, 0, 0],
        before: 65535,
        behind: 65535,
    },
    // parameter: attributes plain_parameter
    Rule {
        left: PARAMETER_,
        back: [PLAIN_PARAMETER_, ATTRIBUTES_, 0, 0, 0, 0, 0, 0, 0, 0],
        before: 65535,
        behind: 65535,
    },
    // plain_parameter: promotions possible_type passing VARIABLE initial
    Rule {
        left: PLAIN_PARAMETER_,
        back: [
            INITIAL_,
            VARIABLE,
            PASSING_,
            POSSIBLE_TYPE_,
            PROMOTIONS_,
            0,
            0,
            0,
            0,
            0,
        ],
        before: 65535,
        behind: 65535,
    },
    // promotions:
    Rule {
        left: PROMOTIONS_,
        back: [0, 0, 0, 0, 0, 0, 0, 0, 0, 0],
        before: 65535,
        behind: 65535,
    },
    // promotions: promotions VISIBILITY
    Rule {
        left: PROMOTIONS_,
        back: [VISIBILITY, PROMOTIONS_, 0, 0, 0, 0, 0, 0, 0, 0],
        before: 65535,
        behind: 65535,
    },
    // promotions: promotions READONLY
    Rule {
        left: PROMOTIONS_,
        back: [READONLY, PROMOTIONS_, 0, 0, 0, 0, 0, 0, 0, 0],
        before: 65535,
        behind: 65535,
    },
    // passing:
    Rule {
        left: PASSING_,
        back: [0, 0, 0, 0, 0, 0, 0, 0, 0, 0],
        before: 65535,
        behind: 65535,
    },
    // passing: REFERENCE
    Rule {
        left: PASSING_,
        back: [REFERENCE, 0, 0, 0, 0, 0, 0, 0, 0, 0],
        before: 65535,
        behind: 65535,
    },
    // passing: ELLIPSIS
    Rule {
        left: PASSING_,
        back: [ELLIPSIS, 0, 0, 0, 0, 0, 0, 0, 0, 0],
        before: 65535,
        behind: 65535,
    },
    // passing: REFERENCE ELLIPSIS
    Rule {
        left: PASSING_,
        back: [ELLIPSIS, REFERENCE, 0, 0, 0, 0, 0, 0, 0, 0],
        before: 65535,
        behind: 65535,
    },
    // possible_type:
    Rule {
        left: POSSIBLE_TYPE_,
        back: [0, 0, 0, 0, 0, 0, 0, 0, 0, 0],
        before: 65535,
        behind: 65535,
    },
    // possible_type: type
    Rule {
        left: POSSIBLE_TYPE_,
        back: [TYPE_, 0, 0, 0, 0, 0, 0, 0, 0, 0],
        before: 65535,
        behind: 65535,
    },
    // type: single_type
    Rule {
        left: TYPE_,
        back: [SINGLE_TYPE_, 0, 0, 0, 0, 0, 0, 0, 0, 0],
        before: 65535,
        behind: 65535,
    },
    // type: QUESTION single_type
    Rule {
        left: TYPE_,
        back: [SINGLE_TYPE_, QUESTION, 0, 0, 0, 0, 0, 0, 0, 0],
        before: 65535,
        behind: 65535,
    },
    // type: union
    Rule {
        left: TYPE_,
        back: [UNION_, 0, 0, 0, 0, 0, 0, 0, 0, 0],
        before: 65535,
        behind: 65535,
    },
    // type: intersection
    Rule {
        left: TYPE_,
        back: [INTERSECTION_, 0, 0, 0, 0, 0, 0, 0, 0, 0],
        before: 65535,
        behind: 65535,
    },
    // single_type: name
    Rule {
        left: SINGLE_TYPE_,
        back: [NAME_, 0, 0, 0, 0, 0, 0, 0, 0, 0],
        before: 65535,
        behind: 65535,
    },
    // single_type: ARRAY
    Rule {
        left: SINGLE_TYPE_,
        back: [ARRAY, 0, 0, 0, 0, 0, 0, 0, 0, 0],
        before: 65535,
        behind: 65535,
    },
    // single_type: CALLABLE
    Rule {
        left: SINGLE_TYPE_,
        back: [CALLABLE, 0, 0, 0, 0, 0, 0, 0, 0, 0],
        before: 65535,
        behind: 65535,
    },
    // union: single_type BAR union_part
    Rule {
        left: UNION_,
        back: [UNION_PART_, BAR, SINGLE_TYPE_, 0, 0, 0, 0, 0, 0, 0],
        before: 65535,
        behind: 65535,
    },
    // union: OPEN intersection CLOSE BAR union_part
    Rule {
        left: UNION_,
        back: [UNION_PART_, BAR, CLOSE, INTERSECTION_, OPEN, 0, 0, 0, 0, 0],
        before: 65535,
        behind: 65535,
    },
    // union: union BAR union_part
    Rule {
        left: UNION_,
        back: [UNION_PART_, BAR, UNION_, 0, 0, 0, 0, 0, 0, 0],
        before: 65535,
        behind: 65535,
    },
    // union_part: single_type
    Rule {
        left: UNION_PART_,
        back: [SINGLE_TYPE_, 0, 0, 0, 0, 0, 0, 0, 0, 0],
        before: 65535,
        behind: 65535,
    },
    // union_part: OPEN intersection CLOSE
    Rule {
        left: UNION_PART_,
        back: [CLOSE, INTERSECTION_, OPEN, 0, 0, 0, 0, 0, 0, 0],
        before: 65535,
        behind: 65535,
    },
    // intersection: NAME AMPERSAND name
    Rule {
        left: INTERSECTION_,
        back: [NAME_, AMPERSAND, NAME, 0, 0, 0, 0, 0, 0, 0],
        before: 65535,
        behind: 65535,
    },
    // intersection: QUALIFIED AMPERSAND name
    Rule {
        left: INTERSECTION_,
        back: [NAME_, AMPERSAND, QUALIFIED, 0, 0, 0, 0, 0, 0, 0],
        before: 65535,
        behind: 65535,
    },
    // intersection: ROOTED AMPERSAND name
    Rule {
        left: INTERSECTION_,
        back: [NAME_, AMPERSAND, ROOTED, 0, 0, 0, 0, 0, 0, 0],
        before: 65535,
        behind: 65535,
    },
    // intersection: RELATIVE AMPERSAND name
    Rule {
        left: INTERSECTION_,
        back: [NAME_, AMPERSAND, RELATIVE, 0, 0, 0, 0, 0, 0, 0],
        before: 65535,
        behind: 65535,
    },
    // intersection: intersection AMPERSAND name
    Rule {
        left: INTERSECTION_,
        back: [NAME_, AMPERSAND, INTERSECTION_, 0, 0, 0, 0, 0, 0, 0],
        before: 65535,
        behind: 65535,
    },
    // return_type:
    Rule {
        left: RETURN_TYPE_,
        back: [0, 0, 0, 0, 0, 0, 0, 0, 0, 0],
        before: 65535,
        behind: 65535,
    },
    // return_type: COLON type
    Rule {
        left: RETURN_TYPE_,
        back: [TYPE_, COLON, 0, 0, 0, 0, 0, 0, 0, 0],
        before: 65535,
        behind: 65535,
    },
    // return_type: COLON STATIC
    Rule {
        left: RETURN_TYPE_,
        back: [STATIC, COLON, 0, 0, 0, 0, 0, 0, 0, 0],
        before: 65535,
        behind: 65535,
    },
    // return_type: COLON QUESTION STATIC
    Rule {
        left: RETURN_TYPE_,
        back: [STATIC, QUESTION, COLON, 0, 0, 0, 0, 0, 0, 0],
        before: 65535,
        behind: 65535,
    },
    // return_type: COLON static_union
    Rule {
        left: RETURN_TYPE_,
        back: [STATIC_UNION_, COLON, 0, 0, 0, 0, 0, 0, 0, 0],
        before: 65535,
        behind: 65535,
    },
    // static_union: STATIC BAR union_part
    Rule {
        left: STATIC_UNION_,
        back: [UNION_PART_, BAR, STATIC, 0, 0, 0, 0, 0, 0, 0],
        before: 65535,
        behind: 65535,
    },
    // static_union: single_type BAR STATIC
    Rule {
        left: STATIC_UNION_,
        back: [STATIC, BAR, SINGLE_TYPE_, 0, 0, 0, 0, 0, 0, 0],
        before: 65535,
        behind: 65535,
    },
    // static_union: OPEN intersection CLOSE BAR STATIC
    Rule {
        left: STATIC_UNION_,
        back: [STATIC, BAR, CLOSE, INTERSECTION_, OPEN, 0, 0, 0, 0, 0],
        before: 65535,
        behind: 65535,
    },
    // static_union: union BAR STATIC
    Rule {
        left: STATIC_UNION_,
        back: [STATIC, BAR, UNION_, 0, 0, 0, 0, 0, 0, 0],
        before: 65535,
        behind: 65535,
    },
    // static_union: static_union BAR union_part
    Rule {
        left: STATIC_UNION_,
        back: [UNION_PART_, BAR, STATIC_UNION_, 0, 0, 0, 0, 0, 0, 0],
        before: 65535,
        behind: 65535,
    },
    // class_modifiers:
    Rule {
        left: CLASS_MODIFIERS_,
        back: [0, 0, 0, 0, 0, 0, 0, 0, 0, 0],
        before: 65535,
        behind: 65535,
    },
    // class_modifiers: class_modifiers ABSTRACT
    Rule {
        left: CLASS_MODIFIERS_,
        back: [ABSTRACT, CLASS_MODIFIERS_, 0, 0, 0, 0, 0, 0, 0, 0],
        before: 65535,
        behind: 65535,
    },
    // class_modifiers: class_modifiers READONLY
    Rule {
        left: CLASS_MODIFIERS_,
        back: [READONLY, CLASS_MODIFIERS_, 0, 0, 0, 0, 0, 0, 0, 0],
        before: 65535,
        behind: 65535,
    },
    // extends:
    Rule {
        left: EXTENDS_,
        back: [0, 0, 0, 0, 0, 0, 0, 0, 0, 0],
        before: 65535,
        behind: 65535,
    },
    // extends: EXTENDS class_name
    Rule {
        left: EXTENDS_,
        back: [CLASS_NAME_, EXTENDS, 0, 0, 0, 0, 0, 0, 0, 0],
        before: 65535,
        behind: 65535,
    },
    // implements:
    Rule {
        left: IMPLEMENTS_,
        back: [0, 0, 0, 0, 0, 0, 0, 0, 0, 0],
        before: 65535,
        behind: 65535,
    },
    // implements: IMPLEMENTS class_names
    Rule {
        left: IMPLEMENTS_,
        back: [CLASS_NAMES_, IMPLEMENTS, 0, 0, 0, 0, 0, 0, 0, 0],
        before: 65535,
        behind: 65535,
    },
    // interface_extends:
    Rule {
        left: INTERFACE_EXTENDS_,
        back: [0, 0, 0, 0, 0, 0, 0, 0, 0, 0],
        before: 65535,
        behind: 65535,
    },
    // interface_extends: EXTENDS class_names
    Rule {
        left: INTERFACE_EXTENDS_,
        back: [CLASS_NAMES_, EXTENDS, 0, 0, 0, 0, 0, 0, 0, 0],
        before: 65535,
        behind: 65535,
    },
    // enum_type:
    Rule {
        left: ENUM_TYPE_,
        back: [0, 0, 0, 0, 0, 0, 0, 0, 0, 0],
        before: 65535,
        behind: 65535,
    },
    // enum_type: COLON type
    Rule {
        left: ENUM_TYPE_,
        back: [TYPE_, COLON, 0, 0, 0, 0, 0, 0, 0, 0],
        before: 65535,
        behind: 65535,
    },
    // class_names: class_name
    Rule {
        left: CLASS_NAMES_,
        back: [CLASS_NAME_, 0, 0, 0, 0, 0, 0, 0, 0, 0],
        before: 65535,
        behind: 65535,
    },
    // class_names: class_names COMMA class_name
    Rule {
        left: CLASS_NAMES_,
        back: [CLASS_NAME_, COMMA, CLASS_NAMES_, 0, 0, 0, 0, 0, 0, 0],
        before: 65535,
        behind: 65535,
    },
    // members:
    Rule {
        left: MEMBERS_,
        back: [0, 0, 0, 0, 0, 0, 0, 0, 0, 0],
        before: 65535,
        behind: 65535,
    },
    // members: members member
    Rule {
        left: MEMBERS_,
        back: [MEMBER_, MEMBERS_, 0, 0, 0, 0, 0, 0, 0, 0],
        before: 65535,
        behind: 65535,
    },
    // members: members attributes member
    Rule {
        left: MEMBERS_,
        back: [MEMBER_, ATTRIBUTES_, MEMBERS_, 0, 0, 0, 0, 0, 0, 0],
        before: 65535,
        behind: 65535,
    },
    // members: members USE class_names adaptations
    Rule {
        left: MEMBERS_,
        back: [ADAPTATIONS_, CLASS_NAMES_, USE, MEMBERS_, 0, 0, 0, 0, 0, 0],
        before: 65535,
        behind: 65535,
    },
    // member: some_modifiers possible_type properties SEMI
    Rule {
        left: MEMBER_,
        back: [
            SEMI,
            PROPERTIES_,
            POSSIBLE_TYPE_,
            SOME_MODIFIERS_,
            0,
            0,
            0,
            0,
            0,
            0,
        ],
        before: 65535,
        behind: 65535,
    },
    // member: VAR possible_type properties SEMI
    Rule {
        left: MEMBER_,
        back: [SEMI, PROPERTIES_, POSSIBLE_TYPE_, VAR, 0, 0, 0, 0, 0, 0],
        before: 65535,
        behind: 65535,
    },
    // member: modifiers CONST class_constants SEMI
    Rule {
        left: MEMBER_,
        back: [SEMI, CLASS_CONSTANTS_, CONST, MODIFIERS_, 0, 0, 0, 0, 0, 0],
        before: 65535,
        behind: 65535,
    },
    // member: modifiers FUNCTION possible_ampersand word OPEN parameters CLOSE return_type body
    Rule {
        left: MEMBER_,
        back: [
            BODY_,
            RETURN_TYPE_,
            CLOSE,
            PARAMETERS_,
            OPEN,
            WORD_,
            POSSIBLE_AMPERSAND_,
            FUNCTION,
            MODIFIERS_,
            0,
        ],
        before: 65535,
        behind: 65535,
    },
    // member: CASE word initial SEMI
    Rule {
        left: MEMBER_,
        back: [SEMI, INITIAL_, WORD_, CASE, 0, 0, 0, 0, 0, 0],
        before: 65535,
        behind: 65535,
    },
    // modifiers:
    Rule {
        left: MODIFIERS_,
        back: [0, 0, 0, 0, 0, 0, 0, 0, 0, 0],
        before: 65535,
        behind: 65535,
    },
    // modifiers: some_modifiers
    Rule {
        left: MODIFIERS_,
        back: [SOME_MODIFIERS_, 0, 0, 0, 0, 0, 0, 0, 0, 0],
        before: 65535,
        behind: 65535,
    },
    // some_modifiers: modifier
    Rule {
        left: SOME_MODIFIERS_,
        back: [MODIFIER_, 0, 0, 0, 0, 0, 0, 0, 0, 0],
        before: 65535,
        behind: 65535,
    },
    // some_modifiers: some_modifiers modifier
    Rule {
        left: SOME_MODIFIERS_,
        back: [MODIFIER_, SOME_MODIFIERS_, 0, 0, 0, 0, 0, 0, 0, 0],
        before: 65535,
        behind: 65535,
    },
    // modifier: VISIBILITY
    Rule {
        left: MODIFIER_,
        back: [VISIBILITY, 0, 0, 0, 0, 0, 0, 0, 0, 0],
        before: 65535,
        behind: 65535,
    },
    // modifier: ABSTRACT
    Rule {
        left: MODIFIER_,
        back: [ABSTRACT, 0, 0, 0, 0, 0, 0, 0, 0, 0],
        before: 65535,
        behind: 65535,
    },
    // modifier: READONLY
    Rule {
        left: MODIFIER_,
        back: [READONLY, 0, 0, 0, 0, 0, 0, 0, 0, 0],
        before: 65535,
        behind: 65535,
    },
    // modifier: STATIC
    Rule {
        left: MODIFIER_,
        back: [STATIC, 0, 0, 0, 0, 0, 0, 0, 0, 0],
        before: 65535,
        behind: 65535,
    },
    // properties: static_variable
    Rule {
        left: PROPERTIES_,
        back: [STATIC_VARIABLE_, 0, 0, 0, 0, 0, 0, 0, 0, 0],
        before: 65535,
        behind: 65535,
    },
    // properties: properties COMMA static_variable
    Rule {
        left: PROPERTIES_,
        back: [STATIC_VARIABLE_, COMMA, PROPERTIES_, 0, 0, 0, 0, 0, 0, 0],
        before: 65535,
        behind: 65535,
    },
    // class_constants: class_constant_item
    Rule {
        left: CLASS_CONSTANTS_,
        back: [CLASS_CONSTANT_ITEM_, 0, 0, 0, 0, 0, 0, 0, 0, 0],
        before: 65535,
        behind: 65535,
    },
    // class_constants: class_constants COMMA class_constant_item
    Rule {
        left: CLASS_CONSTANTS_,
        back: [
            CLASS_CONSTANT_ITEM_,
            COMMA,
            CLASS_CONSTANTS_,
            0,
            0,
            0,
            0,
            0,
            0,
            0,
        ],
        before: 65535,
        behind: 65535,
    },
    // class_constant_item: word given expression
    Rule {
        left: CLASS_CONSTANT_ITEM_,
        back: [EXPRESSION_, GIVEN_, WORD_, 0, 0, 0, 0, 0, 0, 0],
        before: 65535,
        behind: 65535,
    },
    // body: SEMI
    Rule {
        left: BODY_,
        back: [SEMI, 0, 0, 0, 0, 0, 0, 0, 0, 0],
        before: 65535,
        behind: 65535,
    },
    // body: BEGIN statements FINISH
    Rule {
        left: BODY_,
        back: [FINISH, STATEMENTS_, BEGIN, 0, 0, 0, 0, 0, 0, 0],
        before: 65535,
        behind: 65535,
    },
    // adaptations: SEMI
    Rule {
        left: ADAPTATIONS_,
        back: [SEMI, 0, 0, 0, 0, 0, 0, 0, 0, 0],
        before: 65535,
        behind: 65535,
    },
    // adaptations: BEGIN some_adaptations FINISH
    Rule {
        left: ADAPTATIONS_,
        back: [FINISH, SOME_ADAPTATIONS_, BEGIN, 0, 0, 0, 0, 0, 0, 0],
        before: 65535,
        behind: 65535,
    },
    // some_adaptations:
    Rule {
        left: SOME_ADAPTATIONS_,
        back: [0, 0, 0, 0, 0, 0, 0, 0, 0, 0],
        before: 65535,
        behind: 65535,
    },
    // some_adaptations: some_adaptations adaptation SEMI
    Rule {
        left: SOME_ADAPTATIONS_,
        back: [SEMI, ADAPTATION_, SOME_ADAPTATIONS_, 0, 0, 0, 0, 0, 0, 0],
        before: 65535,
        behind: 65535,
    },
    // adaptation: name SCOPE word INSTEADOF class_names
    Rule {
        left: ADAPTATION_,
        back: [CLASS_NAMES_, INSTEADOF, WORD_, SCOPE, NAME_, 0, 0, 0, 0, 0],
        before: 65535,
        behind: 65535,
    },
    // adaptation: adapted AS plain_word
    Rule {
        left: ADAPTATION_,
        back: [PLAIN_WORD_, AS, ADAPTED_, 0, 0, 0, 0, 0, 0, 0],
        before: 65535,
        behind: 65535,
    },
    // adaptation: adapted AS modifier
    Rule {
        left: ADAPTATION_,
        back: [MODIFIER_, AS, ADAPTED_, 0, 0, 0, 0, 0, 0, 0],
        before: 65535,
        behind: 65535,
    },
    // adaptation: adapted AS modifier word
    Rule {
        left: ADAPTATION_,
        back: [WORD_, MODIFIER_, AS, ADAPTED_, 0, 0, 0, 0, 0, 0],
        before: 65535,
        behind: 65535,
    },
    // adapted: word
    Rule {
        left: ADAPTED_,
        back: [WORD_, 0, 0, 0, 0, 0, 0, 0, 0, 0],
        before: 65535,
        behind: 65535,
    },
    // adapted: name SCOPE word
    Rule {
        left: ADAPTED_,
        back: [WORD_, SCOPE, NAME_, 0, 0, 0, 0, 0, 0, 0],
        before: 65535,
        behind: 65535,
    },
    // whole: expression
    Rule {
        left: WHOLE_,
        back: [EXPRESSION_, 0, 0, 0, 0, 0, 0, 0, 0, 0],
        before: 65535,
        behind: 65535,
    },
    // whole: keyed
    Rule {
        left: WHOLE_,
        back: [KEYED_, 0, 0, 0, 0, 0, 0, 0, 0, 0],
        before: 65535,
        behind: 65535,
    },
    // keyed: YIELD expression DOUBLE_ARROW expression
    Rule {
        left: KEYED_,
        back: [
            EXPRESSION_,
            DOUBLE_ARROW,
            EXPRESSION_,
            YIELD,
            0,
            0,
            0,
            0,
            0,
            0,
        ],
        before: 65535,
        behind: 65535,
    },
    // keyed: variable ASSIGN keyed
    Rule {
        left: KEYED_,
        back: [KEYED_, ASSIGN, VARIABLE_, 0, 0, 0, 0, 0, 0, 0],
        before: 65535,
        behind: 65535,
    },
    // keyed: variable UPDATE keyed
    Rule {
        left: KEYED_,
        back: [KEYED_, UPDATE, VARIABLE_, 0, 0, 0, 0, 0, 0, 0],
        before: 65535,
        behind: 65535,
    },
    // expressions: expression
    Rule {
        left: EXPRESSIONS_,
        back: [EXPRESSION_, 0, 0, 0, 0, 0, 0, 0, 0, 0],
        before: 65535,
        behind: 65535,
    },
    // expressions: expressions COMMA expression
    Rule {
        left: EXPRESSIONS_,
        back: [EXPRESSION_, COMMA, EXPRESSIONS_, 0, 0, 0, 0, 0, 0, 0],
        before: 65535,
        behind: 65535,
    },
    // any_expressions:
    Rule {
        left: ANY_EXPRESSIONS_,
        back: [0, 0, 0, 0, 0, 0, 0, 0, 0, 0],
        before: 65535,
        behind: 65535,
    },
    // any_expressions: expressions
    Rule {
        left: ANY_EXPRESSIONS_,
        back: [EXPRESSIONS_, 0, 0, 0, 0, 0, 0, 0, 0, 0],
        before: 65535,
        behind: 65535,
    },
    // expression: variable
    Rule {
        left: EXPRESSION_,
        back: [VARIABLE_, 0, 0, 0, 0, 0, 0, 0, 0, 0],
        before: 65535,
        behind: 65535,
    },
    // expression: bracketed
    Rule {
        left: EXPRESSION_,
        back: [BRACKETED_, 0, 0, 0, 0, 0, 0, 0, 0, 0],
        before: 65535,
        behind: 65535,
    },
    // expression: literal
    Rule {
        left: EXPRESSION_,
        back: [LITERAL_, 0, 0, 0, 0, 0, 0, 0, 0, 0],
        before: 65535,
        behind: 65535,
    },
    // expression: constant
    Rule {
        left: EXPRESSION_,
        back: [CONSTANT_, 0, 0, 0, 0, 0, 0, 0, 0, 0],
        before: 65535,
        behind: 65535,
    },
    // expression: class_constant
    Rule {
        left: EXPRESSION_,
        back: [CLASS_CONSTANT_, 0, 0, 0, 0, 0, 0, 0, 0, 0],
        before: 65535,
        behind: 65535,
    },
    // expression: NUMBER
    Rule {
        left: EXPRESSION_,
        back: [NUMBER, 0, 0, 0, 0, 0, 0, 0, 0, 0],
        before: 65535,
        behind: 65535,
    },
    // expression: HEREDOC pieces HEREDOC_END
    Rule {
        left: EXPRESSION_,
        back: [HEREDOC_END, PIECES_, HEREDOC, 0, 0, 0, 0, 0, 0, 0],
        before: 65535,
        behind: 65535,
    },
    // expression: HEREDOC HEREDOC_END
    Rule {
        left: EXPRESSION_,
        back: [HEREDOC_END, HEREDOC, 0, 0, 0, 0, 0, 0, 0, 0],
        before: 65535,
        behind: 65535,
    },
    // expression: BACKQUOTE pieces BACKQUOTE
    Rule {
        left: EXPRESSION_,
        back: [BACKQUOTE, PIECES_, BACKQUOTE, 0, 0, 0, 0, 0, 0, 0],
        before: 65535,
        behind: 65535,
    },
    // expression: BACKQUOTE BACKQUOTE
    Rule {
        left: EXPRESSION_,
        back: [BACKQUOTE, BACKQUOTE, 0, 0, 0, 0, 0, 0, 0, 0],
        before: 65535,
        behind: 65535,
    },
    // expression: variable ASSIGN expression
    Rule {
        left: EXPRESSION_,
        back: [EXPRESSION_, ASSIGN, VARIABLE_, 0, 0, 0, 0, 0, 0, 0],
        before: 21,
        behind: 65535,
    },
    // expression: variable ASSIGN ampersand variable
    Rule {
        left: EXPRESSION_,
        back: [VARIABLE_, AMPERSAND_, ASSIGN, VARIABLE_, 0, 0, 0, 0, 0, 0],
        before: 65535,
        behind: 65535,
    },
    // expression: LIST OPEN elements CLOSE ASSIGN expression
    Rule {
        left: EXPRESSION_,
        back: [
            EXPRESSION_,
            ASSIGN,
            CLOSE,
            ELEMENTS_,
            OPEN,
            LIST,
            0,
            0,
            0,
            0,
        ],
        before: 21,
        behind: 65535,
    },
    // expression: FROM elements TO ASSIGN expression
    Rule {
        left: EXPRESSION_,
        back: [EXPRESSION_, ASSIGN, TO, ELEMENTS_, FROM, 0, 0, 0, 0, 0],
        before: 21,
        behind: 65535,
    },
    // expression: variable UPDATE expression
    Rule {
        left: EXPRESSION_,
        back: [EXPRESSION_, UPDATE, VARIABLE_, 0, 0, 0, 0, 0, 0, 0],
        before: 21,
        behind: 65535,
    },
    // expression: variable STEP
    Rule {
        left: EXPRESSION_,
        back: [STEP, VARIABLE_, 0, 0, 0, 0, 0, 0, 0, 0],
        before: 65535,
        behind: 65535,
    },
    // expression: STEP variable
    Rule {
        left: EXPRESSION_,
        back: [VARIABLE_, STEP, 0, 0, 0, 0, 0, 0, 0, 0],
        before: 65535,
        behind: 65535,
    },
    // expression: expression OR expression
    Rule {
        left: EXPRESSION_,
        back: [EXPRESSION_, OR, EXPRESSION_, 0, 0, 0, 0, 0, 0, 0],
        before: 10,
        behind: 9,
    },
    // expression: expression XOR expression
    Rule {
        left: EXPRESSION_,
        back: [EXPRESSION_, XOR, EXPRESSION_, 0, 0, 0, 0, 0, 0, 0],
        before: 12,
        behind: 11,
    },
    // expression: expression AND expression
    Rule {
        left: EXPRESSION_,
        back: [EXPRESSION_, AND, EXPRESSION_, 0, 0, 0, 0, 0, 0, 0],
        before: 14,
        behind: 13,
    },
    // expression: expression BOOL_OR expression
    Rule {
        left: EXPRESSION_,
        back: [EXPRESSION_, BOOL_OR, EXPRESSION_, 0, 0, 0, 0, 0, 0, 0],
        before: 28,
        behind: 27,
    },
    // expression: expression BOOL_AND expression
    Rule {
        left: EXPRESSION_,
        back: [EXPRESSION_, BOOL_AND, EXPRESSION_, 0, 0, 0, 0, 0, 0, 0],
        before: 30,
        behind: 29,
    },
    // expression: expression BAR expression
    Rule {
        left: EXPRESSION_,
        back: [EXPRESSION_, BAR, EXPRESSION_, 0, 0, 0, 0, 0, 0, 0],
        before: 32,
        behind: 31,
    },
    // expression: expression CARET expression
    Rule {
        left: EXPRESSION_,
        back: [EXPRESSION_, CARET, EXPRESSION_, 0, 0, 0, 0, 0, 0, 0],
        before: 34,
        behind: 33,
    },
    // expression: expression AMPERSAND expression
    Rule {
        left: EXPRESSION_,
        back: [EXPRESSION_, AMPERSAND, EXPRESSION_, 0, 0, 0, 0, 0, 0, 0],
        before: 36,
        behind: 35,
    },
    // expression: expression REFERENCE expression
    Rule {
        left: EXPRESSION_,
        back: [EXPRESSION_, REFERENCE, EXPRESSION_, 0, 0, 0, 0, 0, 0, 0],
        before: 36,
        behind: 35,
    },
    // expression: expression EQUALITY expression
    Rule {
        left: EXPRESSION_,
        back: [EXPRESSION_, EQUALITY, EXPRESSION_, 0, 0, 0, 0, 0, 0, 0],
        before: 37,
        behind: 37,
    },
    // expression: expression COMPARISON expression
    Rule {
        left: EXPRESSION_,
        back: [EXPRESSION_, COMPARISON, EXPRESSION_, 0, 0, 0, 0, 0, 0, 0],
        before: 39,
        behind: 39,
    },
    // expression: expression DOT expression
    Rule {
        left: EXPRESSION_,
        back: [EXPRESSION_, DOT, EXPRESSION_, 0, 0, 0, 0, 0, 0, 0],
        before: 42,
        behind: 41,
    },
    // expression: expression SHIFT expression
    Rule {
        left: EXPRESSION_,
        back: [EXPRESSION_, SHIFT, EXPRESSION_, 0, 0, 0, 0, 0, 0, 0],
        before: 44,
        behind: 43,
    },
    // expression: expression SUM expression
    Rule {
        left: EXPRESSION_,
        back: [EXPRESSION_, SUM, EXPRESSION_, 0, 0, 0, 0, 0, 0, 0],
        before: 46,
        behind: 45,
    },
    // expression: expression PRODUCT expression
    Rule {
        left: EXPRESSION_,
        back: [EXPRESSION_, PRODUCT, EXPRESSION_, 0, 0, 0, 0, 0, 0, 0],
        before: 48,
        behind: 47,
    },
    // expression: expression POWER expression
    Rule {
        left: EXPRESSION_,
        back: [EXPRESSION_, POWER, EXPRESSION_, 0, 0, 0, 0, 0, 0, 0],
        before: 55,
        behind: 56,
    },
    // expression: expression COALESCE expression
    Rule {
        left: EXPRESSION_,
        back: [EXPRESSION_, COALESCE, EXPRESSION_, 0, 0, 0, 0, 0, 0, 0],
        before: 25,
        behind: 26,
    },
    // expression: expression QUESTION expression COLON expression
    Rule {
        left: EXPRESSION_,
        back: [
            EXPRESSION_,
            COLON,
            EXPRESSION_,
            QUESTION,
            EXPRESSION_,
            0,
            0,
            0,
            0,
            0,
        ],
        before: 24,
        behind: 23,
    },
    // expression: expression QUESTION COLON expression
    Rule {
        left: EXPRESSION_,
        back: [EXPRESSION_, COLON, QUESTION, EXPRESSION_, 0, 0, 0, 0, 0, 0],
        before: 24,
        behind: 23,
    },
    // expression: expression INSTANCEOF class_reference
    Rule {
        left: EXPRESSION_,
        back: [
            CLASS_REFERENCE_,
            INSTANCEOF,
            EXPRESSION_,
            0,
            0,
            0,
            0,
            0,
            0,
            0,
        ],
        before: 65535,
        behind: 51,
    },
    // expression: NOT expression
    Rule {
        left: EXPRESSION_,
        back: [EXPRESSION_, NOT, 0, 0, 0, 0, 0, 0, 0, 0],
        before: 50,
        behind: 65535,
    },
    // expression: sign expression
    Rule {
        left: EXPRESSION_,
        back: [EXPRESSION_, SIGN_, 0, 0, 0, 0, 0, 0, 0, 0],
        before: 54,
        behind: 65535,
    },
    // expression: CLONE expression
    Rule {
        left: EXPRESSION_,
        back: [EXPRESSION_, CLONE, 0, 0, 0, 0, 0, 0, 0, 0],
        before: 58,
        behind: 65535,
    },
    // expression: PRINT expression
    Rule {
        left: EXPRESSION_,
        back: [EXPRESSION_, PRINT, 0, 0, 0, 0, 0, 0, 0, 0],
        before: 16,
        behind: 65535,
    },
    // expression: INCLUDE expression
    Rule {
        left: EXPRESSION_,
        back: [EXPRESSION_, INCLUDE, 0, 0, 0, 0, 0, 0, 0, 0],
        before: 8,
        behind: 65535,
    },
    // expression: THROW expression
    Rule {
        left: EXPRESSION_,
        back: [EXPRESSION_, THROW, 0, 0, 0, 0, 0, 0, 0, 0],
        before: 4,
        behind: 65535,
    },
    // expression: YIELD
    Rule {
        left: EXPRESSION_,
        back: [YIELD, 0, 0, 0, 0, 0, 0, 0, 0, 0],
        before: 18,
        behind: 65535,
    },
    // expression: YIELD expression
    Rule {
        left: EXPRESSION_,
        back: [EXPRESSION_, YIELD, 0, 0, 0, 0, 0, 0, 0, 0],
        before: 18,
        behind: 65535,
    },
    // expression: YIELD_FROM expression
    Rule {
        left: EXPRESSION_,
        back: [EXPRESSION_, YIELD_FROM, 0, 0, 0, 0, 0, 0, 0, 0],
        before: 20,
        behind: 65535,
    },
    // expression: EXIT
    Rule {
        left: EXPRESSION_,
        back: [EXIT, 0, 0, 0, 0, 0, 0, 0, 0, 0],
        before: 65535,
        behind: 65535,
    },
    // expression: EXIT OPEN CLOSE
    Rule {
        left: EXPRESSION_,
        back: [CLOSE, OPEN, EXIT, 0, 0, 0, 0, 0, 0, 0],
        before: 65535,
        behind: 65535,
    },
    // expression: EXIT OPEN whole CLOSE
    Rule {
        left: EXPRESSION_,
        back: [CLOSE, WHOLE_, OPEN, EXIT, 0, 0, 0, 0, 0, 0],
        before: 65535,
        behind: 65535,
    },
    // expression: ISSET OPEN expressions possible_comma CLOSE
    Rule {
        left: EXPRESSION_,
        back: [
            CLOSE,
            POSSIBLE_COMMA_,
            EXPRESSIONS_,
            OPEN,
            ISSET,
            0,
            0,
            0,
            0,
            0,
        ],
        before: 65535,
        behind: 65535,
    },
    // expression: EMPTY OPEN expression CLOSE
    Rule {
        left: EXPRESSION_,
        back: [CLOSE, EXPRESSION_, OPEN, EMPTY, 0, 0, 0, 0, 0, 0],
        before: 65535,
        behind: 65535,
    },
    // expression: EVAL OPEN expression CLOSE
    Rule {
        left: EXPRESSION_,
        back: [CLOSE, EXPRESSION_, OPEN, EVAL, 0, 0, 0, 0, 0, 0],
        before: 65535,
        behind: 65535,
    },
    // expression: created
    Rule {
        left: EXPRESSION_,
        back: [CREATED_, 0, 0, 0, 0, 0, 0, 0, 0, 0],
        before: 65535,
        behind: 65535,
    },
    // expression: closure
    Rule {
        left: EXPRESSION_,
        back: [CLOSURE_, 0, 0, 0, 0, 0, 0, 0, 0, 0],
        before: 65535,
        behind: 65535,
    },
    // expression: STATIC closure
    Rule {
        left: EXPRESSION_,
        back: [CLOSURE_, STATIC, 0, 0, 0, 0, 0, 0, 0, 0],
        before: 65535,
        behind: 65535,
    },
    // expression: attributes closure
    Rule {
        left: EXPRESSION_,
        back: [CLOSURE_, ATTRIBUTES_, 0, 0, 0, 0, 0, 0, 0, 0],
        before: 65535,
        behind: 65535,
    },
    // expression: attributes STATIC closure
    Rule {
        left: EXPRESSION_,
        back: [CLOSURE_, STATIC, ATTRIBUTES_, 0, 0, 0, 0, 0, 0, 0],
        before: 65535,
        behind: 65535,
    },
    // expression: MATCH OPEN whole CLOSE BEGIN arms FINISH
    Rule {
        left: EXPRESSION_,
        back: [FINISH, ARMS_, BEGIN, CLOSE, WHOLE_, OPEN, MATCH, 0, 0, 0],
        before: 65535,
        behind: 65535,
    },
    // sign: SUM
    Rule {
        left: SIGN_,
        back: [SUM, 0, 0, 0, 0, 0, 0, 0, 0, 0],
        before: 65535,
        behind: 65535,
    },
    // sign: UNARY
    Rule {
        left: SIGN_,
        back: [UNARY, 0, 0, 0, 0, 0, 0, 0, 0, 0],
        before: 65535,
        behind: 65535,
    },
    // bracketed: OPEN whole CLOSE
    Rule {
        left: BRACKETED_,
        back: [CLOSE, WHOLE_, OPEN, 0, 0, 0, 0, 0, 0, 0],
        before: 65535,
        behind: 65535,
    },
    // closure: FUNCTION possible_ampersand OPEN parameters CLOSE uses return_type BEGIN statements FINISH
    Rule {
        left: CLOSURE_,
        back: [
            FINISH,
            STATEMENTS_,
            BEGIN,
            RETURN_TYPE_,
            USES_,
            CLOSE,
            PARAMETERS_,
            OPEN,
            POSSIBLE_AMPERSAND_,
            FUNCTION,
        ],
        before: 65535,
        behind: 65535,
    },
    // closure: FN possible_ampersand OPEN parameters CLOSE return_type DOUBLE_ARROW expression
    Rule {
        left: CLOSURE_,
        back: [
            EXPRESSION_,
            DOUBLE_ARROW,
            RETURN_TYPE_,
            CLOSE,
            PARAMETERS_,
            OPEN,
            POSSIBLE_AMPERSAND_,
            FN,
            0,
            0,
        ],
        before: 6,
        behind: 65535,
    },
    // uses:
    Rule {
        left: USES_,
        back: [0, 0, 0, 0, 0, 0, 0, 0, 0, 0],
        before: 65535,
        behind: 65535,
    },
    // uses: USE OPEN used_variables possible_comma CLOSE
    Rule {
        left: USES_,
        back: [
            CLOSE,
            POSSIBLE_COMMA_,
            USED_VARIABLES_,
            OPEN,
            USE,
            0,
            0,
            0,
            0,
            0,
        ],
        before: 65535,
        behind: 65535,
    },
    // used_variables: used_variable
    Rule {
        left: USED_VARIABLES_,
        back: [USED_VARIABLE_, 0, 0, 0, 0, 0, 0, 0, 0, 0],
        before: 65535,
        behind: 65535,
    },
    // used_variables: used_variables COMMA used_variable
    Rule {
        left: USED_VARIABLES_,
        back: [USED_VARIABLE_, COMMA, USED_VARIABLES_, 0, 0, 0, 0, 0, 0, 0],
        before: 65535,
        behind: 65535,
    },
    // used_variable: VARIABLE
    Rule {
        left: USED_VARIABLE_,
        back: [VARIABLE, 0, 0, 0, 0, 0, 0, 0, 0, 0],
        before: 65535,
        behind: 65535,
    },
    // used_variable: REFERENCE VARIABLE
    Rule {
        left: USED_VARIABLE_,
        back: [VARIABLE, REFERENCE, 0, 0, 0, 0, 0, 0, 0, 0],
        before: 65535,
        behind: 65535,
    },
    // arms:
    Rule {
        left: ARMS_,
        back: [0, 0, 0, 0, 0, 0, 0, 0, 0, 0],
        before: 65535,
        behind: 65535,
    },
    // arms: some_arms possible_comma
    Rule {
        left: ARMS_,
        back: [POSSIBLE_COMMA_, SOME_ARMS_, 0, 0, 0, 0, 0, 0, 0, 0],
        before: 65535,
        behind: 65535,
    },
    // some_arms: arm
    Rule {
        left: SOME_ARMS_,
        back: [ARM_, 0, 0, 0, 0, 0, 0, 0, 0, 0],
        before: 65535,
        behind: 65535,
    },
    // some_arms: some_arms COMMA arm
    Rule {
        left: SOME_ARMS_,
        back: [ARM_, COMMA, SOME_ARMS_, 0, 0, 0, 0, 0, 0, 0],
        before: 65535,
        behind: 65535,
    },
    // arm: expressions DOUBLE_ARROW expression
    Rule {
        left: ARM_,
        back: [EXPRESSION_, DOUBLE_ARROW, EXPRESSIONS_, 0, 0, 0, 0, 0, 0, 0],
        before: 65535,
        behind: 65535,
    },
    // arm: expressions COMMA DOUBLE_ARROW expression
    Rule {
        left: ARM_,
        back: [
            EXPRESSION_,
            DOUBLE_ARROW,
            COMMA,
            EXPRESSIONS_,
            0,
            0,
            0,
            0,
            0,
            0,
        ],
        before: 65535,
        behind: 65535,
    },
    // arm: DEFAULT DOUBLE_ARROW expression
    Rule {
        left: ARM_,
        back: [EXPRESSION_, DOUBLE_ARROW, DEFAULT, 0, 0, 0, 0, 0, 0, 0],
        before: 65535,
        behind: 65535,
    },
    // arm: DEFAULT COMMA DOUBLE_ARROW expression
    Rule {
        left: ARM_,
        back: [EXPRESSION_, DOUBLE_ARROW, COMMA, DEFAULT, 0, 0, 0, 0, 0, 0],
        before: 65535,
        behind: 65535,
    },
    // created: NEW class_reference possible_arguments
    Rule {
        left: CREATED_,
        back: [
            POSSIBLE_ARGUMENTS_,
            CLASS_REFERENCE_,
            NEW,
            0,
            0,
            0,
            0,
            0,
            0,
            0,
        ],
        before: 65535,
        behind: 65535,
    },
    // created: NEW CLASS possible_arguments extends implements BEGIN members FINISH
    Rule {
        left: CREATED_,
        back: [
            FINISH,
            MEMBERS_,
            BEGIN,
            IMPLEMENTS_,
            EXTENDS_,
            POSSIBLE_ARGUMENTS_,
            CLASS,
            NEW,
            0,
            0,
        ],
        before: 65535,
        behind: 65535,
    },
    // created: NEW attributes CLASS possible_arguments extends implements BEGIN members FINISH
    Rule {
        left: CREATED_,
        back: [
            FINISH,
            MEMBERS_,
            BEGIN,
            IMPLEMENTS_,
            EXTENDS_,
            POSSIBLE_ARGUMENTS_,
            CLASS,
            ATTRIBUTES_,
            NEW,
            0,
        ],
        before: 65535,
        behind: 65535,
    },
    // possible_arguments:
    Rule {
        left: POSSIBLE_ARGUMENTS_,
        back: [0, 0, 0, 0, 0, 0, 0, 0, 0, 0],
        before: 65535,
        behind: 65535,
    },
    // possible_arguments: arguments
    Rule {
        left: POSSIBLE_ARGUMENTS_,
        back: [ARGUMENTS_, 0, 0, 0, 0, 0, 0, 0, 0, 0],
        before: 65535,
        behind: 65535,
    },
    // class_reference: class_name
    Rule {
        left: CLASS_REFERENCE_,
        back: [CLASS_NAME_, 0, 0, 0, 0, 0, 0, 0, 0, 0],
        before: 65535,
        behind: 65535,
    },
    // class_reference: bracketed
    Rule {
        left: CLASS_REFERENCE_,
        back: [BRACKETED_, 0, 0, 0, 0, 0, 0, 0, 0, 0],
        before: 65535,
        behind: 65535,
    },
    // class_reference: new_variable
    Rule {
        left: CLASS_REFERENCE_,
        back: [NEW_VARIABLE_, 0, 0, 0, 0, 0, 0, 0, 0, 0],
        before: 65535,
        behind: 65535,
    },
    // new_variable: simple
    Rule {
        left: NEW_VARIABLE_,
        back: [SIMPLE_, 0, 0, 0, 0, 0, 0, 0, 0, 0],
        before: 65535,
        behind: 65535,
    },
    // new_variable: new_variable FROM whole TO
    Rule {
        left: NEW_VARIABLE_,
        back: [TO, WHOLE_, FROM, NEW_VARIABLE_, 0, 0, 0, 0, 0, 0],
        before: 65535,
        behind: 65535,
    },
    // new_variable: new_variable FROM TO
    Rule {
        left: NEW_VARIABLE_,
        back: [TO, FROM, NEW_VARIABLE_, 0, 0, 0, 0, 0, 0, 0],
        before: 65535,
        behind: 65535,
    },
    // new_variable: new_variable ARROW property
    Rule {
        left: NEW_VARIABLE_,
        back: [PROPERTY_, ARROW, NEW_VARIABLE_, 0, 0, 0, 0, 0, 0, 0],
        before: 65535,
        behind: 65535,
    },
    // new_variable: class_name SCOPE simple
    Rule {
        left: NEW_VARIABLE_,
        back: [SIMPLE_, SCOPE, CLASS_NAME_, 0, 0, 0, 0, 0, 0, 0],
        before: 65535,
        behind: 65535,
    },
    // new_variable: new_variable SCOPE simple
    Rule {
        left: NEW_VARIABLE_,
        back: [SIMPLE_, SCOPE, NEW_VARIABLE_, 0, 0, 0, 0, 0, 0, 0],
        before: 65535,
        behind: 65535,
    },
    // arguments: OPEN CLOSE
    Rule {
        left: ARGUMENTS_,
        back: [CLOSE, OPEN, 0, 0, 0, 0, 0, 0, 0, 0],
        before: 65535,
        behind: 65535,
    },
    // arguments: OPEN some_arguments possible_comma CLOSE
    Rule {
        left: ARGUMENTS_,
        back: [
            CLOSE,
            POSSIBLE_COMMA_,
            SOME_ARGUMENTS_,
            OPEN,
            0,
            0,
            0,
            0,
            0,
            0,
        ],
        before: 65535,
        behind: 65535,
    },
    // arguments: OPEN ELLIPSIS CLOSE
    Rule {
        left: ARGUMENTS_,
        back: [CLOSE, ELLIPSIS, OPEN, 0, 0, 0, 0, 0, 0, 0],
        before: 65535,
        behind: 65535,
    },
    // some_arguments: argument
    Rule {
        left: SOME_ARGUMENTS_,
        back: [ARGUMENT_, 0, 0, 0, 0, 0, 0, 0, 0, 0],
        before: 65535,
        behind: 65535,
    },
    // some_arguments: some_arguments COMMA argument
    Rule {
        left: SOME_ARGUMENTS_,
        back: [ARGUMENT_, COMMA, SOME_ARGUMENTS_, 0, 0, 0, 0, 0, 0, 0],
        before: 65535,
        behind: 65535,
    },
    // argument: whole
    Rule {
        left: ARGUMENT_,
        back: [WHOLE_, 0, 0, 0, 0, 0, 0, 0, 0, 0],
        before: 65535,
        behind: 65535,
    },
    // argument: named expression
    Rule {
        left: ARGUMENT_,
        back: [EXPRESSION_, NAMED_, 0, 0, 0, 0, 0, 0, 0, 0],
        before: 65535,
        behind: 65535,
    },
    // argument: ELLIPSIS expression
    Rule {
        left: ARGUMENT_,
        back: [EXPRESSION_, ELLIPSIS, 0, 0, 0, 0, 0, 0, 0, 0],
        before: 65535,
        behind: 65535,
    },
    // elements: element
    Rule {
        left: ELEMENTS_,
        back: [ELEMENT_, 0, 0, 0, 0, 0, 0, 0, 0, 0],
        before: 65535,
        behind: 65535,
    },
    // elements: elements COMMA element
    Rule {
        left: ELEMENTS_,
        back: [ELEMENT_, COMMA, ELEMENTS_, 0, 0, 0, 0, 0, 0, 0],
        before: 65535,
        behind: 65535,
    },
    // element:
    Rule {
        left: ELEMENT_,
        back: [0, 0, 0, 0, 0, 0, 0, 0, 0, 0],
        before: 65535,
        behind: 65535,
    },
    // element: expression
    Rule {
        left: ELEMENT_,
        back: [EXPRESSION_, 0, 0, 0, 0, 0, 0, 0, 0, 0],
        before: 65535,
        behind: 65535,
    },
    // element: expression DOUBLE_ARROW expression
    Rule {
        left: ELEMENT_,
        back: [EXPRESSION_, DOUBLE_ARROW, EXPRESSION_, 0, 0, 0, 0, 0, 0, 0],
        before: 65535,
        behind: 65535,
    },
    // element: ampersand variable
    Rule {
        left: ELEMENT_,
        back: [VARIABLE_, AMPERSAND_, 0, 0, 0, 0, 0, 0, 0, 0],
        before: 65535,
        behind: 65535,
    },
    // element: expression DOUBLE_ARROW ampersand variable
    Rule {
        left: ELEMENT_,
        back: [
            VARIABLE_,
            AMPERSAND_,
            DOUBLE_ARROW,
            EXPRESSION_,
            0,
            0,
            0,
            0,
            0,
            0,
        ],
        before: 65535,
        behind: 65535,
    },
    // element: LIST OPEN elements CLOSE
    Rule {
        left: ELEMENT_,
        back: [CLOSE, ELEMENTS_, OPEN, LIST, 0, 0, 0, 0, 0, 0],
        before: 65535,
        behind: 65535,
    },
    // element: expression DOUBLE_ARROW LIST OPEN elements CLOSE
    Rule {
        left: ELEMENT_,
        back: [
            CLOSE,
            ELEMENTS_,
            OPEN,
            LIST,
            DOUBLE_ARROW,
            EXPRESSION_,
            0,
            0,
            0,
            0,
        ],
        before: 65535,
        behind: 65535,
    },
    // element: ELLIPSIS expression
    Rule {
        left: ELEMENT_,
        back: [EXPRESSION_, ELLIPSIS, 0, 0, 0, 0, 0, 0, 0, 0],
        before: 65535,
        behind: 65535,
    },
    // callable_variable: VARIABLE
    Rule {
        left: CALLABLE_VARIABLE_,
        back: [VARIABLE, 0, 0, 0, 0, 0, 0, 0, 0, 0],
        before: 65535,
        behind: 65535,
    },
    // callable_variable: DOLLAR simple
    Rule {
        left: CALLABLE_VARIABLE_,
        back: [SIMPLE_, DOLLAR, 0, 0, 0, 0, 0, 0, 0, 0],
        before: 65535,
        behind: 65535,
    },
    // callable_variable: DOLLAR BEGIN whole FINISH
    Rule {
        left: CALLABLE_VARIABLE_,
        back: [FINISH, WHOLE_, BEGIN, DOLLAR, 0, 0, 0, 0, 0, 0],
        before: 65535,
        behind: 65535,
    },
    // callable_variable: container FROM whole TO
    Rule {
        left: CALLABLE_VARIABLE_,
        back: [TO, WHOLE_, FROM, CONTAINER_, 0, 0, 0, 0, 0, 0],
        before: 65535,
        behind: 65535,
    },
    // callable_variable: container FROM TO
    Rule {
        left: CALLABLE_VARIABLE_,
        back: [TO, FROM, CONTAINER_, 0, 0, 0, 0, 0, 0, 0],
        before: 65535,
        behind: 65535,
    },
    // callable_variable: container ARROW property arguments
    Rule {
        left: CALLABLE_VARIABLE_,
        back: [ARGUMENTS_, PROPERTY_, ARROW, CONTAINER_, 0, 0, 0, 0, 0, 0],
        before: 65535,
        behind: 65535,
    },
    // callable_variable: name arguments
    Rule {
        left: CALLABLE_VARIABLE_,
        back: [ARGUMENTS_, NAME_, 0, 0, 0, 0, 0, 0, 0, 0],
        before: 65535,
        behind: 65535,
    },
    // callable_variable: class_name SCOPE method arguments
    Rule {
        left: CALLABLE_VARIABLE_,
        back: [ARGUMENTS_, METHOD_, SCOPE, CLASS_NAME_, 0, 0, 0, 0, 0, 0],
        before: 65535,
        behind: 65535,
    },
    // callable_variable: object SCOPE method arguments
    Rule {
        left: CALLABLE_VARIABLE_,
        back: [ARGUMENTS_, METHOD_, SCOPE, OBJECT_, 0, 0, 0, 0, 0, 0],
        before: 65535,
        behind: 65535,
    },
    // callable_variable: callable_variable arguments
    Rule {
        left: CALLABLE_VARIABLE_,
        back: [ARGUMENTS_, CALLABLE_VARIABLE_, 0, 0, 0, 0, 0, 0, 0, 0],
        before: 65535,
        behind: 65535,
    },
    // callable_variable: bracketed arguments
    Rule {
        left: CALLABLE_VARIABLE_,
        back: [ARGUMENTS_, BRACKETED_, 0, 0, 0, 0, 0, 0, 0, 0],
        before: 65535,
        behind: 65535,
    },
    // callable_variable: literal arguments
    Rule {
        left: CALLABLE_VARIABLE_,
        back: [ARGUMENTS_, LITERAL_, 0, 0, 0, 0, 0, 0, 0, 0],
        before: 65535,
        behind: 65535,
    },
    // variable: callable_variable
    Rule {
        left: VARIABLE_,
        back: [CALLABLE_VARIABLE_, 0, 0, 0, 0, 0, 0, 0, 0, 0],
        before: 65535,
        behind: 65535,
    },
    // variable: container ARROW property
    Rule {
        left: VARIABLE_,
        back: [PROPERTY_, ARROW, CONTAINER_, 0, 0, 0, 0, 0, 0, 0],
        before: 65535,
        behind: 65535,
    },
    // variable: class_name SCOPE simple
    Rule {
        left: VARIABLE_,
        back: [SIMPLE_, SCOPE, CLASS_NAME_, 0, 0, 0, 0, 0, 0, 0],
        before: 65535,
        behind: 65535,
    },
    // variable: object SCOPE simple
    Rule {
        left: VARIABLE_,
        back: [SIMPLE_, SCOPE, OBJECT_, 0, 0, 0, 0, 0, 0, 0],
        before: 65535,
        behind: 65535,
    },
    // object: variable
    Rule {
        left: OBJECT_,
        back: [VARIABLE_, 0, 0, 0, 0, 0, 0, 0, 0, 0],
        before: 65535,
        behind: 65535,
    },
    // object: bracketed
    Rule {
        left: OBJECT_,
        back: [BRACKETED_, 0, 0, 0, 0, 0, 0, 0, 0, 0],
        before: 65535,
        behind: 65535,
    },
    // object: literal
    Rule {
        left: OBJECT_,
        back: [LITERAL_, 0, 0, 0, 0, 0, 0, 0, 0, 0],
        before: 65535,
        behind: 65535,
    },
    // object: class_constant
    Rule {
        left: OBJECT_,
        back: [CLASS_CONSTANT_, 0, 0, 0, 0, 0, 0, 0, 0, 0],
        before: 65535,
        behind: 65535,
    },
    // container: object
    Rule {
        left: CONTAINER_,
        back: [OBJECT_, 0, 0, 0, 0, 0, 0, 0, 0, 0],
        before: 65535,
        behind: 65535,
    },
    // container: constant
    Rule {
        left: CONTAINER_,
        back: [CONSTANT_, 0, 0, 0, 0, 0, 0, 0, 0, 0],
        before: 65535,
        behind: 65535,
    },
    // simple: VARIABLE
    Rule {
        left: SIMPLE_,
        back: [VARIABLE, 0, 0, 0, 0, 0, 0, 0, 0, 0],
        before: 65535,
        behind: 65535,
    },
    // simple: DOLLAR simple
    Rule {
        left: SIMPLE_,
        back: [SIMPLE_, DOLLAR, 0, 0, 0, 0, 0, 0, 0, 0],
        before: 65535,
        behind: 65535,
    },
    // simple: DOLLAR BEGIN whole FINISH
    Rule {
        left: SIMPLE_,
        back: [FINISH, WHOLE_, BEGIN, DOLLAR, 0, 0, 0, 0, 0, 0],
        before: 65535,
        behind: 65535,
    },
    // property: NAME
    Rule {
        left: PROPERTY_,
        back: [NAME, 0, 0, 0, 0, 0, 0, 0, 0, 0],
        before: 65535,
        behind: 65535,
    },
    // property: BEGIN whole FINISH
    Rule {
        left: PROPERTY_,
        back: [FINISH, WHOLE_, BEGIN, 0, 0, 0, 0, 0, 0, 0],
        before: 65535,
        behind: 65535,
    },
    // property: simple
    Rule {
        left: PROPERTY_,
        back: [SIMPLE_, 0, 0, 0, 0, 0, 0, 0, 0, 0],
        before: 65535,
        behind: 65535,
    },
    // method: word
    Rule {
        left: METHOD_,
        back: [WORD_, 0, 0, 0, 0, 0, 0, 0, 0, 0],
        before: 65535,
        behind: 65535,
    },
    // method: BEGIN whole FINISH
    Rule {
        left: METHOD_,
        back: [FINISH, WHOLE_, BEGIN, 0, 0, 0, 0, 0, 0, 0],
        before: 65535,
        behind: 65535,
    },
    // method: simple
    Rule {
        left: METHOD_,
        back: [SIMPLE_, 0, 0, 0, 0, 0, 0, 0, 0, 0],
        before: 65535,
        behind: 65535,
    },
    // constant: name
    Rule {
        left: CONSTANT_,
        back: [NAME_, 0, 0, 0, 0, 0, 0, 0, 0, 0],
        before: 65535,
        behind: 65535,
    },
    // constant: MAGIC
    Rule {
        left: CONSTANT_,
        back: [MAGIC, 0, 0, 0, 0, 0, 0, 0, 0, 0],
        before: 65535,
        behind: 65535,
    },
    // class_constant: class_name SCOPE word
    Rule {
        left: CLASS_CONSTANT_,
        back: [WORD_, SCOPE, CLASS_NAME_, 0, 0, 0, 0, 0, 0, 0],
        before: 65535,
        behind: 65535,
    },
    // class_constant: object SCOPE word
    Rule {
        left: CLASS_CONSTANT_,
        back: [WORD_, SCOPE, OBJECT_, 0, 0, 0, 0, 0, 0, 0],
        before: 65535,
        behind: 65535,
    },
    // class_name: name
    Rule {
        left: CLASS_NAME_,
        back: [NAME_, 0, 0, 0, 0, 0, 0, 0, 0, 0],
        before: 65535,
        behind: 65535,
    },
    // class_name: STATIC
    Rule {
        left: CLASS_NAME_,
        back: [STATIC, 0, 0, 0, 0, 0, 0, 0, 0, 0],
        before: 65535,
        behind: 65535,
    },
    // name: NAME
    Rule {
        left: NAME_,
        back: [NAME, 0, 0, 0, 0, 0, 0, 0, 0, 0],
        before: 65535,
        behind: 65535,
    },
    // name: QUALIFIED
    Rule {
        left: NAME_,
        back: [QUALIFIED, 0, 0, 0, 0, 0, 0, 0, 0, 0],
        before: 65535,
        behind: 65535,
    },
    // name: ROOTED
    Rule {
        left: NAME_,
        back: [ROOTED, 0, 0, 0, 0, 0, 0, 0, 0, 0],
        before: 65535,
        behind: 65535,
    },
    // name: RELATIVE
    Rule {
        left: NAME_,
        back: [RELATIVE, 0, 0, 0, 0, 0, 0, 0, 0, 0],
        before: 65535,
        behind: 65535,
    },
    // literal: TEXT
    Rule {
        left: LITERAL_,
        back: [TEXT, 0, 0, 0, 0, 0, 0, 0, 0, 0],
        before: 65535,
        behind: 65535,
    },
    // literal: TEMPLATE
    Rule {
        left: LITERAL_,
        back: [TEMPLATE, 0, 0, 0, 0, 0, 0, 0, 0, 0],
        before: 65535,
        behind: 65535,
    },
    // literal: QUOTE pieces QUOTE
    Rule {
        left: LITERAL_,
        back: [QUOTE, PIECES_, QUOTE, 0, 0, 0, 0, 0, 0, 0],
        before: 65535,
        behind: 65535,
    },
    // literal: ARRAY OPEN elements CLOSE
    Rule {
        left: LITERAL_,
        back: [CLOSE, ELEMENTS_, OPEN, ARRAY, 0, 0, 0, 0, 0, 0],
        before: 65535,
        behind: 65535,
    },
    // literal: FROM elements TO
    Rule {
        left: LITERAL_,
        back: [TO, ELEMENTS_, FROM, 0, 0, 0, 0, 0, 0, 0],
        before: 65535,
        behind: 65535,
    },
    // pieces: piece
    Rule {
        left: PIECES_,
        back: [PIECE_, 0, 0, 0, 0, 0, 0, 0, 0, 0],
        before: 65535,
        behind: 65535,
    },
    // pieces: pieces piece
    Rule {
        left: PIECES_,
        back: [PIECE_, PIECES_, 0, 0, 0, 0, 0, 0, 0, 0],
        before: 65535,
        behind: 65535,
    },
    // piece: PIECE
    Rule {
        left: PIECE_,
        back: [PIECE, 0, 0, 0, 0, 0, 0, 0, 0, 0],
        before: 65535,
        behind: 65535,
    },
    // piece: VARIABLE
    Rule {
        left: PIECE_,
        back: [VARIABLE, 0, 0, 0, 0, 0, 0, 0, 0, 0],
        before: 65535,
        behind: 65535,
    },
    // piece: VARIABLE FROM offset TO
    Rule {
        left: PIECE_,
        back: [TO, OFFSET_, FROM, VARIABLE, 0, 0, 0, 0, 0, 0],
        before: 65535,
        behind: 65535,
    },
    // piece: VARIABLE ARROW NAME
    Rule {
        left: PIECE_,
        back: [NAME, ARROW, VARIABLE, 0, 0, 0, 0, 0, 0, 0],
        before: 65535,
        behind: 65535,
    },
    // piece: DOLLAR_BEGIN whole FINISH
    Rule {
        left: PIECE_,
        back: [FINISH, WHOLE_, DOLLAR_BEGIN, 0, 0, 0, 0, 0, 0, 0],
        before: 65535,
        behind: 65535,
    },
    // piece: DOLLAR_BEGIN PIECE_NAME FINISH
    Rule {
        left: PIECE_,
        back: [FINISH, PIECE_NAME, DOLLAR_BEGIN, 0, 0, 0, 0, 0, 0, 0],
        before: 65535,
        behind: 65535,
    },
    // piece: DOLLAR_BEGIN PIECE_NAME FROM whole TO FINISH
    Rule {
        left: PIECE_,
        back: [
            FINISH,
            TO,
            WHOLE_,
            FROM,
            PIECE_NAME,
            DOLLAR_BEGIN,
            0,
            0,
            0,
            0,
        ],
        before: 65535,
        behind: 65535,
    },
    // piece: BEGIN_VARIABLE variable FINISH
    Rule {
        left: PIECE_,
        back: [FINISH, VARIABLE_, BEGIN_VARIABLE, 0, 0, 0, 0, 0, 0, 0],
        before: 65535,
        behind: 65535,
    },
    // offset: NAME
    Rule {
        left: OFFSET_,
        back: [NAME, 0, 0, 0, 0, 0, 0, 0, 0, 0],
        before: 65535,
        behind: 65535,
    },
    // offset: PIECE_NUMBER
    Rule {
        left: OFFSET_,
        back: [PIECE_NUMBER, 0, 0, 0, 0, 0, 0, 0, 0, 0],
        before: 65535,
        behind: 65535,
    },
    // offset: VARIABLE
    Rule {
        left: OFFSET_,
        back: [VARIABLE, 0, 0, 0, 0, 0, 0, 0, 0, 0],
        before: 65535,
        behind: 65535,
    },
    // word: plain_word
    Rule {
        left: WORD_,
        back: [PLAIN_WORD_, 0, 0, 0, 0, 0, 0, 0, 0, 0],
        before: 65535,
        behind: 65535,
    },
    // word: VISIBILITY
    Rule {
        left: WORD_,
        back: [VISIBILITY, 0, 0, 0, 0, 0, 0, 0, 0, 0],
        before: 65535,
        behind: 65535,
    },
    // word: ABSTRACT
    Rule {
        left: WORD_,
        back: [ABSTRACT, 0, 0, 0, 0, 0, 0, 0, 0, 0],
        before: 65535,
        behind: 65535,
    },
    // word: READONLY
    Rule {
        left: WORD_,
        back: [READONLY, 0, 0, 0, 0, 0, 0, 0, 0, 0],
        before: 65535,
        behind: 65535,
    },
    // word: STATIC
    Rule {
        left: WORD_,
        back: [STATIC, 0, 0, 0, 0, 0, 0, 0, 0, 0],
        before: 65535,
        behind: 65535,
    },
    // plain_word: NAME
    Rule {
        left: PLAIN_WORD_,
        back: [NAME, 0, 0, 0, 0, 0, 0, 0, 0, 0],
        before: 65535,
        behind: 65535,
    },
    // plain_word: ENUM
    Rule {
        left: PLAIN_WORD_,
        back: [ENUM, 0, 0, 0, 0, 0, 0, 0, 0, 0],
        before: 65535,
        behind: 65535,
    },
    // plain_word: ECHO
    Rule {
        left: PLAIN_WORD_,
        back: [ECHO, 0, 0, 0, 0, 0, 0, 0, 0, 0],
        before: 65535,
        behind: 65535,
    },
    // plain_word: PRINT
    Rule {
        left: PLAIN_WORD_,
        back: [PRINT, 0, 0, 0, 0, 0, 0, 0, 0, 0],
        before: 65535,
        behind: 65535,
    },
    // plain_word: IF
    Rule {
        left: PLAIN_WORD_,
        back: [IF, 0, 0, 0, 0, 0, 0, 0, 0, 0],
        before: 65535,
        behind: 65535,
    },
    // plain_word: ELSEIF
    Rule {
        left: PLAIN_WORD_,
        back: [ELSEIF, 0, 0, 0, 0, 0, 0, 0, 0, 0],
        before: 65535,
        behind: 65535,
    },
    // plain_word: ELSE
    Rule {
        left: PLAIN_WORD_,
        back: [ELSE, 0, 0, 0, 0, 0, 0, 0, 0, 0],
        before: 65535,
        behind: 65535,
    },
    // plain_word: ENDIF
    Rule {
        left: PLAIN_WORD_,
        back: [ENDIF, 0, 0, 0, 0, 0, 0, 0, 0, 0],
        before: 65535,
        behind: 65535,
    },
    // plain_word: WHILE
    Rule {
        left: PLAIN_WORD_,
        back: [WHILE, 0, 0, 0, 0, 0, 0, 0, 0, 0],
        before: 65535,
        behind: 65535,
    },
    // plain_word: ENDWHILE
    Rule {
        left: PLAIN_WORD_,
        back: [ENDWHILE, 0, 0, 0, 0, 0, 0, 0, 0, 0],
        before: 65535,
        behind: 65535,
    },
    // plain_word: DO
    Rule {
        left: PLAIN_WORD_,
        back: [DO, 0, 0, 0, 0, 0, 0, 0, 0, 0],
        before: 65535,
        behind: 65535,
    },
    // plain_word: FOR
    Rule {
        left: PLAIN_WORD_,
        back: [FOR, 0, 0, 0, 0, 0, 0, 0, 0, 0],
        before: 65535,
        behind: 65535,
    },
    // plain_word: ENDFOR
    Rule {
        left: PLAIN_WORD_,
        back: [ENDFOR, 0, 0, 0, 0, 0, 0, 0, 0, 0],
        before: 65535,
        behind: 65535,
    },
    // plain_word: FOREACH
    Rule {
        left: PLAIN_WORD_,
        back: [FOREACH, 0, 0, 0, 0, 0, 0, 0, 0, 0],
        before: 65535,
        behind: 65535,
    },
    // plain_word: ENDFOREACH
    Rule {
        left: PLAIN_WORD_,
        back: [ENDFOREACH, 0, 0, 0, 0, 0, 0, 0, 0, 0],
        before: 65535,
        behind: 65535,
    },
    // plain_word: AS
    Rule {
        left: PLAIN_WORD_,
        back: [AS, 0, 0, 0, 0, 0, 0, 0, 0, 0],
        before: 65535,
        behind: 65535,
    },
    // plain_word: SWITCH
    Rule {
        left: PLAIN_WORD_,
        back: [SWITCH, 0, 0, 0, 0, 0, 0, 0, 0, 0],
        before: 65535,
        behind: 65535,
    },
    // plain_word: ENDSWITCH
    Rule {
        left: PLAIN_WORD_,
        back: [ENDSWITCH, 0, 0, 0, 0, 0, 0, 0, 0, 0],
        before: 65535,
        behind: 65535,
    },
    // plain_word: CASE
    Rule {
        left: PLAIN_WORD_,
        back: [CASE, 0, 0, 0, 0, 0, 0, 0, 0, 0],
        before: 65535,
        behind: 65535,
    },
    // plain_word: DEFAULT
    Rule {
        left: PLAIN_WORD_,
        back: [DEFAULT, 0, 0, 0, 0, 0, 0, 0, 0, 0],
        before: 65535,
        behind: 65535,
    },
    // plain_word: BREAK
    Rule {
        left: PLAIN_WORD_,
        back: [BREAK, 0, 0, 0, 0, 0, 0, 0, 0, 0],
        before: 65535,
        behind: 65535,
    },
    // plain_word: CONTINUE
    Rule {
        left: PLAIN_WORD_,
        back: [CONTINUE, 0, 0, 0, 0, 0, 0, 0, 0, 0],
        before: 65535,
        behind: 65535,
    },
    // plain_word: RETURN
    Rule {
        left: PLAIN_WORD_,
        back: [RETURN, 0, 0, 0, 0, 0, 0, 0, 0, 0],
        before: 65535,
        behind: 65535,
    },
    // plain_word: GOTO
    Rule {
        left: PLAIN_WORD_,
        back: [GOTO, 0, 0, 0, 0, 0, 0, 0, 0, 0],
        before: 65535,
        behind: 65535,
    },
    // plain_word: DECLARE
    Rule {
        left: PLAIN_WORD_,
        back: [DECLARE, 0, 0, 0, 0, 0, 0, 0, 0, 0],
        before: 65535,
        behind: 65535,
    },
    // plain_word: ENDDECLARE
    Rule {
        left: PLAIN_WORD_,
        back: [ENDDECLARE, 0, 0, 0, 0, 0, 0, 0, 0, 0],
        before: 65535,
        behind: 65535,
    },
    // plain_word: TRY
    Rule {
        left: PLAIN_WORD_,
        back: [TRY, 0, 0, 0, 0, 0, 0, 0, 0, 0],
        before: 65535,
        behind: 65535,
    },
    // plain_word: CATCH
    Rule {
        left: PLAIN_WORD_,
        back: [CATCH, 0, 0, 0, 0, 0, 0, 0, 0, 0],
        before: 65535,
        behind: 65535,
    },
    // plain_word: FINALLY
    Rule {
        left: PLAIN_WORD_,
        back: [FINALLY, 0, 0, 0, 0, 0, 0, 0, 0, 0],
        before: 65535,
        behind: 65535,
    },
    // plain_word: THROW
    Rule {
        left: PLAIN_WORD_,
        back: [THROW, 0, 0, 0, 0, 0, 0, 0, 0, 0],
        before: 65535,
        behind: 65535,
    },
    // plain_word: GLOBAL
    Rule {
        left: PLAIN_WORD_,
        back: [GLOBAL, 0, 0, 0, 0, 0, 0, 0, 0, 0],
        before: 65535,
        behind: 65535,
    },
    // plain_word: UNSET
    Rule {
        left: PLAIN_WORD_,
        back: [UNSET, 0, 0, 0, 0, 0, 0, 0, 0, 0],
        before: 65535,
        behind: 65535,
    },
    // plain_word: ISSET
    Rule {
        left: PLAIN_WORD_,
        back: [ISSET, 0, 0, 0, 0, 0, 0, 0, 0, 0],
        before: 65535,
        behind: 65535,
    },
    // plain_word: EMPTY
    Rule {
        left: PLAIN_WORD_,
        back: [EMPTY, 0, 0, 0, 0, 0, 0, 0, 0, 0],
        before: 65535,
        behind: 65535,
    },
    // plain_word: EVAL
    Rule {
        left: PLAIN_WORD_,
        back: [EVAL, 0, 0, 0, 0, 0, 0, 0, 0, 0],
        before: 65535,
        behind: 65535,
    },
    // plain_word: EXIT
    Rule {
        left: PLAIN_WORD_,
        back: [EXIT, 0, 0, 0, 0, 0, 0, 0, 0, 0],
        before: 65535,
        behind: 65535,
    },
    // plain_word: INCLUDE
    Rule {
        left: PLAIN_WORD_,
        back: [INCLUDE, 0, 0, 0, 0, 0, 0, 0, 0, 0],
        before: 65535,
        behind: 65535,
    },
    // plain_word: ARRAY
    Rule {
        left: PLAIN_WORD_,
        back: [ARRAY, 0, 0, 0, 0, 0, 0, 0, 0, 0],
        before: 65535,
        behind: 65535,
    },
    // plain_word: LIST
    Rule {
        left: PLAIN_WORD_,
        back: [LIST, 0, 0, 0, 0, 0, 0, 0, 0, 0],
        before: 65535,
        behind: 65535,
    },
    // plain_word: MATCH
    Rule {
        left: PLAIN_WORD_,
        back: [MATCH, 0, 0, 0, 0, 0, 0, 0, 0, 0],
        before: 65535,
        behind: 65535,
    },
    // plain_word: FUNCTION
    Rule {
        left: PLAIN_WORD_,
        back: [FUNCTION, 0, 0, 0, 0, 0, 0, 0, 0, 0],
        before: 65535,
        behind: 65535,
    },
    // plain_word: FN
    Rule {
        left: PLAIN_WORD_,
        back: [FN, 0, 0, 0, 0, 0, 0, 0, 0, 0],
        before: 65535,
        behind: 65535,
    },
    // plain_word: YIELD
    Rule {
        left: PLAIN_WORD_,
        back: [YIELD, 0, 0, 0, 0, 0, 0, 0, 0, 0],
        before: 65535,
        behind: 65535,
    },
    // plain_word: CLASS
    Rule {
        left: PLAIN_WORD_,
        back: [CLASS, 0, 0, 0, 0, 0, 0, 0, 0, 0],
        before: 65535,
        behind: 65535,
    },
    // plain_word: INTERFACE
    Rule {
        left: PLAIN_WORD_,
        back: [INTERFACE, 0, 0, 0, 0, 0, 0, 0, 0, 0],
        before: 65535,
        behind: 65535,
    },
    // plain_word: TRAIT
    Rule {
        left: PLAIN_WORD_,
        back: [TRAIT, 0, 0, 0, 0, 0, 0, 0, 0, 0],
        before: 65535,
        behind: 65535,
    },
    // plain_word: EXTENDS
    Rule {
        left: PLAIN_WORD_,
        back: [EXTENDS, 0, 0, 0, 0, 0, 0, 0, 0, 0],
        before: 65535,
        behind: 65535,
    },
    // plain_word: IMPLEMENTS
    Rule {
        left: PLAIN_WORD_,
        back: [IMPLEMENTS, 0, 0, 0, 0, 0, 0, 0, 0, 0],
        before: 65535,
        behind: 65535,
    },
    // plain_word: INSTEADOF
    Rule {
        left: PLAIN_WORD_,
        back: [INSTEADOF, 0, 0, 0, 0, 0, 0, 0, 0, 0],
        before: 65535,
        behind: 65535,
    },
    // plain_word: CALLABLE
    Rule {
        left: PLAIN_WORD_,
        back: [CALLABLE, 0, 0, 0, 0, 0, 0, 0, 0, 0],
        before: 65535,
        behind: 65535,
    },
    // plain_word: CONST
    Rule {
        left: PLAIN_WORD_,
        back: [CONST, 0, 0, 0, 0, 0, 0, 0, 0, 0],
        before: 65535,
        behind: 65535,
    },
    // plain_word: VAR
    Rule {
        left: PLAIN_WORD_,
        back: [VAR, 0, 0, 0, 0, 0, 0, 0, 0, 0],
        before: 65535,
        behind: 65535,
    },
    // plain_word: NEW
    Rule {
        left: PLAIN_WORD_,
        back: [NEW, 0, 0, 0, 0, 0, 0, 0, 0, 0],
        before: 65535,
        behind: 65535,
    },
    // plain_word: CLONE
    Rule {
        left: PLAIN_WORD_,
        back: [CLONE, 0, 0, 0, 0, 0, 0, 0, 0, 0],
        before: 65535,
        behind: 65535,
    },
    // plain_word: INSTANCEOF
    Rule {
        left: PLAIN_WORD_,
        back: [INSTANCEOF, 0, 0, 0, 0, 0, 0, 0, 0, 0],
        before: 65535,
        behind: 65535,
    },
    // plain_word: NAMESPACE
    Rule {
        left: PLAIN_WORD_,
        back: [NAMESPACE, 0, 0, 0, 0, 0, 0, 0, 0, 0],
        before: 65535,
        behind: 65535,
    },
    // plain_word: USE
    Rule {
        left: PLAIN_WORD_,
        back: [USE, 0, 0, 0, 0, 0, 0, 0, 0, 0],
        before: 65535,
        behind: 65535,
    },
    // plain_word: MAGIC
    Rule {
        left: PLAIN_WORD_,
        back: [MAGIC, 0, 0, 0, 0, 0, 0, 0, 0, 0],
        before: 65535,
        behind: 65535,
    },
    // plain_word: AND
    Rule {
        left: PLAIN_WORD_,
        back: [AND, 0, 0, 0, 0, 0, 0, 0, 0, 0],
        before: 65535,
        behind: 65535,
    },
    // plain_word: OR
    Rule {
        left: PLAIN_WORD_,
        back: [OR, 0, 0, 0, 0, 0, 0, 0, 0, 0],
        before: 65535,
        behind: 65535,
    },
    // plain_word: XOR
    Rule {
        left: PLAIN_WORD_,
        back: [XOR, 0, 0, 0, 0, 0, 0, 0, 0, 0],
        before: 65535,
        behind: 65535,
    },
];

/// The powers of the symbols to the left.
pub const LEFTS: [u16; 238] = [
    0, 0, 0, 0, 60, 60, 0, 0, 0, 0, 0, 0, 0, 0, 0, 0, 0, 0, 0, 0, 0, 0, 0, 0, 0, 0, 0, 0, 0, 0, 0,
    0, 0, 0, 0, 0, 0, 0, 0, 0, 0, 0, 0, 0, 0, 0, 0, 0, 0, 0, 0, 0, 0, 0, 0, 0, 0, 0, 0, 52, 0, 0,
    0, 0, 14, 10, 12, 0, 0, 0, 0, 0, 0, 0, 0, 0, 0, 0, 0, 0, 0, 0, 0, 0, 0, 0, 0, 0, 0, 0, 0, 0, 0,
    0, 0, 0, 0, 0, 0, 0, 0, 0, 0, 0, 24, 26, 28, 30, 32, 34, 36, 36, 38, 40, 42, 44, 46, 48, 0, 0,
    56, 0, 0, 0, 0, 0, 0, 0, 0, 0, 0, 0, 0, 0, 0, 0, 0, 0, 0, 0, 0, 0, 0, 0, 0, 0, 0, 0, 0, 0, 0,
    0, 0, 0, 0, 0, 0, 0, 0, 0, 0, 0, 0, 0, 0, 0, 0, 0, 0, 0, 0, 0, 0, 0, 0, 0, 0, 0, 0, 0, 0, 0, 0,
    0, 0, 0, 0, 0, 0, 0, 0, 0, 0, 0, 0, 0, 0, 0, 0, 0, 0, 0, 0, 0, 0, 0, 0, 0, 0, 0, 0, 0, 0, 0, 0,
    0, 0, 0, 0, 0, 0, 0, 0, 0, 0, 0, 0, 0, 0, 0, 0, 0, 0, 0, 0, 0, 0, 0,
];

/// The powers of the symbols to the right.
pub const RIGHTS: [u16; 238] = [
    0, 0, 16, 0, 0, 0, 0, 0, 0, 0, 0, 0, 0, 0, 0, 0, 0, 0, 0, 0, 0, 0, 0, 0, 0, 0, 0, 0, 4, 0, 0,
    0, 0, 0, 0, 8, 0, 0, 0, 0, 6, 18, 20, 0, 0, 0, 0, 0, 0, 0, 0, 0, 0, 0, 0, 0, 0, 0, 58, 52, 0,
    0, 0, 0, 14, 10, 12, 0, 0, 0, 0, 0, 0, 0, 0, 0, 0, 0, 0, 0, 0, 0, 0, 0, 0, 24, 0, 0, 0, 0, 0,
    0, 0, 0, 0, 0, 0, 0, 0, 0, 0, 22, 22, 0, 0, 26, 28, 30, 32, 34, 36, 36, 38, 40, 42, 44, 46, 48,
    50, 0, 56, 0, 0, 0, 0, 0, 0, 0, 0, 0, 0, 0, 0, 0, 0, 0, 0, 0, 0, 0, 0, 0, 0, 0, 0, 0, 0, 0, 0,
    0, 0, 0, 0, 0, 0, 0, 0, 0, 0, 0, 0, 0, 0, 0, 0, 0, 0, 0, 0, 0, 0, 0, 0, 0, 0, 0, 0, 0, 0, 0, 0,
    0, 0, 0, 0, 0, 0, 0, 0, 0, 0, 0, 0, 0, 0, 0, 0, 0, 0, 0, 0, 0, 0, 54, 0, 0, 0, 0, 0, 0, 0, 0,
    0, 0, 0, 0, 0, 0, 0, 0, 0, 0, 0, 0, 0, 0, 0, 0, 0, 0, 0, 0, 0, 0, 0, 0, 0, 0,
];

/// How many terminals there are, with the end.
pub const TERMINALS: u16 = 121;

/// What a whole input is.
pub const START: u16 = FILE_;
