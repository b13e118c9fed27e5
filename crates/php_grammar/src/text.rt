//! The grammar of PHP 8.2 by the PHP manual, in the notation of tools/tables.py. Headings name the
//! pages of its "Language Reference" that the rules below them are from.

/// The grammar. A rule of the language that is read ends in `=` and the name of what it makes; the
/// others are the rest of PHP.
pub const TEXT: &str = r"
# A terminal stands for all tokens that the grammar treats alike; README.md says which. Sources:
# 'List of Keywords', 'List of Parser Tokens'.
%token ECHO PRINT IF ELSEIF ELSE ENDIF WHILE ENDWHILE DO FOR ENDFOR FOREACH ENDFOREACH AS SWITCH
%token ENDSWITCH CASE DEFAULT BREAK CONTINUE
%token RETURN GOTO DECLARE ENDDECLARE TRY CATCH FINALLY THROW GLOBAL UNSET ISSET EMPTY EVAL EXIT
%token INCLUDE ARRAY LIST MATCH FUNCTION FN
%token YIELD YIELD_FROM CLASS INTERFACE TRAIT ENUM EXTENDS IMPLEMENTS INSTEADOF CALLABLE CONST VAR
%token STATIC VISIBILITY ABSTRACT READONLY
%token NEW CLONE INSTANCEOF NAMESPACE USE HALT MAGIC AND OR XOR
%token INLINE NAME QUALIFIED ROOTED RELATIVE VARIABLE NUMBER TEXT TEMPLATE QUOTE BACKQUOTE HEREDOC
%token HEREDOC_END PIECE PIECE_NAME PIECE_NUMBER
%token SEMI COMMA COLON OPEN CLOSE FROM TO BEGIN FINISH ATTRIBUTE ARROW SCOPE DOUBLE_ARROW ELLIPSIS
%token DOLLAR DOLLAR_BEGIN BEGIN_VARIABLE BACKSLASH
%token ASSIGN UPDATE STEP QUESTION COALESCE BOOL_OR BOOL_AND BAR CARET AMPERSAND REFERENCE EQUALITY
%token COMPARISON DOT SHIFT SUM PRODUCT NOT UNARY POWER

# Operators, from the loosest to the tightest; those of one row of the table are one terminal.
# 'Operator Precedence'.
%prefix +THROW
%prefix +FN
%prefix +INCLUDE
%left OR
%left XOR
%left AND
%prefix +PRINT
%prefix +YIELD
%prefix +YIELD_FROM
%right +ASSIGN +UPDATE
%left -QUESTION +COLON
%right COALESCE
%left BOOL_OR
%left BOOL_AND
%left BAR
%left CARET
%left AMPERSAND REFERENCE
%none EQUALITY
%none COMPARISON
%left DOT
%left SHIFT
%left SUM
%left PRODUCT
%prefix +NOT
%left INSTANCEOF
%prefix +sign
%right POWER
%prefix +CLONE
%start file

# Files. 'Basic syntax', 'Namespaces', 'Constants'.
file: top_statements = pass
top_statements: = no_parts
 | top_statements statement = next_part ~ jump
 | top_statements declaration = next_function
 | top_statements NAMESPACE new_namespace SEMI ~ namespace
 | top_statements NAMESPACE new_namespace BEGIN top_statements FINISH ~ namespace
 | top_statements NAMESPACE BEGIN top_statements FINISH ~ namespace
 | top_statements USE imports SEMI ~ use
 | top_statements CONST constants SEMI ~ constant_definition
 | top_statements HALT OPEN CLOSE SEMI ~ halt
new_namespace: word
 | QUALIFIED
namespace_name: NAME
 | QUALIFIED
imports: some_imports
 | import_kind some_imports
 | import_name BACKSLASH BEGIN group possible_comma FINISH
 | import_kind import_name BACKSLASH BEGIN plain_group possible_comma FINISH
import_kind: FUNCTION
 | CONST
some_imports: import
 | some_imports COMMA import
import: import_name
 | import_name AS NAME
import_name: namespace_name
 | ROOTED
group: group_import
 | group COMMA group_import
group_import: plain_import
 | import_kind plain_import
plain_group: plain_import
 | plain_group COMMA plain_import
plain_import: namespace_name
 | namespace_name AS NAME
constants: constant_item
 | constants COMMA constant_item
constant_item: NAME given expression
possible_comma: = absent
 | COMMA ~ last_comma

# Statements. 'Control Structures', 'Alternative syntax for control structures', 'Exceptions',
# 'Variable scope', 'PHP tags', 'Escaping from HTML'.
statements: = no_statements
 | statements statement = next_statement
 | statements declaration ~ inner_declaration
statement: BEGIN statements FINISH = block
 | INLINE = inline
 | ECHO expressions SEMI = echo
 | whole SEMI = run
 | SEMI = empty_statement
 | NAME COLON ~ label
 | GOTO NAME SEMI ~ goto
 | IF OPEN whole CLOSE statement rest = branch
 | IF OPEN whole CLOSE COLON statements colon_rest = colon_branch
 | WHILE OPEN whole CLOSE statement = while_loop
 | WHILE OPEN whole CLOSE COLON statements ENDWHILE SEMI = colon_while_loop
 | DO statement WHILE OPEN whole CLOSE SEMI = do_loop
 | FOR OPEN any_expressions SEMI any_expressions SEMI any_expressions CLOSE statement = for_loop ~ conditions
 | FOR OPEN any_expressions SEMI any_expressions SEMI any_expressions CLOSE colon_for = for_loop ~ conditions
 | FOREACH OPEN expression AS target CLOSE statement = each_loop ~ loop_target
 | FOREACH OPEN expression AS target DOUBLE_ARROW target CLOSE statement = keyed_each_loop ~ loop_target
 | FOREACH OPEN expression AS target CLOSE COLON statements ENDFOREACH SEMI = colon_each_loop ~ loop_target
 | FOREACH OPEN expression AS target DOUBLE_ARROW target CLOSE colon_each = keyed_each_loop ~ loop_target
 | SWITCH OPEN whole CLOSE BEGIN possible_semi cases FINISH ~ switch
 | SWITCH OPEN whole CLOSE COLON possible_semi cases ENDSWITCH SEMI ~ switch
 | BREAK SEMI = leave
 | BREAK expression SEMI ~ leave_loops
 | CONTINUE SEMI = turn
 | CONTINUE expression SEMI ~ leave_loops
 | RETURN SEMI = return_nothing
 | RETURN whole SEMI = return_value
 | GLOBAL globals SEMI ~ global
 | STATIC static_variables SEMI ~ static_variable
 | UNSET OPEN variables possible_comma CLOSE SEMI = unset
 | TRY BEGIN statements FINISH catches finally ~ try
 | DECLARE OPEN constants CLOSE statement ~ declare
 | DECLARE OPEN constants CLOSE COLON statements ENDDECLARE SEMI ~ declare
# An else belongs to the nearest if. 'else', 'elseif/else if'.
rest: !ELSE !ELSEIF = no_rest
 | ELSE statement = other
 | ELSEIF OPEN whole CLOSE statement rest = branch
colon_rest: ENDIF SEMI = no_rest
 | ELSE COLON statements ENDIF SEMI = colon_other
 | ELSEIF OPEN whole CLOSE COLON statements colon_rest !loose = colon_arm
colon_for: COLON statements ENDFOR SEMI = second
colon_each: COLON statements ENDFOREACH SEMI = second
target: variable = pass
 | ampersand variable ~ reference
 | LIST OPEN elements CLOSE ~ destructuring
 | FROM elements TO ~ destructuring
possible_semi:
 | SEMI
cases:
 | cases CASE whole COLON statements
 | cases CASE whole SEMI statements
 | cases DEFAULT COLON statements
 | cases DEFAULT SEMI statements
globals: simple
 | globals COMMA simple
static_variables: static_variable
 | static_variables COMMA static_variable
static_variable: VARIABLE initial
variables: variable = first_expression
 | variables COMMA variable = next_expression
catches:
 | catches CATCH OPEN caught catch_variable CLOSE BEGIN statements FINISH
caught: name
 | caught BAR name
catch_variable:
 | VARIABLE
finally:
 | FINALLY BEGIN statements FINISH
initial: = absent
 | given expression = second
# What stands behind these is no operand: `or` may stand in it without brackets.
given: ASSIGN = pass
named: word COLON

# Functions and classes. 'Functions', 'Classes and Objects', 'Enumerations', 'Attributes', 'Type
# declarations'.
declaration: declared = pass
 | attributes declared ~ attribute
declared: FUNCTION possible_ampersand function_name OPEN parameters CLOSE return_type BEGIN statements FINISH = function ~ reserved_name
 | class_modifiers CLASS NAME extends implements BEGIN members FINISH ~ class
 | INTERFACE NAME interface_extends BEGIN members FINISH ~ interface
 | TRAIT NAME BEGIN members FINISH ~ trait
 | ENUM NAME enum_type implements BEGIN members FINISH ~ enum
function_name: NAME = pass
 | READONLY ~ reserved_name
attributes: ATTRIBUTE attribute_list possible_comma TO
 | attributes ATTRIBUTE attribute_list possible_comma TO
attribute_list: attribute
 | attribute_list COMMA attribute
attribute: class_name
 | class_name arguments
possible_ampersand: = absent
 | ampersand ~ reference
ampersand: AMPERSAND
 | REFERENCE
parameters: = no_parameters
 | some_parameters possible_comma = pass
some_parameters: parameter = pass
 | some_parameters COMMA parameter = next_parameter ~ equal_parameters
parameter: plain_parameter = pass
 | attributes plain_parameter ~ attribute
plain_parameter: promotions possible_type passing VARIABLE initial = parameter ~ default
promotions: = absent
 | promotions VISIBILITY ~ promotion
 | promotions READONLY ~ promotion
passing: = absent
 | REFERENCE ~ reference
 | ELLIPSIS ~ variadic
 | REFERENCE ELLIPSIS ~ reference
possible_type: = absent
 | type ~ type
type: single_type
 | QUESTION single_type
 | union
 | intersection
single_type: name
 | ARRAY
 | CALLABLE
union: single_type BAR union_part
 | OPEN intersection CLOSE BAR union_part
 | union BAR union_part
union_part: single_type
 | OPEN intersection CLOSE
intersection: NAME AMPERSAND name
 | QUALIFIED AMPERSAND name
 | ROOTED AMPERSAND name
 | RELATIVE AMPERSAND name
 | intersection AMPERSAND name
return_type: = absent
 | COLON type ~ type
 | COLON STATIC ~ type
 | COLON QUESTION STATIC ~ type
 | COLON static_union ~ type
static_union: STATIC BAR union_part
 | single_type BAR STATIC
 | OPEN intersection CLOSE BAR STATIC
 | union BAR STATIC
 | static_union BAR union_part
class_modifiers:
 | class_modifiers ABSTRACT
 | class_modifiers READONLY
extends:
 | EXTENDS class_name
implements:
 | IMPLEMENTS class_names
interface_extends:
 | EXTENDS class_names
enum_type:
 | COLON type
class_names: class_name
 | class_names COMMA class_name
members:
 | members member
 | members attributes member
 | members USE class_names adaptations
member: some_modifiers possible_type properties SEMI
 | VAR possible_type properties SEMI
 | modifiers CONST class_constants SEMI
 | modifiers FUNCTION possible_ampersand word OPEN parameters CLOSE return_type body
 | CASE word initial SEMI
modifiers:
 | some_modifiers
some_modifiers: modifier
 | some_modifiers modifier
modifier: VISIBILITY
 | ABSTRACT
 | READONLY
 | STATIC
properties: static_variable
 | properties COMMA static_variable
class_constants: class_constant_item
 | class_constants COMMA class_constant_item
class_constant_item: word given expression
body: SEMI
 | BEGIN statements FINISH
adaptations: SEMI
 | BEGIN some_adaptations FINISH
some_adaptations:
 | some_adaptations adaptation SEMI
adaptation: name SCOPE word INSTEADOF class_names
 | adapted AS plain_word
 | adapted AS modifier
 | adapted AS modifier word
adapted: word
 | name SCOPE word

# Expressions. 'Expressions', 'Operators', 'Anonymous functions', 'Arrow Functions', 'match',
# 'Generators', 'Arrays'. Within them `yield a => b` is `yield` with a key only at the end of a
# whole one.
whole: expression = pass
 | keyed ~ yield
keyed: YIELD expression DOUBLE_ARROW expression !loose
 | variable ASSIGN keyed !loose
 | variable UPDATE keyed !loose
expressions: expression = first_expression
 | expressions COMMA expression = next_expression
any_expressions: = no_expressions
 | expressions = pass
expression: variable = pass
 | bracketed = pass
 | literal = pass
 | constant = pass
 | class_constant ~ class_constant
 | NUMBER = literal
 | HEREDOC pieces HEREDOC_END ~ parts
 | HEREDOC HEREDOC_END ~ parts
 | BACKQUOTE pieces BACKQUOTE ~ shell_command
 | BACKQUOTE BACKQUOTE ~ shell_command
 | variable ASSIGN expression = assign ~ target
 | variable ASSIGN ampersand variable !loose ~ reference
 | LIST OPEN elements CLOSE ASSIGN expression ~ destructuring
 | FROM elements TO ASSIGN expression ~ destructuring
 | variable UPDATE expression = update ~ target
 | variable STEP = step_after ~ step
 | STEP variable = step_before ~ step
 | expression OR expression ~ word_operator
 | expression XOR expression ~ word_operator
 | expression AND expression ~ word_operator
 | expression BOOL_OR expression = operate ~ operator
 | expression BOOL_AND expression = operate ~ operator
 | expression BAR expression ~ bit_operator
 | expression CARET expression ~ bit_operator
 | expression AMPERSAND expression ~ bit_operator
 | expression REFERENCE expression ~ bit_operator
 | expression EQUALITY expression = operate ~ operator
 | expression COMPARISON expression = operate ~ operator
 | expression DOT expression = operate ~ operator
 | expression SHIFT expression ~ bit_operator
 | expression SUM expression = operate ~ operator
 | expression PRODUCT expression = operate ~ operator
 | expression POWER expression ~ power
 | expression COALESCE expression = coalesce
 | expression QUESTION expression COLON expression = choice
 | expression QUESTION COLON expression = short_choice
 | expression INSTANCEOF class_reference !=INSTANCEOF !closed ~ instanceof
 | NOT expression = prefix ~ prefix
 | sign expression = prefix ~ prefix
 | CLONE expression ~ clone
 | PRINT expression = print
 | INCLUDE expression = include ~ include
 | THROW expression ~ throw
 | YIELD !=YIELD ~ yield
 | YIELD expression ~ yield
 | YIELD_FROM expression ~ yield
 | EXIT = exit
 | EXIT OPEN CLOSE = exit
 | EXIT OPEN whole CLOSE = exit_value
 | ISSET OPEN expressions possible_comma CLOSE = isset ~ isset
 | EMPTY OPEN expression CLOSE = empty ~ isset
 | EVAL OPEN expression CLOSE = eval
 | created ~ new
 | closure ~ closure
 | STATIC closure ~ closure
 | attributes closure ~ attribute
 | attributes STATIC closure ~ attribute
 | MATCH OPEN whole CLOSE BEGIN arms FINISH ~ match
sign: SUM = pass
 | UNARY = pass
bracketed: OPEN whole CLOSE = bracket
closure: FUNCTION possible_ampersand OPEN parameters CLOSE uses return_type BEGIN statements FINISH
 | FN possible_ampersand OPEN parameters CLOSE return_type DOUBLE_ARROW expression !=FN
uses:
 | USE OPEN used_variables possible_comma CLOSE
used_variables: used_variable
 | used_variables COMMA used_variable
used_variable: VARIABLE
 | REFERENCE VARIABLE
arms:
 | some_arms possible_comma
some_arms: arm
 | some_arms COMMA arm
arm: expressions DOUBLE_ARROW expression
 | expressions COMMA DOUBLE_ARROW expression
 | DEFAULT DOUBLE_ARROW expression
 | DEFAULT COMMA DOUBLE_ARROW expression
created: NEW class_reference possible_arguments
 | NEW CLASS possible_arguments extends implements BEGIN members FINISH
 | NEW attributes CLASS possible_arguments extends implements BEGIN members FINISH
possible_arguments:
 | arguments
class_reference: class_name
 | bracketed
 | new_variable
new_variable: simple
 | new_variable FROM whole TO
 | new_variable FROM TO
 | new_variable ARROW property
 | class_name SCOPE simple
 | new_variable SCOPE simple
arguments: OPEN CLOSE = no_arguments
 | OPEN some_arguments possible_comma CLOSE = second
 | OPEN ELLIPSIS CLOSE ~ callable
some_arguments: argument = first_argument
 | some_arguments COMMA argument = next_argument
argument: whole = pass
 | named expression ~ named_argument
 | ELLIPSIS expression ~ spread
# Of elements one may be left out, in a list or at the end.
elements: element = pass
 | elements COMMA element = next_element ~ missing_item
element: = hole
 | expression = element
 | expression DOUBLE_ARROW expression = keyed_element
 | ampersand variable ~ reference
 | expression DOUBLE_ARROW ampersand variable ~ reference
 | LIST OPEN elements CLOSE ~ destructuring
 | expression DOUBLE_ARROW LIST OPEN elements CLOSE ~ destructuring
 | ELLIPSIS expression ~ spread

# Variables: what may be called, what may be written, what has members. 'Variables', 'Variable
# variables', 'Variable functions', 'Strings', 'Scope Resolution Operator (::)'.
callable_variable: VARIABLE = variable ~ variable
 | DOLLAR simple ~ variable_variable
 | DOLLAR BEGIN whole FINISH ~ variable_variable
 | container FROM whole TO = member ~ empty_key
 | container FROM TO = open_member ~ empty_key
 | container ARROW property arguments ~ method
 | name arguments = call ~ reserved_name
 | class_name SCOPE method arguments ~ static_member
 | object SCOPE method arguments ~ static_member
 | callable_variable arguments ~ called_value
 | bracketed arguments ~ called_value
 | literal arguments ~ called_value
variable: callable_variable = pass
 | container ARROW property ~ property
 | class_name SCOPE simple ~ static_member
 | object SCOPE simple ~ static_member
object: variable = pass
 | bracketed = pass
 | literal ~ literal_member
 | class_constant ~ class_constant
container: object = pass
 | constant ~ constant_member
simple: VARIABLE
 | DOLLAR simple
 | DOLLAR BEGIN whole FINISH
property: NAME
 | BEGIN whole FINISH
 | simple
method: word
 | BEGIN whole FINISH
 | simple
constant: name = constant ~ constant
 | MAGIC ~ magic_constant
class_constant: class_name SCOPE word
 | object SCOPE word
class_name: name
 | STATIC
name: NAME = pass
 | QUALIFIED ~ qualified_name
 | ROOTED ~ qualified_name
 | RELATIVE ~ qualified_name
literal: TEXT = literal
 | TEMPLATE = literal
 | QUOTE pieces QUOTE ~ parts
 | ARRAY OPEN elements CLOSE = named_array ~ missing_item
 | FROM elements TO = array ~ missing_item
pieces: piece
 | pieces piece
piece: PIECE
 | VARIABLE
 | VARIABLE FROM offset TO
 | VARIABLE ARROW NAME
 | DOLLAR_BEGIN whole FINISH
 | DOLLAR_BEGIN PIECE_NAME FINISH
 | DOLLAR_BEGIN PIECE_NAME FROM whole TO FINISH
 | BEGIN_VARIABLE variable FINISH
offset: NAME
 | PIECE_NUMBER
 | VARIABLE

# A member may be named by a word that PHP reserves. 'List of Keywords'.
word: plain_word
 | VISIBILITY
 | ABSTRACT
 | READONLY
 | STATIC
plain_word: NAME
 | ENUM
 | ECHO
 | PRINT
 | IF
 | ELSEIF
 | ELSE
 | ENDIF
 | WHILE
 | ENDWHILE
 | DO
 | FOR
 | ENDFOR
 | FOREACH
 | ENDFOREACH
 | AS
 | SWITCH
 | ENDSWITCH
 | CASE
 | DEFAULT
 | BREAK
 | CONTINUE
 | RETURN
 | GOTO
 | DECLARE
 | ENDDECLARE
 | TRY
 | CATCH
 | FINALLY
 | THROW
 | GLOBAL
 | UNSET
 | ISSET
 | EMPTY
 | EVAL
 | EXIT
 | INCLUDE
 | ARRAY
 | LIST
 | MATCH
 | FUNCTION
 | FN
 | YIELD
 | CLASS
 | INTERFACE
 | TRAIT
 | EXTENDS
 | IMPLEMENTS
 | INSTEADOF
 | CALLABLE
 | CONST
 | VAR
 | NEW
 | CLONE
 | INSTANCEOF
 | NAMESPACE
 | USE
 | MAGIC
 | AND
 | OR
 | XOR
";
