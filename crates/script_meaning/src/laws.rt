//! Laws about the definitions.

ghost use Rattle.std.specs.Prelude.{◌≡◌, ◌≢◌, ℕ, ◌+◌, ◌≤◌, ◌++◌, List, if◌then◌else◌};
ghost use Rattle.php_syntax.specs.Trees.{PlainExpr, PlainExprs, MaybeExpr, PlainFunction, PlainStmts};
ghost use Rattle.script_meaning.specs.Requests.{PlainRequest};
ghost use Rattle.script_meaning.specs.Runs.{State, Run, Going, Spent, ◌then_do◌};
ghost use Rattle.script_meaning.specs.Programs.{PlainProgram};
ghost use Rattle.plain_values.specs.Plain.{Plain};
ghost use Rattle.script_meaning.specs.Expressions.{Environment, value, values};
ghost use Rattle.script_meaning.specs.Quiet.{IsQuiet};
ghost use Rattle.script_meaning.specs.Statements.{Flow, goes_on, statements, condition, for_condition, nothing, loop, turn};
ghost use Rattle.script_meaning.specs.Meaning.{call_within, meaning};

/// The units that are left never grow, whatever a script does.
pub fn units_only_fall()
    ensures { (r : PlainRequest) (fs : List PlainFunction) (room : ℕ) (ss : PlainStmts)
        (s t : State) (flow : Flow) →
        statements (record { request = r; call = call_within r fs room }) ss s ≡ Going flow t
        → t.left ≤ s.left }
{}

/// A run that ended, met a fault or opened too many calls within n units does the same within more.
pub fn more_units_change_nothing()
    ensures { (program : PlainProgram) (r : PlainRequest) (n d : ℕ) →
        (meaning program r n).end ≢ Spent → meaning program r (n + d) ≡ meaning program r n }
{}

/// What is printed within n units stands in front of what is printed within more.
pub fn more_units_print_more()
    ensures { (program : PlainProgram) (r : PlainRequest) (n d : ℕ) →
        (more : List ℕ) × ((meaning program r (n + d)).printed ≡ (meaning program r n).printed
        ++ more) }
{}

/// An expression without assignment, without `++` and `--` and without calls leaves the units, the
/// variables and what was printed as they were.
pub fn quiet_expressions_change_nothing()
    ensures { (w : Environment) (e : PlainExpr) (s t : State) (v : Plain) → IsQuiet e → value w e s
        ≡ Going v t → t ≡ s }
{}

/// `while` is its test, and where it holds a turn and the loop again: the number of turns that the
/// definition counts is never what ends it.
pub fn while_goes_by_turns()
    ensures { (r : PlainRequest) (fs : List PlainFunction) (room : ℕ) (e : PlainExpr)
        (body : PlainStmts) (s : State) →
        let w : Environment = record { request = r; call = call_within r fs room } in
        loop (condition w e) (statements w body) nothing s
        ≡ (condition w e s then_do λ holds t.
        (if holds then turn (statements w body) t (loop (condition w e) (statements w body) nothing)
        else Going goes_on t)) }
{}

/// `for` likewise, with what stands in its third place behind each turn.
pub fn for_goes_by_turns()
    ensures { (r : PlainRequest) (fs : List PlainFunction) (room : ℕ) (e : MaybeExpr)
        (next : PlainExprs) (body : PlainStmts) (s : State) →
        let w : Environment = record { request = r; call = call_within r fs room } in
        let again : (State → Run Flow) = loop (for_condition w e) (statements w body)
        (values w next) in
        again s ≡ (for_condition w e s then_do λ holds t.
        (if holds then turn (statements w body) t (λ u. (values w next u then_do λ vs v. again v))
        else Going goes_on t)) }
{}
