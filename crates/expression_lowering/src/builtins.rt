//! What a call of one of PHP's functions sets its slot to.

ghost use Rattle.std.specs.Prelude.{◌≡◌, ◌∷◌, [], length, map, vec_len, IfOk};
ghost use Rattle.php_syntax.specs.Trees.{plain_expr, exprs_of};
ghost use Rattle.flow_code.specs.declared.source.Work.TheVariants as work;
ghost use Rattle.flow_code.specs.Points.{apply_source, number_source};
ghost use Rattle.flow_code.specs.View.{plain_source, slot_number};
ghost use Rattle.op_system.specs.declared.op.Op.TheVariants as op;
ghost use Rattle.flow_code.specs.Builtins as plain;

use crate::cuts::{cut_from, cut_out};
use builtin_meaning::Builtin;
use flow_code::{Source, Work};
use flow_lowering::builtins::{replacement_of, splitting_of};
use op_system::Op;
use php_syntax::tree::Expr;
use std::alloc::Global;
use text_base::{NoMemory, Slot};

// A function from a text to a text.
fn applied(op: Op, from: Slot, builtin: Builtin, args: Vec<Slot>) -> Source
    ensures { plain_source result ≡ apply_source op from.0 builtin (map slot_number args.items) }
{
    Source::Apply {
        op,
        from,
        builtin,
        args,
    }
}

// A function that gives an integer, or one that the analysis knows nothing else of.
fn counted(builtin: Builtin, args: Vec<Slot>) -> Source
    ensures { plain_source result
        ≡ number_source (work.Builtin builtin) (map slot_number args.items) }
{
    let work = Work::Builtin(builtin);
    Source::Number { work, args }
}

// A call with one argument.
#[tactic(auto, unfolding(flow_code::specs::Builtins::source_of_one))]
fn source_of_one(builtin: Builtin, from: Slot, args: Vec<Slot>) -> Source
    requires { map slot_number args.items ≡ from.0 ∷ [] }
    ensures { plain_source result ≡ plain.source_of_one builtin from.0 }
{
    match builtin {
        Builtin::Htmlspecialchars => applied(Op::Html, from, builtin, args),
        Builtin::Strtolower => applied(Op::Lower, from, builtin, args),
        Builtin::Strtoupper => applied(Op::Upper, from, builtin, args),
        Builtin::Ucfirst => applied(Op::First, from, builtin, args),
        Builtin::Trim => trimmed(true, true, from, builtin, args),
        Builtin::Ltrim => trimmed(true, false, from, builtin, args),
        Builtin::Rtrim => trimmed(false, true, from, builtin, args),
        Builtin::Nl2br => applied(Op::Breaks, from, builtin, args),
        Builtin::Urlencode => applied(Op::Url, from, builtin, args),
        Builtin::Rawurlencode => applied(Op::RawUrl, from, builtin, args),
        Builtin::Addslashes => applied(Op::Slashes, from, builtin, args),
        Builtin::Strval => Source::Concat(args),
        Builtin::IsArray | Builtin::IsString => Source::Truth {
            work: Work::Builtin(builtin),
            args,
        },
        Builtin::StrReplace
        | Builtin::Substr
        | Builtin::Explode
        | Builtin::Implode
        | Builtin::StrRepeat
        | Builtin::Strlen
        | Builtin::Count
        | Builtin::Intval
        | Builtin::Intdiv => counted(builtin, args),
    }
}

// A function that trims.
fn trimmed(left: bool, right: bool, from: Slot, builtin: Builtin, args: Vec<Slot>) -> Source
    ensures { plain_source result
        ≡ apply_source (op.Trim left right) from.0 builtin (map slot_number args.items) }
{
    applied(Op::Trim { left, right }, from, builtin, args)
}

// A call with two arguments.
#[tactic(auto, unfolding(flow_code::specs::Builtins::source_of_two))]
fn source_of_two(
    alloc: Global,
    builtin: Builtin,
    first: &Expr,
    second: &Expr,
    from: (Slot, Slot),
    args: Vec<Slot>,
) -> Result<Source, NoMemory>
    requires { map slot_number args.items ≡ from.0.0 ∷ from.1.0 ∷ [] }
    ensures { IfOk result (λ source. plain_source source
        ≡ plain.source_of_two builtin (plain_expr first.now) (plain_expr second.now) from.0.0
        from.1.0) }
{
    match builtin {
        Builtin::Substr => Ok(applied(cut_from(second), from.0, builtin, args)),
        Builtin::Explode => {
            let op = splitting_of(alloc, first)?;
            Ok(Source::Explode {
                op,
                from: from.1,
                builtin,
                args,
            })
        }
        Builtin::Implode => Ok(Source::Implode {
            sep: from.0,
            from: from.1,
            builtin,
            args,
        }),
        Builtin::StrRepeat => Ok(Source::Repeat {
            from: from.0,
            builtin,
            args,
        }),
        Builtin::Htmlspecialchars
        | Builtin::StrReplace
        | Builtin::Strtolower
        | Builtin::Strtoupper
        | Builtin::Ucfirst
        | Builtin::Trim
        | Builtin::Ltrim
        | Builtin::Rtrim
        | Builtin::Nl2br
        | Builtin::Urlencode
        | Builtin::Rawurlencode
        | Builtin::Addslashes
        | Builtin::Strlen
        | Builtin::Count
        | Builtin::Intval
        | Builtin::Intdiv
        | Builtin::Strval
        | Builtin::IsArray
        | Builtin::IsString => Ok(counted(builtin, args)),
    }
}

// A call with three arguments.
#[tactic(auto, unfolding(flow_code::specs::Builtins::source_of_three))]
fn source_of_three(
    alloc: Global,
    builtin: Builtin,
    first: &Expr,
    second: &Expr,
    third: &Expr,
    from: (Slot, Slot, Slot),
    args: Vec<Slot>,
) -> Result<Source, NoMemory>
    requires { map slot_number args.items ≡ from.0.0 ∷ from.1.0 ∷ from.2.0 ∷ [] }
    ensures { IfOk result (λ source. plain_source source
        ≡ plain.source_of_three builtin (plain_expr first.now) (plain_expr second.now)
        (plain_expr third.now) from.0.0 from.1.0 from.2.0) }
{
    match builtin {
        Builtin::StrReplace => {
            let op = replacement_of(alloc, first, second)?;
            Ok(applied(op, from.2, builtin, args))
        }
        Builtin::Substr => Ok(applied(cut_out(second, third), from.0, builtin, args)),
        Builtin::Htmlspecialchars
        | Builtin::Strtolower
        | Builtin::Strtoupper
        | Builtin::Ucfirst
        | Builtin::Trim
        | Builtin::Ltrim
        | Builtin::Rtrim
        | Builtin::Nl2br
        | Builtin::Urlencode
        | Builtin::Rawurlencode
        | Builtin::Addslashes
        | Builtin::Explode
        | Builtin::Implode
        | Builtin::StrRepeat
        | Builtin::Strlen
        | Builtin::Count
        | Builtin::Intval
        | Builtin::Intdiv
        | Builtin::Strval
        | Builtin::IsArray
        | Builtin::IsString => Ok(counted(builtin, args)),
    }
}

/// What a call of one of PHP's functions sets its slot to, by its arguments and the slots of their
/// values.
#[tactic(auto, using(crate::proofs::RowLemmas::one_slot, crate::proofs::RowLemmas::two_slots, crate::proofs::RowLemmas::three_slots), unfolding(flow_code::specs::Builtins::builtin_source))]
pub fn builtin_source(
    alloc: Global,
    builtin: Builtin,
    arguments: &[Expr],
    slots: Vec<Slot>,
) -> Result<Source, NoMemory>
    requires { vec_len slots ≡ length arguments.now }
    ensures { IfOk result
        (λ source. plain_source source
        ≡ plain.builtin_source builtin (exprs_of arguments.now) (map slot_number slots.items)) }
{
    match arguments {
        [_] => {
            let from = slots[0];
            Ok(source_of_one(builtin, from, slots))
        }
        [first, second] => {
            let from = (slots[0], slots[1]);
            source_of_two(alloc, builtin, first, second, from, slots)
        }
        [first, second, third] => {
            let from = (slots[0], slots[1], slots[2]);
            source_of_three(alloc, builtin, first, second, third, from, slots)
        }
        [] => Ok(counted(builtin, slots)),
        [_, _, _, _, ..] => Ok(counted(builtin, slots)),
    }
}
