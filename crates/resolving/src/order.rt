//! The order in which operations are added.

ghost use Rattle.std.specs.Prelude.{◌≡◌, IfOk};
ghost use Rattle.op_bytes.specs.Cycles.{AreNumbers};
ghost use Rattle.resolving.specs.Order.{AreRanked, IsOrder};

use op_system::OpSystem;
use std::alloc::Global;
use text_base::NoMemory;

/// A rule of a system, by its place there, with the number of its left side.
#[derive(Clone, Copy, Debug)]
pub struct Ranked {
    pub number: usize,
    pub place: usize,
}

/// The rules in the order of the system.
fn rules_with_numbers(
    alloc: Global,
    s: &OpSystem,
    numbers: &[usize],
) -> Result<Vec<Ranked>, NoMemory>
    requires { AreNumbers s.now numbers.now }
    ensures { IfOk result (λ ranked. AreRanked s.now numbers.now ranked.items) }
{
    let mut ranked = Vec::new(alloc);
    for (place, rule) in s.ops.as_slice().iter().enumerate() {
        ranked.push(Ranked {
            number: numbers[rule.left.0 as usize],
            place,
        })?;
    }
    Ok(ranked)
}

/// Each rule once, by the numbers of their left sides.
pub fn rules_in_order(
    alloc: Global,
    s: &OpSystem,
    numbers: &[usize],
) -> Result<Vec<Ranked>, NoMemory>
    requires { AreNumbers s.now numbers.now }
    ensures { IfOk result (λ order. IsOrder s.now numbers.now order.items) }
{
    let mut order = rules_with_numbers(alloc, s, numbers)?;
    order.sort_by_key(|ranked| ranked.number)?;
    Ok(order)
}
