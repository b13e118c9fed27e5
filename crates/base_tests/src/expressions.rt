//! Expressions and texts, with answers worked out by hand.

use derivatives::{Arena, Steps};
use std::alloc::Global;
use std::test::Fail;
use text_base::{ByteRange, NoMemory};

/// Why a row is not so.
#[derive(Drop)]
enum Fault {
    Memory,
    Row,
}

impl From<NoMemory> for Fault {
    fn from(_: NoMemory) -> Self {
        Fault::Memory
    }
}

/// An expression of one part: any number of it, or some of these members.
fn of_one(arena: &mut Arena, sign: u8, x: usize) -> Result<usize, NoMemory> {
    if sign == b'*' && arena.is_expression(x) {
        return arena.star(x);
    }
    if sign == b')' && arena.is_members(x) {
        return arena.among(x);
    }
    Err(NoMemory)
}

/// An expression of two parts, or members and one more.
fn of_two(arena: &mut Arena, sign: u8, x: usize, y: usize) -> Result<usize, NoMemory> {
    if !arena.is_expression(y) {
        return Err(NoMemory);
    }
    if arena.is_members(x) {
        return arena.member(y, sign == b'!', x);
    }
    if !arena.is_expression(x) {
        return Err(NoMemory);
    }
    if sign == b'.' {
        arena.chain(x, y)
    } else {
        arena.either(x, y)
    }
}

/// The last number of a stack, or one that stands for nothing.
fn taken(stack: &mut Vec<usize>) -> usize {
    stack.pop().unwrap_or(usize::MAX)
}

/// What one sign makes of the numbers on the stack. A letter is that letter, `_` each letter, `0`
/// nothing, `1` the empty text; behind their parts stand `*` (any number), `.` (one behind the
/// other), `|` (one or the other); `(` begins members, `!` and `?` end one that is required or
/// not, and `)` ends all.
fn made(arena: &mut Arena, stack: &mut Vec<usize>, sign: u8) -> Result<usize, NoMemory> {
    match sign {
        b'0' => arena.nothing(),
        b'1' => arena.empty(),
        b'(' => arena.no_members(),
        b'_' => match ByteRange::new(b'a', b'z') {
            Some(letters) => arena.range(letters),
            None => Err(NoMemory),
        },
        b'*' | b')' => {
            let x = taken(stack);
            of_one(arena, sign, x)
        }
        b'.' | b'|' | b'!' | b'?' => {
            let y = taken(stack);
            let x = taken(stack);
            of_two(arena, sign, x, y)
        }
        _ => match ByteRange::new(sign, sign) {
            Some(letter) => arena.range(letter),
            None => Err(NoMemory),
        },
    }
}

/// Whether the expression of these signs matches the text. Each step is asked for twice, and once
/// by the last byte of its class.
fn matches(alloc: Global, form: &str, text: &str) -> Result<bool, Fault> {
    let mut arena = Arena::new(alloc);
    let mut stack = Vec::new(alloc);
    for sign in form.as_bytes() {
        let place = made(&mut arena, &mut stack, *sign)?;
        stack.push(place).map_err(|_| NoMemory)?;
    }
    let mut place = taken(&mut stack);
    let mut steps = Steps::new(alloc, arena);
    for byte in text.as_bytes() {
        if !steps.arena.is_expression(place) {
            return Err(Fault::Row);
        }
        let next = steps.step(place, *byte)?;
        if !steps.arena.is_expression(place) {
            return Err(Fault::Row);
        }
        let again = steps.step(place, *byte)?;
        if !steps.arena.is_expression(place) {
            return Err(Fault::Row);
        }
        let last = steps.arena.class_end(*byte, place);
        if !steps.arena.is_expression(place) {
            return Err(Fault::Row);
        }
        if steps.step(place, last)? != next || again != next {
            return Err(Fault::Row);
        }
        place = next;
    }
    if !steps.arena.is_expression(place) {
        return Err(Fault::Row);
    }
    Ok(steps.arena.may_end(place))
}

/// Whether the expression matches the text where the row says so, and there alone.
fn row_is_so(alloc: Global, row: &str) -> Result<bool, Fail> {
    let Some((form, more)) = row.split_once(" ") else {
        return Ok(false);
    };
    let Some((text, answer)) = more.split_once(" ") else {
        return Ok(false);
    };
    let text = if text == "-" { "" } else { text };
    Ok(matches(alloc, form, text).is_ok_and(|is| is == (answer == "yes")))
}

#[test]
fn expressions(rt: HostRuntime) -> Result<(), Fail> {
    let rows = "0 - no\n0 a no\n1 - yes\n1 a no\na a yes\na b no\na - no\n_ q yes\n_ A no
ab. ab yes\nab. a no\nab. abb no\nab. ba no\nab| a yes\nab| b yes\nab| ab no\nab| - no
ab|* - yes\nab|* abba yes\nab|* abc no\n0* - yes\n0* a no\n1* - yes\n1a. a yes\na0. a no\na0| a yes
ab.*c. c yes\nab.*c. ababc yes\nab.*c. abac no\n_*z. z yes\n_*z. zz yes\n_*z. zy no
a*a. a yes\na*a. aaa yes\na*a. - no\naa|* aa yes\naab.| ab yes\naab.| a yes\naab.| b no
(a!b?) a yes\n(a!b?) ab yes\n(a!b?) ba yes\n(a!b?) b no\n(a!b?) aa no\n(a!b?) - no\n(a!b?) abb no
(a!b!c!) cab yes\n(a!b!c!) bac yes\n(a!b!c!) ab no\n(a!b!c!) abca no
(a*!b?) - yes\n(a*!b?) b yes\n(a*!b?) aab yes\n(a*!b?) baa yes\n(a*!b?) aba no
(ab.?ac.?) abac yes\n(ab.?ac.?) acab yes\n(ab.?ac.?) abab no\n(ab.?ac.?) a no
x(a?b?).y. xy yes\nx(a?b?).y. xbay yes\nx(a?b?).y. xaay no\n() - yes\n() a no";
    for row in rows.lines() {
        assert!(rt; row_is_so(rt.alloc(), row)?, "{row}");
    }
    Ok(())
}
