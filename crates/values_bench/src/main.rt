//! Measures writes into values that are shared, beside pushes onto a plain vector.
//! Without an argument it makes 1,000 of each kind and prints no times; with a number it makes so
//! many and prints how many times as long each kind takes. It has no clause.
//! Used by: none; it stands at the top.
#![tactic(auto)]

use anyhow::{Context, Result};
use php_values::{Array, Key, Text, Value, Walk};
use plain_values::Fault;
use std::alloc::{AllocError, Global};
use std::env;
use std::rt::{Clock, Env};
use std::time::Instant;
use value_operations::{append_to, key_of_text};

/// How many writes there are without an argument.
const FEW: u32 = 1000;

/// What is measured.
#[derive(Clone, Copy)]
enum Work {
    /// `$a[] = n`.
    Pushes,
    /// `$a['k'][5][] = n`.
    Nested,
    /// `$s .= 'x'`.
    Appends,
    /// `$a['k'][5] .= 'x'`.
    Joins,
    /// `$a = ['k' => $a, 'l' => $a]`, begun again after 900 times.
    Nestings,
    /// `foreach ($a as $v) { $a[] = $v; }`.
    Walked,
    /// `$c = $a`.
    Copies,
}

fn named_key(alloc: Global, name: &[u8]) -> Result<Key, Fault> {
    let text = Text::new(alloc, name)?;
    Ok(key_of_text(alloc, &text)?)
}

fn pushes(alloc: Global, count: u32) -> Result<Array, Fault> {
    let mut array = Array::new(alloc)?;
    for number in 0..count {
        array.push(Value::Int(i64::from(number)))?;
    }
    Ok(array)
}

fn nested(alloc: Global, count: u32) -> Result<Value, Fault> {
    let mut value = Value::Null;
    let path = [Some(named_key(alloc, b"k")?), Some(Key::Int(5)), None];
    for number in 0..count {
        value.write(alloc, &path, Value::Int(i64::from(number)))?;
    }
    Ok(value)
}

fn appends(alloc: Global, count: u32) -> Result<Value, Fault> {
    let more = Value::Text(Text::new(alloc, b"x")?);
    let mut value = Value::Null;
    for _ in 0..count {
        value = append_to(alloc, value, &more)?;
    }
    Ok(value)
}

// The old text is read, the right side evaluated, the old text let go, and the two joined and
// written.
fn joins(alloc: Global, count: u32) -> Result<Value, Fault> {
    let more = Value::Text(Text::new(alloc, b"x")?);
    let path = [Some(named_key(alloc, b"k")?), Some(Key::Int(5))];
    let mut value = Value::Null;
    for _ in 0..count {
        let old = match value.read(&path)? {
            None => Value::Null,
            Some(found) => found.share()?,
        };
        value.release(&path);
        let new = append_to(alloc, old, &more)?;
        value.write(alloc, &path, new)?;
    }
    Ok(value)
}

fn nestings(alloc: Global, count: u32) -> Result<Value, Fault> {
    let k = [Some(named_key(alloc, b"k")?)];
    let l = [Some(named_key(alloc, b"l")?)];
    let mut value = Value::Null;
    for turn in 0..count {
        if turn % 900 == 0 {
            value = Value::Null;
        }
        let before = value.share()?;
        let again = value.share()?;
        value = Value::Null;
        value.write(alloc, &k, before)?;
        value.write(alloc, &l, again)?;
    }
    Ok(value)
}

// The first turn copies one level, and no other does.
fn walked(alloc: Global, count: u32) -> Result<Array, Fault> {
    let mut array = pushes(alloc, count)?;
    let mut walk = Walk::new(&array)?;
    for _ in 0..count {
        if let Some((_, value)) = walk.next()? {
            array.push(value)?;
        }
    }
    Ok(array)
}

fn copies(alloc: Global, count: u32) -> Result<Array, Fault> {
    let array = pushes(alloc, count)?;
    let mut copy = array.share()?;
    for _ in 0..count {
        copy = array.share()?;
    }
    copy.push(Value::Null)?;
    Ok(copy)
}

fn done(alloc: Global, work: Work, count: u32) -> Result<(), Fault> {
    match work {
        Work::Pushes => drop(pushes(alloc, count)?),
        Work::Nested => drop(nested(alloc, count)?),
        Work::Appends => drop(appends(alloc, count)?),
        Work::Joins => drop(joins(alloc, count)?),
        Work::Nestings => drop(nestings(alloc, count)?),
        Work::Walked => drop(walked(alloc, count)?),
        Work::Copies => drop(copies(alloc, count)?),
    }
    Ok(())
}

fn plain_vector(alloc: Global, count: u32) -> Result<Vec<i64>, AllocError> {
    let mut plain = Vec::new(alloc);
    for number in 0..count {
        plain.push(i64::from(number))?;
    }
    Ok(plain)
}

fn asked(rt: &(impl Env + AllocGlobal)) -> Result<Option<u32>> {
    match env::args(rt)?.nth(1) {
        None => Ok(None),
        Some(word) => {
            let count = word.as_str().parse::<u32>().context("a number")?;
            Ok(Some(count))
        }
    }
}

fn measure(
    rt: &(impl Print + Clock + AllocGlobal),
    name: &str,
    work: Work,
    asked: Option<u32>,
) -> Result<()> {
    let count = asked.unwrap_or(FEW);
    let start = Instant::now(rt)?;
    let plain = plain_vector(rt.alloc(), count)?;
    drop(plain);
    let plain_time = start.elapsed(rt)?.as_secs_f64();
    let start = Instant::now(rt)?;
    done(rt.alloc(), work, count)?;
    let time = start.elapsed(rt)?.as_secs_f64();
    match asked {
        None => println!(rt; "{count} {name}: done")?,
        Some(_) => {
            let ratio = time / plain_time;
            println!(rt; "{count} {name}: {time:.4} s, {ratio:.1} times a plain vector")?;
        }
    }
    Ok(())
}

fn main(rt: HostRuntime) -> Result<()> {
    let asked = asked(&rt)?;
    measure(&rt, "pushes", Work::Pushes, asked)?;
    measure(&rt, "pushes two keys deep", Work::Nested, asked)?;
    measure(&rt, "appends to a text", Work::Appends, asked)?;
    measure(&rt, "appends to a text two keys deep", Work::Joins, asked)?;
    measure(
        &rt,
        "arrays that hold the one before twice",
        Work::Nestings,
        asked,
    )?;
    measure(
        &rt,
        "steps of a walk, each with a push",
        Work::Walked,
        asked,
    )?;
    measure(&rt, "copies of an array", Work::Copies, asked)?;
    Ok(())
}
