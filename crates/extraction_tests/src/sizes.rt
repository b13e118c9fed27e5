//! Scripts whose systems stay small, however much of what they have is never read or written twice.

use crate::scripts::counts_of;
use std::alloc::Global;
use std::test::Fail;
use text_base::NoMemory;

// A function of 2,000 parameters that is never called: the program has four points.
fn many_parameters(alloc: Global) -> Result<String, NoMemory> {
    let mut text = String::from_str(alloc, "<?php function f($a")?;
    for number in 1..2000u64 {
        let parameter = format!(in alloc; ", $a{number}")?;
        text.push_str(parameter.as_str())?;
    }
    text.push_str(") {}")?;
    Ok(text)
}

// A write under 2,000 keys in one another, which are all the empty text: four points too.
fn many_keys(alloc: Global) -> Result<String, NoMemory> {
    let mut text = String::from_str(alloc, "<?php $x")?;
    for _ in 0..2000u32 {
        text.push_str("['']")?;
    }
    text.push_str(" = 1;")?;
    Ok(text)
}

// 1,000 assignments, 1,000 texts that are printed, and then 1,000 variables: no edge joins another, so
// no definition is joined with another, however many are read far behind.
fn many_definitions(alloc: Global) -> Result<String, NoMemory> {
    let mut text = String::from_str(alloc, "<?php ")?;
    for number in 0..1000u64 {
        let assignment = format!(in alloc; "$x{number} = 'a';")?;
        text.push_str(assignment.as_str())?;
    }
    for _ in 0..1000u32 {
        text.push_str("echo 'b';")?;
    }
    for number in 0..1000u64 {
        let shown = format!(in alloc; "echo $x{number};")?;
        text.push_str(shown.as_str())?;
    }
    Ok(text)
}

// At most 64 nonterminals for each point, each byte and each key that is told apart (once, and once
// a point), and one more; and at most 256 productions and operations, for one key more than these,
// for each point, byte, key and read definition, and one more.
#[test]
fn small_systems(rt: HostRuntime) -> Result<(), Fail> {
    let alloc = rt.alloc();
    let parameters = many_parameters(alloc)?;
    let (nonterminals, rules) = counts_of(alloc, parameters.as_str())?.ok_or("a system")?;
    assert!(rt; nonterminals <= 64 * (4 + 1));
    assert!(rt; rules <= 256 * (4 + 2 + 1));
    let keys = many_keys(alloc)?;
    let (nonterminals, rules) = counts_of(alloc, keys.as_str())?.ok_or("a system")?;
    assert!(rt; nonterminals <= 64 * (4 + 2 + 4 + 1));
    assert!(rt; rules <= 256 * 2 * (4 + 2 + 3 + 1));
    Ok(())
}

// At most three points a statement, and a byte for each of 2,000 of them.
#[test]
fn far_reads(rt: HostRuntime) -> Result<(), Fail> {
    let alloc = rt.alloc();
    let script = many_definitions(alloc)?;
    let (nonterminals, _) = counts_of(alloc, script.as_str())?.ok_or("a system")?;
    assert!(rt; nonterminals <= 64 * (3 * 3000 + 2000 + 1));
    Ok(())
}
