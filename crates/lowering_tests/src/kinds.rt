//! Scripts, with the kinds of their points.

use crate::points::put_functions;
use flow_code::FlowProgram;
use io_edge::MemFiles;
use program_loader::load;
use program_lowering::lower;
use program_rules::Program;
use std::alloc::{AllocError, Global};
use std::test::Fail;
use text_base::{Bytes, NoMemory};

/// A source of `t.php` with this text.
pub fn script(alloc: Global, text: &str) -> Result<MemFiles, NoMemory> {
    let mut held = Vec::new(alloc);
    let name = Bytes::from_slice(alloc, b"t.php")?;
    let text = Bytes::from_slice(alloc, text.as_bytes())?;
    held.push((name, text))?;
    Ok(MemFiles::new(held, Vec::new(alloc)))
}

// The program of a source.
fn loaded(alloc: Global, source: &mut MemFiles) -> Option<Program> {
    load(alloc, source, ".", "t.php", None).ok()
}

// The points of a program.
fn lowered(alloc: Global, program: &Program) -> Option<FlowProgram> {
    lower(alloc, program).ok()
}

/// The points of the script of a source.
pub fn points_of(alloc: Global, source: &mut MemFiles) -> Option<FlowProgram> {
    let program = loaded(alloc, source)?;
    lowered(alloc, &program)
}

/// The kinds of points of a program.
pub fn kinds_of(alloc: Global, flow: &FlowProgram) -> Result<String, AllocError> {
    let mut out = String::new(alloc);
    put_functions(&mut out, flow.functions.as_slice())?;
    Ok(out)
}

// Whether the points of a script are of these kinds.
fn has_kinds(alloc: Global, text: &str, kinds: &str) -> Result<bool, NoMemory> {
    let mut source = script(alloc, text)?;
    match points_of(alloc, &mut source) {
        None => Ok(false),
        Some(flow) => {
            let found = kinds_of(alloc, &flow)?;
            Ok(found.as_str() == kinds)
        }
    }
}

#[test]
fn statements(rt: HostRuntime) -> Result<(), Fail> {
    for (text, kinds) in [
        ("<?php echo 'a';", "sesr "),
        ("a<?php echo 1, 'b';", "psesesr "),
        ("<?php while (isset($_GET['a'])) {}", "sssbjsr "),
        (
            "<?php for ($i = 0; $i < 3; $i++) { echo $i; }",
            "sssssbsessjsr ",
        ),
        ("<?php echo $x ?? 2;", "ssbsssesr "),
        ("<?php foreach ($a as $k=>$v) {}", "swnkvjsr "),
        (
            "<?php while ($x) { while ($y) { break; } continue; }",
            "sbsbjjjjsr ",
        ),
        ("<?php function f($a, $b = 'c') {} f(5);", "sscsr sr "),
        ("<?php function f() { exit('a'); } echo f();", "cesr sq "),
        ("<?php function f($a) { echo $a; }", "sr sesr "),
    ] {
        assert!(rt; has_kinds(rt.alloc(), text, kinds)?, "{text}");
    }
    Ok(())
}

#[test]
fn control(rt: HostRuntime) -> Result<(), Fail> {
    for (text, kinds) in [
        ("a", "psr "),
        ("<?php if ($x) { echo 'a'; }", "sbsejsr "),
        (
            "<?php if ($x) { echo 'a'; } elseif ($y) { echo 'b'; } else { echo 'c'; }",
            "sbsejsbsejsesr ",
        ),
        ("<?php do { echo 'a'; } while ($x);", "sesbsr "),
        ("<?php for (;;) { break; }", "jjsr "),
        ("<?php foreach ($a as $v) { continue; }", "swnvjjsr "),
        ("<?php print $x; exit;", "seq "),
        ("<?php exit(3);", "q "),
        ("<?php function f() { return 1; } f();", "csr sr "),
        ("<?php exit; echo 'a';", "q "),
        ("<?php if ($x) { exit; } else { exit('a'); }", "sbqsq "),
        ("<?php if ($x) { exit; } echo 'a';", "sbqsesr "),
        ("<?php while ($x) { exit; }", "sbqjsr "),
        ("<?php for (;;) { break; echo 'a'; }", "jjsr "),
    ] {
        assert!(rt; has_kinds(rt.alloc(), text, kinds)?, "{text}");
    }
    Ok(())
}

#[test]
fn expressions(rt: HostRuntime) -> Result<(), Fail> {
    for (text, kinds) in [
        ("<?php echo $x ? 'a' : 'b';", "sbssssesr "),
        ("<?php echo $x ?: 'b';", "sbsssesr "),
        ("<?php echo $x && $y;", "sbsssesr "),
        ("<?php echo $x || $y;", "sbsssesr "),
        ("<?php echo isset($x, $y['k']);", "ssssesr "),
        ("<?php echo -$x + 2 * $y;", "ssssssesr "),
        ("<?php echo \"a$x{$y['k']}\";", "sssssesr "),
        ("<?php echo \"$x\";", "sssesr "),
        ("<?php $a = ['k' => $x, $y];", "ssssssssr "),
        ("<?php $a[$x]['k'][] = 'v';", "ssssr "),
        ("<?php $a['k'] .= 'b';", "ssssssr "),
        ("<?php ++$x;", "sssr "),
        (
            "<?php echo str_replace('a', 'b', $x), strlen($x);",
            "ssssessesr ",
        ),
    ] {
        assert!(rt; has_kinds(rt.alloc(), text, kinds)?, "{text}");
    }
    Ok(())
}
