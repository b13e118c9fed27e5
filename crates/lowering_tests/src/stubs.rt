//! Programs with a file of stubs.

use crate::kinds::kinds_of;
use io_edge::MemFiles;
use php_parser::ParseRefusal;
use program_files::{LoadRefusal, ScriptRefusal};
use program_loader::load;
use program_lowering::lower;
use std::alloc::Global;
use std::test::Fail;
use text_base::{Bytes, NoMemory};

// A source of `t.php` and `s.php` with these texts.
fn source_of(alloc: Global, text: &str, stubs: &str) -> Result<MemFiles, NoMemory> {
    let mut held = Vec::new(alloc);
    for (name, text) in [("t.php", text), ("s.php", stubs)] {
        let name = Bytes::from_slice(alloc, name.as_bytes())?;
        let text = Bytes::from_slice(alloc, text.as_bytes())?;
        held.push((name, text))?;
    }
    Ok(MemFiles::new(held, Vec::new(alloc)))
}

// Whether the points of a script with these stubs are of these kinds.
fn has_kinds(alloc: Global, text: &str, stubs: &str, kinds: &str) -> Result<bool, NoMemory> {
    let mut source = source_of(alloc, text, stubs)?;
    let Ok(program) = load(alloc, &mut source, ".", "t.php", Some("s.php")) else {
        return Ok(false);
    };
    let Ok(flow) = lower(alloc, &program) else {
        return Ok(false);
    };
    let found = kinds_of(alloc, &flow)?;
    Ok(found.as_str() == kinds)
}

// Where the word stands for which stubs are refused, as they include something.
fn refused_at(alloc: Global, stubs: &str) -> Result<Option<u32>, NoMemory> {
    let mut source = source_of(alloc, "a", stubs)?;
    match load(alloc, &mut source, ".", "t.php", Some("./s.php")) {
        Err(
            LoadRefusal::Script {
                refusal: ScriptRefusal::Parse(ParseRefusal::NotInSubset { at }),
                ..
            },
        ) => Ok(Some(at)),
        _ => Ok(None),
    }
}

#[test]
fn stubs(rt: HostRuntime) -> Result<(), Fail> {
    for (text, stubs, kinds) in [
        (
            "<?php echo f();",
            "<?php function f() { exit('a'); }",
            "cesr sq ",
        ),
        (
            "<?php echo f();",
            "a<?php echo 1; function f() { exit('a'); }",
            "cesr sq ",
        ),
        (
            "<?php function f($a) { echo $a; }",
            "<?php function f() {} function g() {}",
            "sr sesr sr ",
        ),
        (
            "<?php echo strlen('a');",
            "<?php function strlen($s) { exit; }",
            "ssesr ",
        ),
    ] {
        assert!(rt; has_kinds(rt.alloc(), text, stubs, kinds)?, "{text}");
    }
    let at = refused_at(rt.alloc(), "<?php f(); function f() { include 't.php'; }")?;
    assert!(rt; at == Some(26));
    Ok(())
}
