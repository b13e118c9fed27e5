//! Statements of the small language, and files by PHP's grammar, each with the place where it goes
//! wrong, if it does.

use crate::reading::read_small;
use lr_machine::ReadError;
use lr_tables::Event;
use php_grammar::read_file;
use php_grammar::rules::{COMMA, ECHO, SEMI, VARIABLE};

// What is told, in one word each: '.' is a token, a letter the rule of its place in the alphabet.
fn told(rt: &impl AllocGlobal, kinds: &[u16]) -> Result<String, ReadError> {
    let events = read_small(rt.alloc(), kinds)?;
    let mut text = String::new(rt.alloc());
    for event in &events {
        let letter = match event {
            Event::Token => '.',
            Event::Rule(rule) => ((*rule % 26) as u8 + b'a') as char,
        };
        if text.push(letter).is_err() {
            return Err(ReadError::NoMemory);
        }
    }
    Ok(text)
}

// The place of the first token that does not fit, or 1000.
fn wrong(rt: &impl AllocGlobal, kinds: &[u16]) -> usize {
    match read_small(rt.alloc(), kinds) {
        Err(ReadError::Wrong(place)) => place,
        Err(ReadError::NoMemory) | Ok(_) => 1000,
    }
}

#[test]
fn tells_derivations(rt: HostRuntime) {
    // nothing
    assert_eq!(rt; told(&rt, &[]).as_deref(), Ok("ba"));
    // 1 + 2 * 3;
    assert_eq!(rt;
        told(&rt, &[16, 12, 16, 13, 16, 4]).as_deref(),
        Ok("b.r..r..rnm.eca")
    );
    // 1 * 2 + 3;
    assert_eq!(rt;
        told(&rt, &[16, 13, 16, 12, 16, 4]).as_deref(),
        Ok("b.r..rn..rm.eca")
    );
    // a = !b + c;
    assert_eq!(rt;
        told(&rt, &[15, 10, 14, 15, 12, 15, 4]).as_deref(),
        Ok("b....qo..qmp.eca")
    );
}

#[test]
fn finds_the_first_wrong_token(rt: HostRuntime) {
    // echo;
    assert_eq!(rt; wrong(&rt, &[1, 4]), 1);
    // echo 1
    assert_eq!(rt; wrong(&rt, &[1, 16]), 2);
    // 1 == 2 == 3;
    assert_eq!(rt; wrong(&rt, &[16, 11, 16, 11, 16, 4]), 3);
    // (1;
    assert_eq!(rt; wrong(&rt, &[5, 16, 4]), 2);
    // else
    assert_eq!(rt; wrong(&rt, &[3]), 0);
    // { 1; and nothing
    assert_eq!(rt; wrong(&rt, &[7, 16, 4]), 3);
    // a token that the grammar has not
    assert_eq!(rt; wrong(&rt, &[16, 99]), 1);
}

// Where terminals are no file, if they are none.
fn wrong_place(rt: &impl AllocGlobal, kinds: &[u16]) -> Result<Option<usize>, ReadError> {
    match read_file(rt.alloc(), kinds) {
        Ok(_) => Ok(None),
        Err(ReadError::Wrong(place)) => Ok(Some(place)),
        Err(ReadError::NoMemory) => Err(ReadError::NoMemory),
    }
}

#[test]
fn files_are_read(rt: HostRuntime) {
    // echo $a, $a;
    assert_eq!(rt;
        wrong_place(&rt, &[ECHO, VARIABLE, COMMA, VARIABLE, SEMI]),
        Ok(None)
    );
    // echo $a,;
    assert_eq!(rt;
        wrong_place(&rt, &[ECHO, VARIABLE, COMMA, SEMI]),
        Ok(Some(3))
    );
}
