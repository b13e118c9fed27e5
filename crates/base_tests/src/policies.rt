//! Pattern files, texts that fit them, and refusals, worked out by hand.

use derivatives::Steps;
use page_policy::{PolicyRefusal, read_policy};
use std::alloc::Global;
use std::test::Fail;

/// Why there is no answer.
#[derive(Drop)]
enum Fault {
    Refused,
    Row,
}

impl From<PolicyRefusal> for Fault {
    fn from(_: PolicyRefusal) -> Self {
        Fault::Refused
    }
}

/// Whether the text fits the pattern of a file.
fn fits(alloc: Global, file: &str, text: &str) -> Result<bool, Fault> {
    let pattern = read_policy(alloc, file.as_bytes())?;
    let mut place = pattern.root;
    let mut steps = Steps::new(alloc, pattern.arena);
    for byte in text.as_bytes() {
        if !steps.arena.is_expression(place) {
            return Err(Fault::Row);
        }
        place = steps.step(place, *byte).map_err(|_| Fault::Row)?;
    }
    if !steps.arena.is_expression(place) {
        return Err(Fault::Row);
    }
    Ok(steps.arena.may_end(place))
}

/// Whether the text fits where the row says so, and there alone. `-` stands for the empty text.
fn row_is_so(alloc: Global, row: &str) -> Result<bool, Fail> {
    let Some((file, more)) = row.split_once(" ") else {
        return Ok(false);
    };
    let Some((text, answer)) = more.split_once(" ") else {
        return Ok(false);
    };
    let text = if text == "-" { "" } else { text };
    Ok(fits(alloc, file, text).is_ok_and(|is| is == (answer == "yes")))
}

#[test]
fn texts_fit_patterns(rt: HostRuntime) -> Result<(), Fail> {
    let rows = " - yes\n a no\na a yes\na b no\na aa no\na - no\na|b a yes\na|b b yes\na|b ab no
b* a no\nb* - yes\nb* bbb yes\nab* abb yes\nab* abab no\n(ab)* abab yes\n(ab)* aba no
ab+ a no\nab+ abb yes\n(ab)+ - no\n(ab)+ abab yes\nab? a yes\nab? ab yes\nab? abb no
a|bc* a yes\na|bc* bcc yes\na|bc* acc no\n(a|b)c ac yes\n(a|b)c a no\n| - yes\na| - yes\na| a yes
() - yes\n()* - yes\n((a)) a yes\n((a|b)*c)+ abcc yes\n((a|b)*c)+ abca no
. a yes\n. - no\n. ab no\n.* anything yes\n.*<ul>(<li>a</li>)*</ul>.* x<ul></ul>y yes
.*<ul>(<li>a</li>)+</ul>.* x<ul></ul>y no\n.*<ul>(<li>a</li>)+</ul>.* <ul><li>a</li></ul> yes
[abc] b yes\n[abc] d no\n[a-c] b yes\n[a-c] d no\n[a-cx-z] y yes\n[a-cx-z] m no\n[^a-c] b no
[^a-c] d yes\n[^a-c] - no\n[a-a] a yes\n[.*+?|()[] . yes\n[.*+?|()[] [ yes\n[.*+?|()[] a no
[\\]\\-\\^] ] yes\n[\\]\\-\\^] - no\n[\\]\\-\\^] ^ yes\n^ ^ yes\na-b a-b yes
\\. . yes\n\\. a no\n\\x41 A yes\n\\x4a J yes\n\\x4A J yes\n\\x41 x41 no\n\\\\ \\ yes\n\\[ [ yes
[\\x41-\\x43] B yes\n[\\x41-\\x43] D no\n{} {} yes\n<\\/ </ yes";
    for row in rows.lines() {
        assert!(rt; row_is_so(rt.alloc(), row)?, "{row}");
    }
    assert!(rt; fits(rt.alloc(), "a\n", "a").is_ok_and(|is| is));
    assert!(rt; fits(rt.alloc(), "a\n\n", "a\n").is_ok_and(|is| is));
    assert!(rt; fits(rt.alloc(), "\\n\\r\\t", "\n\r\t").is_ok_and(|is| is));
    assert!(rt; fits(rt.alloc(), "[^a]", "\n").is_ok_and(|is| is));
    Ok(())
}

/// Whether the file is refused as the row says, as no pattern at this place.
fn is_no_pattern(alloc: Global, row: &str) -> Result<bool, Fail> {
    let Some((file, place)) = row.split_once(" ") else {
        return Ok(false);
    };
    Ok(match read_policy(alloc, file.as_bytes()) {
        Err(PolicyRefusal::NotPattern { at }) => place.parse::<usize>().is_ok_and(|n| n == at),
        _ => false,
    })
}

#[test]
fn files_that_are_no_patterns(rt: HostRuntime) -> Result<(), Fail> {
    let rows = "(a 2\na) 1\n* 0\na** 2\na|* 2\n(* 1\n] 0\na] 1\n[ 0\na[ 1\n[] 0\n[^] 0\n[a 0\n[a- 0
[a-] 0\n[b-a] 0\n[-a] 0\n[a^] 0\n[a-b-c] 0\n\\ 0\na\\ 1\n\\q 0\n\\x 0\n\\x4 0\n\\xg1 0\na)(b 1\n()) 2";
    for row in rows.lines() {
        assert!(rt; is_no_pattern(rt.alloc(), row)?, "{row}");
    }
    Ok(())
}

/// So many bytes of one kind, and so many of another.
fn of_two(alloc: Global, first: u8, second: u8, count: usize) -> Result<Vec<u8>, Fail> {
    let mut bytes = Vec::new(alloc);
    for _turn in 0..count {
        bytes.push(first)?;
    }
    for _turn in 0..count {
        bytes.push(second)?;
    }
    Ok(bytes)
}

#[test]
fn files_beyond_the_limits(rt: HostRuntime) -> Result<(), Fail> {
    let most = of_two(rt.alloc(), b'a', b'|', 2048)?;
    assert!(rt; read_policy(rt.alloc(), &most).is_ok());
    let long = of_two(rt.alloc(), b'(', b'*', 2049)?;
    assert_eq!(rt;
        read_policy(rt.alloc(), &long).err(),
        Some(PolicyRefusal::TooLong { len: 4098 })
    );
    let deepest = of_two(rt.alloc(), b'(', b')', 100)?;
    assert!(rt; read_policy(rt.alloc(), &deepest).is_ok());
    let deep = of_two(rt.alloc(), b'(', b'*', 101)?;
    assert_eq!(rt;
        read_policy(rt.alloc(), &deep).err(),
        Some(PolicyRefusal::TooDeep { at: 100 })
    );
    Ok(())
}
