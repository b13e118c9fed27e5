//! Scripts, with texts that are among their loose pages, and texts that are not.

use crate::scripts::pages_of;
use cfg_grammar::Grammar;
use image_tests::derives;
use std::alloc::Global;
use std::test::Fail;
use text_base::NoMemory;

/// Whether all texts are derived, or none of them; they stand between `|`.
pub fn all_are(
    alloc: Global,
    grammar: &Grammar,
    texts: &str,
    wanted: bool,
) -> Result<bool, NoMemory> {
    for text in texts.split('|') {
        if derives(alloc, grammar, text)? != wanted {
            return Ok(false);
        }
    }
    Ok(true)
}

// Whether a script has these texts among its loose pages, and not those.
fn has_pages(alloc: Global, script: &str, pages: &str, others: &str) -> Result<bool, NoMemory> {
    match pages_of(alloc, script)? {
        None => Ok(false),
        Some(grammar) => {
            Ok(all_are(alloc, &grammar, pages, true)? && all_are(alloc, &grammar, others, false)?)
        }
    }
}

/// Branches are free, and a loop has any number of turns.
#[test]
fn flow(rt: HostRuntime) -> Result<(), Fail> {
    for (script, pages, others) in [
        ("<?php echo 'a';", "a", "|b|aa"),
        ("a<?php echo 1, 'b';", "a1b", "ab|a1|1b"),
        (
            "<?php while (isset($_GET['a'])) { echo 'ab'; }",
            "|ab|abab|ababab",
            "a|b|aba|ba",
        ),
        (
            "<?php if (isset($_GET['a'])) { $x = 'b'; } echo $x, 'c';",
            "c|bc",
            "b|bbc|",
        ),
        ("<?php $x = 'a'; $x = 'b'; echo $x;", "b", "a||ab"),
        (
            "<?php $x = 'a'; while (isset($_GET['b'])) { $x = $x . 'b'; } echo $x;",
            "a|ab|abbb",
            "|b|ba|aab",
        ),
        (
            "<?php $x = 'a'; if (isset($_GET['b'])) { $x = 'b'; } if (isset($_GET['c'])) { $x = 'c'; } echo $x;",
            "a|b|c",
            "|ab|bc",
        ),
        (
            "<?php while (isset($_GET['a'])) { while (isset($_GET['b'])) { echo 'b'; } echo 'a'; }",
            "|a|ba|bba|aba",
            "b|ab|bb",
        ),
        (
            "<?php if (isset($_GET['a'])) { echo 'a'; } else { echo 'b'; } echo 'c';",
            "ac|bc",
            "c|abc|a|b",
        ),
        (
            "<?php $x = 'a'; while ($_GET) { $x .= 'b'; } echo $x;",
            "a|abb",
            "ba|b|abba",
        ),
    ] {
        assert!(rt; has_pages(rt.alloc(), script, pages, others)?, "{script}");
    }
    Ok(())
}

/// A member under a key of the script is told from the others.
#[test]
fn members(rt: HostRuntime) -> Result<(), Fail> {
    for (script, pages, others) in [
        (
            "<?php $a['t'] = '<b>'; $a['u'] = 'x'; echo $a['u'], '.';",
            "x.|.",
            "<b>.|<b>x.|x",
        ),
        (
            "<?php $a['t'] = '<b>'; $a['t'] = 'a'; echo $a['t'], '.';",
            "a.|.",
            "<b>.|a",
        ),
        (
            "<?php $a = ['t' => '<b>', 't' => 'a']; echo $a['t'], '.';",
            "<b>.|a.|.",
            "<b>a.|t.",
        ),
        (
            "<?php $a = ['t' => 'a']; $a[$_GET['k'] ?? ''] = '<b>'; echo $a['t'], '.';",
            "a.|<b>.|.",
            "a<b>.|t.",
        ),
        (
            "<?php $a['x']['y'] = 'b'; echo $a['x']['y'], '.';",
            "b.|Array.|.",
            "bb.|y.",
        ),
        (
            "<?php $a['x']['y'] = 'b'; echo $a['x'], '.';",
            "Array.|.",
            "b.|y.",
        ),
        (
            "<?php while (isset($_GET['b'])) { $a['t'] = $a['t'] . 'c'; } echo $a['t'], '.';",
            ".|c.|ccc.",
            "t.|ct.|",
        ),
        (
            "<?php $a = ['t' => 'c', 'd']; foreach ($a as $v) { echo $v; }",
            "|c|d|cd|dc|cc",
            "t|0|ct",
        ),
        (
            "<?php $a = ['t' => 'c']; foreach ($a as $k => $v) { echo $k; }",
            "|t|tt",
            "c|ct",
        ),
        (
            "<?php $x['k'] = 'a'; $x['k'] = 'b'; echo $x['k'];",
            "b|",
            "a|Array|ab",
        ),
        (
            "<?php $x['k'] = 'a'; $x[$y] = 'b'; echo $x['m'];",
            "b|",
            "a|Array|ab",
        ),
        (
            "<?php $x['k'] = 'a'; $x[$y] = 'b'; echo $x['k'], $x['m'];",
            "ab|bb|a|b|",
            "aa|ba",
        ),
        (
            "<?php $x['k']['m'] = 'a'; echo $x['k']['m'], '.', $x['k'];",
            "a.Array|.Array",
            "a.a|.a|Array.a",
        ),
        (
            "<?php $x = ['k' => ['a'], 'm' => 'c']; echo $x['k'][0], '.';",
            "a.|.",
            "c.|Array.|k.",
        ),
        (
            "<?php $x['k'] = 'a'; echo $x[-1], '.';",
            "a.|.",
            "k.|aa.|-1.",
        ),
        ("<?php $x['k'] = 'a'; echo $x[1], '.';", ".", "a.|k.|1."),
    ] {
        assert!(rt; has_pages(rt.alloc(), script, pages, others)?, "{script}");
    }
    Ok(())
}

/// A function has the arguments of all its calls, and goes back to each; an end of the run ends all
/// calls.
#[test]
fn functions(rt: HostRuntime) -> Result<(), Fail> {
    for (script, pages, others) in [
        (
            "<?php function f() { echo 'a'; exit('b'); } echo 'c'; f(); echo 'd';",
            "cab",
            "ca|c|cabd|cad|cd",
        ),
        (
            "<?php function f() { if (isset($_GET['a'])) { echo 'x'; exit; } echo 'y'; } f(); echo 'z';",
            "x|yz",
            "|y|xz|xyz",
        ),
        (
            "<?php function g() { echo 'a'; exit; } function f() { echo 'b'; g(); echo 'c'; } echo 'd'; f();",
            "dba",
            "d|db|dbac|dbc",
        ),
        (
            "<?php function f($x) { echo $x; } f('a'); echo '.'; f('b');",
            "a.b|a.a|b.a|b.b",
            "ab|a.|.b|.",
        ),
        (
            "<?php function f($x) { return $x; } echo f('a'), f('b');",
            "ab|aa|ba|bb",
            "abb|c|a|b|",
        ),
        (
            "<?php function f($x) { return $x; } function g($y) { echo f($y); } echo f('a'), '.';",
            "a.",
            "aa.|a|.",
        ),
        (
            "<?php function f($x) { if ($x) { return 'a'; } } echo f(1), '.';",
            "a.|.",
            "aa.|a",
        ),
        (
            "<?php function f($x) { if ($x) { return 'a'; } else { return 'b'; return 'c'; } } echo f(1), '.';",
            "a.|b.",
            "c.|.|ab.",
        ),
        (
            "<?php function f($x) { if ($x) { echo 'a'; f($x); echo 'b'; } } f(1);",
            "|ab|aabb|aaabbb",
            "a|aab|abb|ba|abab",
        ),
        (
            "<?php function f() { ?>a<?php exit; } f(); ?>b",
            "a",
            "ab||b",
        ),
        ("<?php function f($p) { echo $p; echo $q; } ?>a", "a", "|aa"),
        (
            "<?php function f($a, $b = -1, $c = 'd') { echo $a, '.', $b, '.', $c; } f('x');",
            "x.-1.d|x.8.d",
            "x..d|x.-1.|.-1.d",
        ),
        (
            "<?php function f($a, $b = -1, $c = 'd') { echo $a, '.', $b, '.', $c; } f(1, 'x', 'y');",
            "1.x.y",
            "1.-1.y|1.x.d|x.x.y",
        ),
        (
            "<?php function f($a) { if ($a) { return $a; } return; } echo f('x'), '.';",
            "x.|.",
            "1.|xx.|x",
        ),
    ] {
        assert!(rt; has_pages(rt.alloc(), script, pages, others)?, "{script}");
    }
    Ok(())
}

/// What the request brings is any text, and an operation in a cycle any text over its bytes.
#[test]
fn operations(rt: HostRuntime) -> Result<(), Fail> {
    for (script, pages, others) in [
        ("<?php echo $_GET['a'];", "|a|<b>", "\u{1}"),
        (
            "<?php echo htmlspecialchars($_GET['a']);",
            "|a|&lt;b&gt;",
            "<b>|<|a&",
        ),
        (
            "<?php echo strtoupper('ab'), strlen('a');",
            "AB1|AB12|AB-3",
            "ab1|AB|A1",
        ),
        (
            "<?php $x = 'a'; while (isset($_GET['b'])) { $x = strtoupper($x); } echo $x;",
            "a|A|AA|",
            "aa|b|aA",
        ),
        (
            "<?php $s = 'a'; while (isset($_GET['n'])) { $s = str_replace('a', 'b', $s); } ?><p><?= $s ?></p>",
            "<p>a</p>|<p>bb</p>|<p></p>|<p>abba</p>",
            "<p>c</p>|<p><p></p>|bb",
        ),
        (
            "<?php $s = 'a]]b'; while (isset($_GET['n'])) { $p = explode(']]', $s); $s = $p[0]; } echo $p[1], '>';",
            ">|b>|]]>|a]]b>",
            "c>|>>|]]",
        ),
        (
            "<?php echo str_repeat('ab', 3), implode('-', ['c', 'd']);",
            "ababc-d|c|abd-c-c|",
            "a|ac|cd|c-",
        ),
    ] {
        assert!(rt; has_pages(rt.alloc(), script, pages, others)?, "{script}");
    }
    Ok(())
}

/// Where one of two sides is evaluated, both are tried, and what is set on one is not set on the
/// other.
#[test]
fn choices(rt: HostRuntime) -> Result<(), Fail> {
    for (script, pages, others) in [
        (
            "<?php $z = 'n'; echo $x && ($z = 'y'), $z;",
            "1y|y|1n|n",
            "|1|yn|0n",
        ),
        (
            "<?php $z = 'n'; echo $x || ($z = 'y'), $z;",
            "1y|y|1n|n",
            "|1|yn|0n",
        ),
        ("<?php $y = 'b'; echo $x ? 'a' : $y;", "a|b", "|ab|ba"),
        ("<?php $x = 'a'; $y = 'b'; echo $x ?: $y;", "a|b", "|ab|ba"),
        (
            "<?php $x['k'] = 'b'; echo $x['k'] ?? 'a';",
            "b|a|",
            "ba|ab|k",
        ),
        (
            "<?php $x['k'] = 'b'; $x['k'] ??= 'a'; echo $x['k'], '.';",
            "b.|a.|.",
            "ba.|k.|a",
        ),
    ] {
        assert!(rt; has_pages(rt.alloc(), script, pages, others)?, "{script}");
    }
    Ok(())
}

/// Parts are evaluated from the left to the right, and then the write is done; what an assignment
/// gives is what it has written.
#[test]
fn writes(rt: HostRuntime) -> Result<(), Fail> {
    for (script, pages, others) in [
        ("<?php $x = 'b'; $x .= 'a'; echo $x;", "ba", "a|b|ab|"),
        (
            "<?php $x['k'][$y] += 2; echo $x['k'][$y], '.';",
            "2.|-7.|.",
            "k.|a.|2",
        ),
        (
            "<?php $y = 'k'; $x[$y][] = $y = 'm'; foreach ($x as $i => $v) { echo $i, '.'; }",
            "|k.|5.|k.5.",
            "m.|k|k.m.",
        ),
        ("<?php $x = $y = 'a'; echo $x, $y;", "aa", "|a|aaa"),
        ("<?php $x = 'b'; echo 'a' . $x;", "ab", "a|b|ba"),
        (
            "<?php $x = 'b'; echo ($x = 'a') === ($y = $x), $y;",
            "1a|a",
            "b|1b|1",
        ),
        ("<?php echo !($x === $y * 2), '.';", "1.|.", "0.|11.|1"),
        (
            "<?php echo isset($x, $y['k']), '.', empty($x), '.';",
            "1.1.|1..|.1.|..",
            "11.|.|0.0.",
        ),
        (
            "<?php $x = 'a'; echo --$x, '.', $x;",
            "-1.-1|5.7",
            "a.a|.|a.5",
        ),
        ("<?php $x = 3; echo $x--, '.', $x;", "3.2|3.-9", "2.2|.|3."),
    ] {
        assert!(rt; has_pages(rt.alloc(), script, pages, others)?, "{script}");
    }
    Ok(())
}

/// What PHP's functions give of literals, and of what is no literal.
#[test]
fn calls(rt: HostRuntime) -> Result<(), Fail> {
    for (script, pages, others) in [
        ("<?php echo ltrim(' a '), '.';", "a .", "a.| a .|."),
        (
            "<?php $x = 'aca'; echo str_replace('a', 'b', $x);",
            "bcb",
            "aca|bca|",
        ),
        ("<?php echo str_replace('', 'b', 'ac');", "ac", "bac|bc|"),
        (
            "<?php $x = 'b'; echo str_replace('a', $x, 'ac');",
            "bc|ac||cab",
            "d|bd",
        ),
        ("<?php echo substr('abc', -2);", "bc", "abc|ab|c|"),
        ("<?php echo substr('abc', 0, 1024);", "abc", "|ab|b"),
        (
            "<?php echo substr('abc', 0, 1025);",
            "abc|ab|b|",
            "ac|ca|abca",
        ),
        (
            "<?php foreach (explode(',', 'a,b') as $p) { echo $p, '.'; }",
            "|a.|b.|a.b.",
            "a,b.|,.|ab.",
        ),
        (
            "<?php $x = ','; foreach (explode($x, 'a,b') as $p) { echo $p, '.'; }",
            "|a.|a,b.|,.|.",
            "ba.|aa.|b",
        ),
        (
            "<?php echo strval(['a']), strval('b');",
            "Arrayb",
            "ab|b|Array",
        ),
        (
            "<?php echo count(['a']), '.', intdiv(4, 2);",
            "1.2|0.-7",
            "a.2|.2|1.",
        ),
        ("<?php echo is_array('a'), '.';", "1.|.", "a.|0."),
    ] {
        assert!(rt; has_pages(rt.alloc(), script, pages, others)?, "{script}");
    }
    Ok(())
}

/// Each statement goes on where it says, and nowhere else.
#[test]
fn statements(rt: HostRuntime) -> Result<(), Fail> {
    for (script, pages, others) in [
        (
            "<?php if ($x) { echo 'a'; } elseif ($y) { echo 'b'; } else { echo 'c'; } echo '.';",
            "a.|b.|c.",
            ".|ab.|ac.|bc.",
        ),
        ("<?php if ($x) { echo 'a'; } echo '.';", "a.|.", "aa.|a|"),
        ("<?php do { echo 'a'; } while ($x);", "a|aa|aaa", "|b"),
        (
            "<?php do { if ($x) { continue; } echo 'a'; break; } while ($y); echo '.';",
            ".|a.",
            "aa.|a|",
        ),
        (
            "<?php while ($x) { while ($y) { if ($z) { break; } echo 'b'; continue; } echo 'd'; break; } echo '.';",
            ".|d.|bd.|bbd.",
            "b.|dd.|bdd.|dbd.",
        ),
        (
            "<p><?php $x = 'a'; echo $x; ?></p>",
            "<p>a</p>",
            "a|<p>a|<p></p>",
        ),
        (
            "<?php function a() { echo 'a'; } function b() { echo 'b'; return 1; } function c() { echo 'c'; } for (a(); b(); c()) { echo 'd'; }",
            "ab|abdcb|abdcbdcb",
            "a|b|abd|abdc|abcdb",
        ),
        (
            "<?php function c() { echo 'c'; } for (;; c()) { if ($x) { exit; } echo 'a'; continue; }",
            "|ac|acac",
            "a|c|aca|aa",
        ),
        (
            "<?php $x = ['k' => 'a']; foreach ($x as $y => $z) { echo $y, $z, '.'; $x[$y] = 'b'; }",
            "|ka.|ka.ka.",
            "kb.|ka.kb.|k.",
        ),
        (
            "<?php foreach (['a', 'b'] as $y) { while ($z) { echo 'c'; continue; } echo $y; continue; } echo '.';",
            ".|a.|ca.|ccab.",
            "c.|cc.|ac.",
        ),
        (
            "<?php echo 'c'; if ($x) { exit('a'); } echo 'b'; exit;",
            "ca|cb",
            "c|cab|a",
        ),
    ] {
        assert!(rt; has_pages(rt.alloc(), script, pages, others)?, "{script}");
    }
    Ok(())
}
