// The rows of the table, in its order.
use self::Outcome::{Breaks, NotInSubset, Read, TooDeep};
use lexical_grammar::fault::LexicalFault;
use lexical_grammar::fault::LexicalFault::{BadByte, BigInt, Escape, Float, Unclosed};
use php_lexer::{LexRefusal, lex};
use php_parser::{ParseRefusal, parse};
use std::alloc::Global;
use std::test::Fail;
use text_base::Bytes;
use text_base::limits::HEIGHT_LIMIT;

/// Whether a script is read, or by which refusal it is refused.
#[derive(Clone, Copy, Debug, PartialEq, Eq)]
enum Outcome {
    Read,
    Breaks(LexicalFault),
    NotInSubset,
    TooDeep,
}

fn outcome_of(alloc: Global, script: &[u8]) -> Result<Outcome, Fail> {
    let tokens = match lex(alloc, script) {
        Ok(tokens) => tokens,
        Err(LexRefusal::Breaks { fault, .. }) => return Ok(Breaks(fault)),
        Err(refusal) => return Err(Fail::from(refusal)),
    };
    match parse(alloc, tokens.as_slice()) {
        Ok(_) => Ok(Read),
        Err(ParseRefusal::NotInSubset { .. }) => Ok(NotInSubset),
        Err(ParseRefusal::TooDeep { .. }) => Ok(TooDeep),
        Err(refusal) => Err(Fail::from(refusal)),
    }
}

#[test]
fn the_page(rt: HostRuntime) -> Result<(), Fail> {
    for (script, wanted) in [
        ("<p>a</p>\n", Read),
        ("<?= $x ?>", Read),
        ("<?php\necho 1;\n", Read),
        ("<? echo 1; ?>", Read),
        ("<?php // a\n# b\n/* c */ echo 1;", Read),
        ("<?php #[A]\nfunction f() { }", Breaks(BadByte)),
        ("<?php echo 'a', 1; print 'b';", Read),
        ("<?php $x = print 'a';", NotInSubset),
        ("<?php exit; exit(3); die('x');", Read),
        ("<?php f() or die('x');", NotInSubset),
    ] {
        let found = outcome_of(rt.alloc(), script.as_bytes())?;
        assert_eq!(rt; found, wanted, "{script}");
    }
    Ok(())
}

#[test]
fn values(rt: HostRuntime) -> Result<(), Fail> {
    for (script, wanted) in [
        ("<?php echo 0, 42, 9223372036854775807;", Read),
        ("<?php echo 9223372036854775808;", Breaks(BigInt)),
        ("<?php echo 0x1F;", Breaks(BadByte)),
        ("<?php echo 1.5;", Breaks(Float)),
        ("<?php echo 'it\\'s \\\\ \\d';", Read),
        ("<?php echo \"a\\n\\\"b\\\"\";", Read),
        ("<?php echo \"$x $x[k] $x[0] {$x['k'][0]}\";", Read),
        ("<?php echo \"\\d\";", Breaks(Escape)),
        ("<?php echo \"\\x41\";", Breaks(Escape)),
        ("<?php echo \"$o->p\";", Breaks(Escape)),
        ("<?php echo \"${x}\";", Breaks(Escape)),
        ("<?php echo <<<A\nx $y\nA;\necho <<<'B'\nx\nB;\n", Read),
        ("<?php echo <<<A\n  x\n  A;\n", Breaks(Unclosed)),
        ("<?php echo <<<A\n\\\"\nA;\n", Breaks(Escape)),
        ("<?php echo 'a;", Breaks(Unclosed)),
        ("<?php $a = array(1, 'k' => 2); $b = [1, [2], ];", Read),
        ("<?php echo TRUE, null, PHP_EOL;", Read),
        ("<?php echo SITE_NAME;", NotInSubset),
        ("<?php const X = 1;", NotInSubset),
        ("<?php include __DIR__ . '/a.php';", NotInSubset),
    ] {
        let found = outcome_of(rt.alloc(), script.as_bytes())?;
        assert_eq!(rt; found, wanted, "{script}");
    }
    Ok(())
}

#[test]
fn variables(rt: HostRuntime) -> Result<(), Fail> {
    for (script, wanted) in [
        ("<?php $x = 1; $x .= 'a'; $x += 1; $x ??= 2;", Read),
        ("<?php $a['k'][1] = 1; $a[] = 2;", Read),
        ("<?php $a[][0] = 1;", NotInSubset),
        ("<?php $x++; --$x;", Read),
        ("<?php $a['k']++;", NotInSubset),
        ("<?php echo $_GET['a'], $_SERVER['REQUEST_METHOD'];", Read),
        ("<?php $_GET['a'] = 'x';", NotInSubset),
        ("<?php echo $_SESSION['a'];", NotInSubset),
        ("<?php echo $GLOBALS['x'];", NotInSubset),
        ("<?php function f() { global $x; }", NotInSubset),
        ("<?php function f() { static $n = 0; }", NotInSubset),
        ("<?php echo $$x;", Breaks(BadByte)),
        ("<?php foreach ($a as &$v) { }", Breaks(BadByte)),
        ("<?php list($a, $b) = f();", NotInSubset),
        ("<?php unset($x);", Read),
    ] {
        let found = outcome_of(rt.alloc(), script.as_bytes())?;
        assert_eq!(rt; found, wanted, "{script}");
    }
    Ok(())
}

#[test]
fn expressions(rt: HostRuntime) -> Result<(), Fail> {
    for (script, wanted) in [
        ("<?php echo 'a' . (1 + 2) * 3 % 4 - -5;", Read),
        ("<?php echo $a / $b;", Breaks(BadByte)),
        ("<?php echo $x ** 2;", NotInSubset),
        ("<?php echo +$x;", NotInSubset),
        ("<?php echo $a == 1, $a !== 'b', $a <> 1, $a <= 2;", Read),
        ("<?php echo $a <=> $b;", NotInSubset),
        ("<?php echo $a && !$b || $c;", Read),
        ("<?php if ($a and $b) { }", NotInSubset),
        ("<?php echo $a & 4;", Breaks(BadByte)),
        ("<?php echo 1 << 2;", NotInSubset),
        ("<?php echo $a ? 1 : 2, $a ?: 3, $a ?? $b ?? 4;", Read),
        ("<?php echo $a ?: $b ?: $c;", NotInSubset),
        ("<?php echo (int) $x, (string) $y;", Read),
        ("<?php echo (bool) $x;", NotInSubset),
        ("<?php echo isset($a['k'], $b), empty($a);", Read),
        ("<?php echo empty(f());", NotInSubset),
        ("<?php while (($x = f()) !== null) { }", Read),
        ("<?php if (!$x = f()) { }", NotInSubset),
        ("<?php echo $s[0];", Read),
        ("<?php echo 'abc'[0];", NotInSubset),
        ("<?php echo @$a['k'];", Breaks(BadByte)),
        ("<?php echo STRLEN(trim($x));", Read),
        (
            "<?php echo htmlspecialchars($x, ENT_QUOTES, 'UTF-8');",
            Read,
        ),
        ("<?php $f = function ($x) { return $x; };", NotInSubset),
        ("<?php f(1,);", NotInSubset),
        ("<?php $o = new User;", NotInSubset),
        ("<?php eval('x');", Read),
        ("<?php echo `ls`;", Breaks(BadByte)),
    ] {
        let found = outcome_of(rt.alloc(), script.as_bytes())?;
        assert_eq!(rt; found, wanted, "{script}");
    }
    Ok(())
}

#[test]
fn statements(rt: HostRuntime) -> Result<(), Fail> {
    for (script, wanted) in [
        (
            "<?php if ($a) { echo 1; } elseif ($b) echo 2; else if ($c) { } else { }",
            Read,
        ),
        (
            "<?php if ($a): ?>x<?php elseif ($b): ?>y<?php else: ?>z<?php endif; ?>",
            Read,
        ),
        (
            "<?php while ($a) { } do { } while ($a); for ($i = 0, $j = 1; $i < 9; $i++) { } while ($a): endwhile;",
            Read,
        ),
        (
            "<?php foreach ($a as $k => $v) { } foreach ($a as $v): endforeach;",
            Read,
        ),
        ("<?php foreach ($a as [$x, $y]) { }", NotInSubset),
        ("<?php while (1) { if ($a) break; continue; }", Read),
        ("<?php while (1) { break 2; }", NotInSubset),
        ("<?php switch ($x) { case 1: echo 'a'; }", NotInSubset),
        ("<?php echo match ($x) { 1 => 'a' };", NotInSubset),
        ("<?php goto a;", NotInSubset),
        ("<?php try { f(); } catch (E $e) { }", NotInSubset),
        ("<?php function f($a, $b = -1) { return $a; }", Read),
        ("<?php function f($o = array()) { }", NotInSubset),
        ("<?php function f(int $x) { }", NotInSubset),
        ("<?php function f(...$a) { }", NotInSubset),
        ("<?php if (1) { function f() { } }", NotInSubset),
        ("<?php function f() { yield 1; }", NotInSubset),
        ("<?php return 1;", NotInSubset),
        ("<?php declare(strict_types=1);", NotInSubset),
        ("<?php class A { }", NotInSubset),
        ("<?php namespace App;", NotInSubset),
        ("<?php echo \\trim('a');", Breaks(BadByte)),
        ("<?php include 'a.php'; require('b.php');", Read),
        ("<?php require_once 'a.php';", NotInSubset),
        ("<?php include $path;", NotInSubset),
        ("<?php $x = include 'a.php';", NotInSubset),
    ] {
        let found = outcome_of(rt.alloc(), script.as_bytes())?;
        assert_eq!(rt; found, wanted, "{script}");
    }
    Ok(())
}

#[test]
fn over_200_brackets(rt: HostRuntime) -> Result<(), Fail> {
    for (count, wanted) in [(HEIGHT_LIMIT, Read), (HEIGHT_LIMIT + 1, TooDeep)] {
        let mut script = Bytes::from_slice(rt.alloc(), b"<?php echo ")?;
        for _ in 0..count {
            script.append(b"(")?;
        }
        script.append(b"1")?;
        for _ in 0..count {
            script.append(b")")?;
        }
        script.append(b";")?;
        let found = outcome_of(rt.alloc(), script.as_slice())?;
        assert_eq!(rt; found, wanted, "{count} brackets");
    }
    Ok(())
}
