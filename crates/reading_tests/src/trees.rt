// Scripts, what they have the same tree as, and what no tree is.
use php_lexer::lex;
use php_parser::{ParseRefusal, parse};
use php_syntax::tree::FileTree;
use php_writer::{read_back, write_tree};
use std::alloc::Global;
use std::test::Fail;
use text_base::Bytes;

/// The script's tree; none where its tokens spell no tree.
fn tree_of(alloc: Global, script: &[u8]) -> Result<Option<FileTree>, Fail> {
    let tokens = lex(alloc, script)?;
    match parse(alloc, tokens.as_slice()) {
        Ok(tree) => Ok(Some(tree)),
        Err(ParseRefusal::NotInSubset { .. }) => Ok(None),
        Err(refusal) => Err(Fail::from(refusal)),
    }
}

/// The script's tree as it is written; none where its tokens spell no tree.
fn read_bytes(alloc: Global, script: &[u8]) -> Result<Option<Bytes>, Fail> {
    match tree_of(alloc, script)? {
        Some(tree) => Ok(Some(write_tree(alloc, &tree)?)),
        None => Ok(None),
    }
}

/// A statement after the opener.
fn statement(alloc: Global, text: &str) -> Result<Option<Bytes>, Fail> {
    let mut script = Bytes::from_slice(alloc, b"<?php ")?;
    script.append(text.as_bytes())?;
    read_bytes(alloc, script.as_slice())
}

// PHP manual, "Operator Precedence": what binds tighter, and to which side equal operators lean.
#[test]
fn precedence(rt: HostRuntime) -> Result<(), Fail> {
    let alloc = rt.alloc();
    for (plain, bracketed) in [
        ("-$a[0];", "-($a[0]);"),
        ("(int) $a + 1;", "((int) $a) + 1;"),
        ("-1 * 2;", "(-1) * 2;"),
        ("!$a == 1;", "(!$a) == 1;"),
        ("1 + 2 * 3;", "1 + (2 * 3);"),
        ("8 % 3 * 2;", "(8 % 3) * 2;"),
        ("1 - 2 - 3;", "(1 - 2) - 3;"),
        ("1 - 2 + 3;", "(1 - 2) + 3;"),
        ("'a' . 1 + 2;", "'a' . (1 + 2);"),
        ("1 < 2 . 'a';", "1 < (2 . 'a');"),
        ("1 < 2 == 3 >= 4;", "(1 < 2) == (3 >= 4);"),
        ("1 != 2 && 3 === 4;", "(1 != 2) && (3 === 4);"),
        ("$a || $b && $c;", "$a || ($b && $c);"),
        ("$a && $b && $c;", "($a && $b) && $c;"),
        ("$a || $b || $c;", "($a || $b) || $c;"),
        ("$a ?? $b || $c;", "$a ?? ($b || $c);"),
        ("$a ?? $b ?? $c;", "$a ?? ($b ?? $c);"),
        ("$a ?? $b ? 1 : 2;", "($a ?? $b) ? 1 : 2;"),
        ("$x = $a ? 1 : 2;", "$x = ($a ? 1 : 2);"),
        ("$x = $y .= 'b' . 'c';", "$x = ($y .= ('b' . 'c'));"),
    ] {
        let tree = statement(alloc, plain)?;
        assert!(rt; tree.is_some(), "{plain}");
        assert_eq!(rt; tree, statement(alloc, bracketed)?, "{plain}");
    }
    Ok(())
}

// The other way round it is another tree.
#[test]
fn other_brackets(rt: HostRuntime) -> Result<(), Fail> {
    let alloc = rt.alloc();
    for (plain, bracketed) in [
        ("1 + 2 * 3;", "(1 + 2) * 3;"),
        ("1 - 2 - 3;", "1 - (2 - 3);"),
        ("'a' . 1 + 2;", "('a' . 1) + 2;"),
        ("'a' . 'b' . 'c';", "('a' . 'b') . 'c';"),
        ("$a || $b && $c;", "($a || $b) && $c;"),
        ("$a ?? $b ?? $c;", "($a ?? $b) ?? $c;"),
        ("$a ?: 2;", "$a ? $a : 2;"),
        ("die('x');", "die;"),
        ("exit(1 + 2);", "exit(3);"),
        ("exit(- -3);", "exit(-3);"),
        ("exit(-PHP_INT_MIN);", "exit(PHP_INT_MIN);"),
        (
            "if ($a) if ($b) echo 1; else echo 2;",
            "if ($a) { if ($b) echo 1; } else echo 2;",
        ),
    ] {
        let tree = statement(alloc, plain)?;
        assert!(rt; tree.is_some(), "{plain}");
        assert!(rt; tree != statement(alloc, bracketed)?, "{plain}");
    }
    Ok(())
}

// PHP manual, "Alternative syntax for control structures", and the pages of each statement.
#[test]
fn alternative_forms(rt: HostRuntime) -> Result<(), Fail> {
    let alloc = rt.alloc();
    for (one, other) in [
        ("Print 1;", "ECHO 1;"),
        ("echo 1, 2; {}", ";; { echo 1, 2; }"),
        (
            "if ($a) echo 1; elseif ($b) echo 2; else echo 3;",
            "if ($a): echo 1; elseif ($b): echo 2; else: echo 3; endif;",
        ),
        (
            "if ($a) echo 1; else if ($b) echo 2;",
            "if ($a) { echo 1; } elseif ($b) { echo 2; }",
        ),
        (
            "if ($a) if ($b) echo 1; else echo 2;",
            "if ($a) { if ($b) { echo 1; } else { echo 2; } }",
        ),
        ("while ($a) echo 1;", "while ($a): echo 1; endwhile;"),
        (
            "for ($i = 0, $j = 1; $i < 9; $i++, $j--) echo $i;",
            "for ($i = 0, $j = 1; $i < 9; $i++, $j--): echo $i; endfor;",
        ),
        (
            "foreach ($a as $k => $v) echo $k;",
            "foreach ($a as $k => $v): echo $k; endforeach;",
        ),
        ("do echo 1; while ($a);", "do { echo 1; } while ($a);"),
        ("include 'a';", "require ('a');"),
        ("die('x');", "EXIT('x');"),
        ("exit;", "Die();"),
        ("exit;", "exit(3);"),
        ("exit;", "exit(-3);"),
        ("exit;", "exit((PHP_INT_MAX));"),
        ("exit;", "exit(-PHP_INT_MAX);"),
        ("$a <> 1;", "$a != 1;"),
        ("array(1, 'k' => 2);", "[1, 'k' => 2,];"),
        ("(string) $a;", "StrVal($a);"),
        (
            "HtmlSpecialChars($a, ENT_QUOTES, 'utf-8');",
            "htmlspecialchars($a);",
        ),
        ("isset(($a));", "isset($a);"),
        ("?><?= $a ?>", "echo $a;"),
        ("echo \"a$b[0]c\";", "echo \"a{$b[0]}c\";"),
    ] {
        let tree = statement(alloc, one)?;
        assert!(rt; tree.is_some(), "{one}");
        assert_eq!(rt; tree, statement(alloc, other)?, "{one}");
    }
    Ok(())
}

// Each rule beside the grammar: a statement that keeps it, and one that breaks it.
#[test]
fn rules(rt: HostRuntime) -> Result<(), Fail> {
    let alloc = rt.alloc();
    for (keeps, breaks) in [
        ("while (1) { if ($a) break; }", "if ($a) break;"),
        ("do continue; while (1);", "continue;"),
        ("function f() { return 1; }", "return 1;"),
        (
            "function f() { while (1) break; }",
            "while (1) { function f() { break; } }",
        ),
        ("isset($a['b'][0]);", "isset(1);"),
        ("empty($a);", "empty(f());"),
        ("$a[1][] = 1;", "$a[][1] = 1;"),
        ("$a[1] += 1;", "$a[] += 1;"),
        ("echo $a[1];", "echo $a[];"),
        ("function f($a, $b = -1) {}", "function f($a, $a) {}"),
        ("function f($a = 'x') {}", "function f($a = f()) {}"),
        ("echo $_GET['a'];", "$_GET['a'] = 1;"),
        ("foreach ($_GET as $k => $v) ;", "foreach ($a as $_GET) ;"),
        ("echo $that;", "echo $this;"),
        ("echo $globals;", "echo $GLOBALS;"),
        ("echo $_files;", "echo $_FILES;"),
        ("$session['a'] = 1;", "$_SESSION['a'] = 1;"),
        ("$a .= $b[1];", "$a .= $b[$_ENV];"),
        ("function f($v) {}", "function f($argv) {}"),
        (
            "foreach ($a as $k => $v) ;",
            "foreach ($a as $argc => $v) ;",
        ),
        ("foreach ($a as $v) ;", "foreach ($a as $argv) ;"),
        ("$c++;", "$argc++;"),
        ("isset($a['b']);", "isset($_SESSION['b']);"),
        ("echo \"$a[$k]\";", "echo \"$a[$argv]\";"),
        ("echo \"{$a['b']}\";", "echo \"{$_FILES['b']}\";"),
        ("exit('a');", "exit 'a';"),
        ("exit('a' . 'b');", "exit('a') . 'b';"),
        ("exit('a');", "exit('a',);"),
        ("$exit = 1;", "echo exit;"),
        ("exit();", "exit(1, 2);"),
        ("f(); exit;", "f() || exit;"),
        ("quit(1);", "$a = die(1);"),
        ("function quit() {}", "function Exit() {}"),
        ("function dies() {}", "function die() {}"),
        ("exit(isset($a));", "exit(isset(1));"),
        ("echo PHP_EOL;", "echo php_eol;"),
        ("$x = 1;", "($x) = 1;"),
        ("1 < 2;", "1 < 2 < 3;"),
        ("$a ? 1 : 2;", "$a ? 1 : 2 ? 3 : 4;"),
        (
            "if ($a): if ($b) echo 1; ; else: echo 2; endif;",
            "if ($a): if ($b) echo 1; else: echo 2; endif;",
        ),
        ("if ($a): endif;", "if ($a): endif"),
    ] {
        assert!(rt; statement(alloc, keeps)?.is_some(), "{keeps}");
        assert!(rt; statement(alloc, breaks)?.is_none(), "{breaks}");
    }
    Ok(())
}

// What is written of a tree is read as the same tree.
#[test]
fn written_and_read_again(rt: HostRuntime) -> Result<(), Fail> {
    let alloc = rt.alloc();
    for script in [
        "<?php echo str_replace('aa', 'b', 'aaa');",
        "<?php echo substr('abc', -2), ucfirst('ab'), urlencode('a b~'), rawurlencode('a b~');",
        "<?php $a = [5 => 'x']; $a[] = 'y'; foreach ($a as $k => $v) echo $k, $v;",
        "<?php echo -7 % 3;",
        "<?php echo 0 == 'a' ? 't' : 'f';",
        "<?php echo implode('-', explode(',', 'a,,b'));",
        "<html>\n<?php if (isset($_GET['n'])): ?>\n\n<p><?= $_GET['n'] ?></p><?php endif ?></html>",
        "<?php function f($a, $b = 1) { while ($a--) { if ($a == $b) return -$a; } } echo \"$x[1] and {$y['k'][$z]}\";",
        "<?php if ($a) exit; elseif ($b) die('x' . $b); else exit(4);",
        "",
    ] {
        match tree_of(alloc, script.as_bytes())? {
            None => assert!(rt; false, "{script}"),
            Some(tree) => {
                let written = write_tree(alloc, &tree)?;
                let again = read_back(alloc, &tree)?;
                assert_eq!(rt; write_tree(alloc, &again)?, written, "{script}");
            }
        }
    }
    Ok(())
}
