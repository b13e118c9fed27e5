// Words, and what they ask for.
use command_words::{CommandLine, WordsRefusal, read_words};
use std::alloc::Global;
use std::test::Fail;

const CHECK: CommandLine<'static> = CommandLine::Check {
    file: "t.php",
    definition: "strict",
    root: None,
    stubs: None,
    limit: 10_000,
    by_nesting: false,
    as_json: false,
    is_shortest: false,
};

/// Whether the words, one behind each space, ask for this, or for nothing with this reason.
fn asks_for(
    alloc: Global,
    text: &str,
    wanted: Result<CommandLine<'_>, Option<&str>>,
) -> Result<bool, std::alloc::AllocError> {
    let mut words = Vec::new(alloc);
    for word in text.split(' ') {
        if !word.is_empty() {
            words.push(String::from_str(alloc, word)?)?;
        }
    }
    Ok(match read_words(alloc, words.as_slice()) {
        Ok(line) => wanted == Ok(line),
        Err(WordsRefusal::Usage { reason: None }) => wanted == Err(None),
        Err(
            WordsRefusal::Usage {
                reason: Some(reason),
            },
        ) => wanted == Err(Some(reason.as_str())),
        Err(WordsRefusal::Memory) => false,
    })
}

#[test]
fn words(rt: HostRuntime) -> Result<(), Fail> {
    let alloc = rt.alloc();
    let all = CommandLine::Check {
        file: "t.php",
        definition: "d.dtd",
        root: Some("site"),
        stubs: Some("env.php"),
        limit: 9,
        by_nesting: true,
        as_json: true,
        is_shortest: true,
    };
    let run = CommandLine::Run {
        file: "-",
        root: None,
        stubs: None,
        request: Some("r.json"),
        steps: 10_000_000,
    };
    let cases = [
        ("check t.php", Ok(CHECK)),
        ("check -- t.php", Ok(CHECK)),
        (
            "check t.php --dtd d.dtd --limit 9 --nesting --json --shortest --root site --stubs env.php",
            Ok(all),
        ),
        (
            "check --stubs=env.php --json --limit=9 --root=site --nesting t.php --shortest --dtd=d.dtd",
            Ok(all),
        ),
        ("run --request r.json -", Ok(run)),
        (
            "page p.xhtml --dtd mini",
            Ok(CommandLine::Page {
                file: "p.xhtml",
                definition: "mini",
                root: None,
            }),
        ),
        (
            "grammar --root . -- -t.php",
            Ok(CommandLine::Grammar {
                file: "-t.php",
                root: Some("."),
                stubs: None,
            }),
        ),
        (
            "make 200 --check",
            Ok(CommandLine::Make {
                functions: 200,
                is_checked: true,
            }),
        ),
        (
            "make 1001",
            Ok(CommandLine::Make {
                functions: 1001,
                is_checked: false,
            }),
        ),
        (
            "site --nesting pages --limit=9",
            Ok(CommandLine::Site {
                file: "pages",
                definition: "strict",
                root: None,
                stubs: None,
                limit: 9,
                by_nesting: true,
            }),
        ),
        (
            "match --root=. t.php --policy p.txt",
            Ok(CommandLine::Match {
                file: "t.php",
                policy: "p.txt",
                root: Some("."),
                stubs: None,
            }),
        ),
        ("match t.php", Err(None)),
        (
            "grammar --stubs env.php t.php",
            Ok(CommandLine::Grammar {
                file: "t.php",
                root: None,
                stubs: Some("env.php"),
            }),
        ),
        (
            "page p.xhtml --stubs env.php",
            Err(Some("unexpected argument '--stubs' found")),
        ),
        ("help", Ok(CommandLine::Help)),
        ("help check", Ok(CommandLine::Help)),
        ("-h", Ok(CommandLine::Help)),
        ("check --limit x --help", Ok(CommandLine::Help)),
        ("--version", Ok(CommandLine::Version)),
        (
            "",
            Err(Some("'phpsa' requires a subcommand but one was not provided")),
        ),
        (
            "check",
            Err(Some("the following required arguments were not provided:")),
        ),
        ("chekc t.php", Err(Some("unrecognized subcommand 'chekc'"))),
        ("check t.php --limit x", Err(None)),
        ("check t.php --limit 0", Err(None)),
        ("check t.php --limit 123456789", Err(None)),
        (
            "check t.php u.php",
            Err(Some("unexpected argument 'u.php' found")),
        ),
        (
            "check t.php --json --json",
            Err(Some("the argument '--json' cannot be used multiple times")),
        ),
        (
            "check t.php --dtd",
            Err(Some("a value is required for '--dtd <dtd>' but none was supplied")),
        ),
        (
            "check t.php --steps 5",
            Err(Some("unexpected argument '--steps' found")),
        ),
        (
            "check t.php --version",
            Err(Some("unexpected argument '--version' found")),
        ),
        ("make 0", Err(None)),
        ("make -1", Err(Some("unexpected argument '-1' found"))),
    ];
    for (text, wanted) in cases {
        assert!(rt; asks_for(alloc, text, wanted)?, "{text}");
    }
    Ok(())
}
