//! What words ask for.

/// A command with the values of its arguments, or what is told of all of them.
///
/// `root` is the folder that includes, and the files of a definition, may not leave, and `stubs` the
/// file whose functions stand for functions of the host; none where the words give none.
#[derive(Clone, Copy, Debug, PartialEq, Eq)]
pub enum CommandLine<'a> {
    /// Tells what the commands and their options are.
    Help,
    /// Tells the version of the program.
    Version,
    /// Decides a script: by the definition of this name, with at most so many pairs of one
    /// nonterminal, by nesting alone where that is asked for, the answer as JSON where that is, and
    /// with a shortest page that is not good where that is.
    Check {
        file: &'a str,
        definition: &'a str,
        root: Option<&'a str>,
        stubs: Option<&'a str>,
        limit: u32,
        by_nesting: bool,
        as_json: bool,
        is_shortest: bool,
    },
    /// Runs a script for the request in a file, or for the empty one, with so many units.
    Run {
        file: &'a str,
        root: Option<&'a str>,
        stubs: Option<&'a str>,
        request: Option<&'a str>,
        steps: u32,
    },
    /// Says of a page whether it is valid by the definition of this name.
    Page {
        file: &'a str,
        definition: &'a str,
        root: Option<&'a str>,
    },
    /// Writes the grammar of the pages of a script.
    Grammar {
        file: &'a str,
        root: Option<&'a str>,
        stubs: Option<&'a str>,
    },
    /// Writes a generated script with so many functions, or checks it.
    Make {
        functions: u32,
        is_checked: bool,
    },
    /// Decides each script of a list: by the definition of this name, with at most so many pairs of
    /// one nonterminal, and by nesting alone where that is asked for.
    Site {
        file: &'a str,
        definition: &'a str,
        root: Option<&'a str>,
        stubs: Option<&'a str>,
        limit: u32,
        by_nesting: bool,
    },
    /// Holds the pages of a script against the pattern in the file of this name.
    Match {
        file: &'a str,
        policy: &'a str,
        root: Option<&'a str>,
        stubs: Option<&'a str>,
    },
}
