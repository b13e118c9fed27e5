//! Which command takes which option.

ghost use Rattle.std.specs.Prelude.{◌≡◌};
ghost use Rattle.call_options.specs.Words as spec;

/// Whether the command of this word takes this option.
pub(crate) fn takes(word: &str, name: &str) -> bool
    ensures { result ≡ spec.takes word.now name.now }
{
    if word == "check" {
        return name == "dtd" || name == "limit" || name == "root" || name == "stubs";
    }
    if word == "run" {
        return name == "request" || name == "steps" || name == "root" || name == "stubs";
    }
    if word == "page" {
        return name == "dtd" || name == "root";
    }
    if word == "grammar" {
        return name == "root" || name == "stubs";
    }
    if word == "make" {
        return false;
    }
    if word == "site" {
        return name == "dtd" || name == "limit" || name == "root" || name == "stubs";
    }
    word == "match" && (name == "policy" || name == "root" || name == "stubs")
}
