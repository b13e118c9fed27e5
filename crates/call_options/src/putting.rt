//! Options put into words.

ghost use Rattle.std.specs.Prelude.{◌≡◌, IfOk, OnOk, map, string_bytes};
ghost use Rattle.call_options.specs.Views.{setting_as, settings_as};
ghost use Rattle.call_options.specs.Words as spec;

use crate::saying::say;
use crate::setting::Setting;
use crate::taking::takes;
use std::alloc::Global;
use text_base::NoMemory;

/// The option as a word with its value.
fn option_word(alloc: Global, setting: &Setting) -> Result<String, NoMemory>
    ensures { IfOk result (λ word. string_bytes word ≡ spec.option_word (setting_as setting.now)) }
{
    let mut word = String::from_str(alloc, "--")?;
    word.push_str(setting.name.as_str())?;
    word.push_str("=")?;
    word.push_str(setting.value.as_str())?;
    Ok(word)
}

/// Whether the option is to stand among the words: their command takes it, and they do not say it.
fn is_wanted(words: &[String], setting: &Setting) -> bool
    ensures { result ≡ spec.is_wanted (map string_bytes words.now) (setting_as setting.now) }
{
    let name = setting.name.as_str();
    match words {
        [] => false,
        [command, rest @ ..] => takes(command.as_str(), name) && !say(rest, name),
    }
}

/// Puts an option into the words, behind the command, where it is to stand there.
fn put_option(alloc: Global, words: &mut Vec<String>, setting: &Setting) -> Result<(), NoMemory>
    ensures { OnOk result (map string_bytes words.new.items
        ≡ spec.with_option (map string_bytes words.old.items) (setting_as setting.now)) }
{
    if !is_wanted(words.as_slice(), setting) {
        return Ok(());
    }
    let word = option_word(alloc, setting)?;
    if words.is_empty() {
        return Ok(());
    }
    words.insert(1, word)?;
    Ok(())
}

/// Puts options into the words of a call, where their command takes them and they do not say them
/// themselves ahead of `--`. Of two options of one name the first counts.
pub fn put_options(
    alloc: Global,
    words: &mut Vec<String>,
    settings: &[Setting],
) -> Result<(), NoMemory>
    ensures { OnOk result (map string_bytes words.new.items
        ≡ spec.with_options (map string_bytes words.old.items) (settings_as settings.now)) }
{
    for setting in settings {
        put_option(alloc, words, setting)?;
    }
    Ok(())
}
