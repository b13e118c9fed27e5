//! The lines of a generated script, one behind the other.

ghost use Rattle.std.specs.Prelude.{◌≡◌, ◌++◌, ◌+◌, ◌≤◌, OnOk, decimal};
ghost use Rattle.script_maker.specs.Made as spec;

use itoa::Buffer;
use std::alloc::AllocError;

fn put_number(script: &mut Vec<u8>, number: u32) -> Result<(), AllocError>
    ensures { OnOk result (script.new.items ≡ script.old.items ++ decimal number) }
{
    let mut buffer = Buffer::new();
    script.extend_from_slice(buffer.format(number).as_bytes())
}

fn put(script: &mut Vec<u8>, text: &[u8]) -> Result<(), AllocError>
    ensures { OnOk result (script.new.items ≡ script.old.items ++ text.now) }
{
    script.extend_from_slice(text)
}

/// Puts the line of a function that calls another one.
fn put_line(script: &mut Vec<u8>, own: u32, called: u32) -> Result<(), AllocError>
    ensures { OnOk result (script.new.items ≡ script.old.items ++ spec.line_of own called) }
{
    put(script, b"function f")?;
    put_number(script, own)?;
    put(script, b"() { echo '<div>'; while (isset($_GET['k")?;
    put_number(script, own)?;
    put(script, b"'])) { f")?;
    put_number(script, called)?;
    put(script, b"(); } echo '</div>'; }\n")?;
    Ok(())
}

/// Puts the lines of the functions from 1 to this one.
fn put_callers(script: &mut Vec<u8>, last: u32) -> Result<(), AllocError>
    ensures { OnOk result (script.new.items ≡ script.old.items ++ spec.lines_from 0 last) }
{
    for called in 0..last {
        put_line(script, called + 1, called)?;
    }
    Ok(())
}

/// Puts the page whose body is what this function prints.
fn put_page(script: &mut Vec<u8>, last: u32) -> Result<(), AllocError>
    ensures { OnOk result (script.new.items ≡ script.old.items ++ spec.page_of last) }
{
    put(script, b"?>")?;
    put(
        script,
        b"<!DOCTYPE html PUBLIC \"-//W3C//DTD XHTML 1.0 Strict//EN\" \"http://www.w3.org/TR/xhtml1/DTD/xhtml1-strict.dtd\">",
    )?;
    put(
        script,
        b"<html xmlns=\"http://www.w3.org/1999/xhtml\"><head><title>t</title></head><body>",
    )?;
    put(script, b"<?php f")?;
    put_number(script, last)?;
    put(script, b"(); ?>")?;
    put(script, b"</body></html>")?;
    Ok(())
}

/// Puts the script whose last function has this number.
pub(crate) fn put_script(script: &mut Vec<u8>, last: u32) -> Result<(), AllocError>
    ensures { OnOk result (script.new.items ≡ script.old.items ++ spec.made (last + 1)) }
{
    put(script, b"<?php\n")?;
    put(
        script,
        b"function f0() { echo '<div>'; while (isset($_GET['k0'])) { echo '<p>0</p>'; } echo '</div>'; }\n",
    )?;
    put_callers(script, last)?;
    put_page(script, last)?;
    Ok(())
}
