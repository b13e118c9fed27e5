//! The report on the scripts of a list: a line of JSON for each, built with `serde_json`.

ghost use Rattle.std.specs.Prelude.{◌≡◌, ◌++◌, ◌∷◌, [], IfOk, OnOk, map, string_bytes};
ghost use Rattle.serde_json.specs.View.{view};
ghost use Rattle.site_check.specs.Report.{data_of, object_of, report, sums_data};
ghost use Rattle.site_check.specs.Report as spec;

use crate::line::Line;
use serde_json::{Value, json};
use std::alloc::{AllocError, Global};
use text_base::{Bytes, NoMemory};

fn sums_value(
    alloc: Global,
    name: &str,
    kind: &str,
    count: u64,
    height: u64,
) -> Result<Value, AllocError>
    ensures { IfOk result (λ v. view v ≡ sums_data name.now kind.now count height) }
{
    json!(in alloc; {"answer": "undecided", "count": count, "file": name, "height": height, "kind": kind})
}

fn refused_value(alloc: Global, name: &str, status: u64, text: &[u8]) -> Result<Value, AllocError>
    ensures { IfOk result (λ v. view v ≡ data_of name.now (Line.Refused status text.now)) }
{
    let text = String::from_utf8_lossy(alloc, text)?;
    let text = text.as_str();
    json!(in alloc; {"answer": "refused", "file": name, "status": status, "text": text})
}

fn value_of(alloc: Global, name: &str, line: &Line) -> Result<Value, AllocError>
    ensures { IfOk result (λ v. view v ≡ data_of name.now line.now) }
{
    match line {
        Line::Yes => json!(in alloc; {"answer": "yes", "file": name}),
        Line::No { length } => {
            let length = *length;
            json!(in alloc; {"answer": "no", "file": name, "length": length})
        }
        Line::Pairs { count, height } => sums_value(alloc, name, "pairs", *count, *height),
        Line::Tags { count, height } => sums_value(alloc, name, "tags", *count, *height),
        Line::Items { count } => {
            let count = *count;
            json!(in alloc; {"answer": "undecided", "count": count, "file": name, "kind": "items"})
        }
        Line::Refused { status, text } => {
            refused_value(alloc, name, *status as u64, text.as_slice())
        }
    }
}

fn add_object(alloc: Global, text: &mut Bytes, name: &str, line: &Line) -> Result<(), NoMemory>
    ensures { OnOk result (text.new ≡ text.old ++ (object_of name.now line.now ++ 10 ∷ [])) }
{
    let value = value_of(alloc, name, line)?;
    let object = value.to_string(alloc)?;
    text.append(object.as_bytes())?;
    text.append(b"\n")?;
    Ok(())
}

/// The report: for each name in turn the object of its line, and a line feed. Bytes of a text that
/// are no UTF-8 stand as U+FFFD.
pub fn report(alloc: Global, names: &[String], lines: &[Line]) -> Result<Bytes, NoMemory>
    ensures { IfOk result (λ text. text ≡ report (map string_bytes names.now) lines.now) }
{
    let mut text = Bytes::new(alloc);
    let mut rest = names;
    let mut left = lines;
    while let Some((name, others)) = rest.split_first() {
        let Some((line, more)) = left.split_first() else {
            return Ok(text);
        };
        add_object(alloc, &mut text, name.as_str(), line)?;
        rest = others;
        left = more;
    }
    Ok(text)
}

impl Line {
    /// Whether the script may print a page that is not good.
    pub fn is_no(&self) -> bool
        ensures { result ≡ spec.is_no self.now }
    {
        matches!(self, Line::No { .. })
    }

    /// Whether the script is not decided, by a count that was passed.
    pub fn is_undecided(&self) -> bool
        ensures { result ≡ spec.is_undecided self.now }
    {
        match self {
            Line::Pairs { .. } | Line::Tags { .. } | Line::Items { .. } => true,
            Line::Yes | Line::No { .. } | Line::Refused { .. } => false,
        }
    }

    /// Whether the script is refused.
    pub fn is_refused(&self) -> bool
        ensures { result ≡ spec.is_refused self.now }
    {
        matches!(self, Line::Refused { .. })
    }
}
