//! The failure function of a pattern (Knuth, Morris and Pratt), and by it how much of the pattern
//! is read after each byte.

ghost use Rattle.std.specs.Prelude.{◌≡◌, ◌==◌, ◌+◌, ◌<◌, ◌≤◌, ℕ, length, slice_index, slice_set, IfOk, if◌then◌else◌};
ghost use Rattle.string_functions.specs.Failure.{AreFailures, IsFailure, next_length};

use std::alloc::Global;
use text_base::NoMemory;

/// For each front of the pattern, from that of one byte on, the length of its longest border that
/// is shorter than it. Takes time linear in the pattern.
pub fn failures(alloc: Global, pattern: &[u8]) -> Result<Vec<usize>, NoMemory>
    ensures { IfOk result (λ failures. AreFailures pattern.now failures.items (length pattern.now)) }
{
    let mut failures = Vec::new(alloc);
    for at in 0..pattern.len() {
        let next = next_failure(pattern, failures.as_slice(), at);
        failures.push(next)?;
    }
    Ok(failures)
}

/// The failure of one byte more than `at`, from those before it.
fn next_failure(pattern: &[u8], failures: &[usize], at: usize) -> usize
    requires at { at < length pattern.now }
    requires before { AreFailures pattern.now failures.now at }
    ensures { IsFailure pattern.now (at + 1) result }
{
    if at == 0 {
        return 0;
    }
    let mut part = failures[at - 1];
    while part > 0 && pattern[part] != pattern[at] {
        part = failures[part - 1];
    }
    if pattern[part] == pattern[at] {
        part + 1
    } else {
        0
    }
}

/// Notes at the byte behind a front of the pattern that one byte more of it is read by it, unless
/// a longer front was noted there.
fn note(row: &mut Vec<usize>, pattern: &[u8], part: usize)
    requires row { length row.old.items ≡ 256 }
    requires part { part < length pattern.now }
    ensures { let byte = slice_index pattern.now part in row.new.items
        ≡ (if slice_index row.old.items byte == 0 then slice_set row.old.items byte
        (part + 1) else row.old.items) }
{
    let byte = usize::from(pattern[part]);
    if row[byte] == 0 {
        row[byte] = part + 1;
    }
}

/// For each byte, how much of the pattern is read after it where `at` bytes were read before.
pub fn next_row(
    alloc: Global,
    pattern: &[u8],
    failures: &[usize],
    at: usize,
) -> Result<Vec<usize>, NoMemory>
    requires at { at < length pattern.now }
    requires failures { AreFailures pattern.now failures.now (length pattern.now) }
    ensures len { IfOk result (λ row. length row.items ≡ 256) }
    ensures exact { IfOk result
        (λ row. (byte : ℕ) → byte < 256 → slice_index row.items byte
        ≡ next_length pattern.now at byte) }
{
    let mut row = vec![in alloc; 0usize; 256]?;
    let mut part = at;
    while part > 0 {
        note(&mut row, pattern, part);
        part = failures[part - 1];
    }
    note(&mut row, pattern, 0);
    Ok(row)
}

/// How much of the pattern is read after the byte where `at` bytes of it were read before. Over a
/// whole text takes time linear in it.
pub fn next_part(pattern: &[u8], failures: &[usize], at: usize, byte: u8) -> usize
    requires at { at < length pattern.now }
    requires failures { AreFailures pattern.now failures.now (length pattern.now) }
    ensures { result ≡ next_length pattern.now at byte }
{
    let mut part = at;
    while part > 0 && pattern[part] != byte {
        part = failures[part - 1];
    }
    if pattern[part] == byte { part + 1 } else { 0 }
}
