//! The laws, each the contract of a function that does nothing.

ghost use Rattle.std.specs.Prelude.{◌≡◌, ◌≢◌, ◌≤◌, ◌+◌, ◌*◌, ◌⊎◌, ℕ, List, [], length, false, Contains};
ghost use Rattle.string_functions.specs.Html.{html_of, is_markup};
ghost use Rattle.string_functions.specs.Pieces.{pieces_of, join_of, replaced_text, occurrences_of};
ghost use Rattle.string_functions.specs.Leftmost.{AreLeftmost};
ghost use Rattle.string_functions.specs.Cut.{part_of, IsFactor};
ghost use Rattle.string_functions.specs.Trim.{trim_of};
ghost use Rattle.string_functions.specs.Copies.{copies_of};

/// The pieces joined with the separator are the text, and the separators between them are its
/// leftmost occurrences.
pub fn pieces(sep: &[u8], text: &[u8])
    requires { sep.now ≢ [] }
    ensures joined { join_of sep.now (pieces_of sep.now text.now) ≡ text.now }
    ensures leftmost { AreLeftmost sep.now (pieces_of sep.now text.now) }
    ensures unique { (pieces : List (List ℕ)) → join_of sep.now pieces ≡ text.now →
        AreLeftmost sep.now pieces → pieces ≡ pieces_of sep.now text.now }
{}

/// Each piece is a part of the text.
pub fn pieces_are_parts(sep: &[u8], text: &[u8])
    ensures { (piece : List ℕ) → Contains (pieces_of sep.now text.now) piece
        → IsFactor text.now piece }
{}

/// What replacing leaves has bytes of the text and of the replacement alone.
pub fn bytes_of_replaced(search: &[u8], with: &[u8], text: &[u8])
    ensures { (byte : ℕ) → Contains (replaced_text search.now with.now text.now) byte
        → Contains text.now byte ⊎ Contains with.now byte }
{}

/// Each occurrence that is replaced takes away the length of the search and adds that of the
/// replacement.
pub fn length_of_replaced(search: &[u8], with: &[u8], text: &[u8])
    ensures { length (replaced_text search.now with.now text.now) + occurrences_of search.now
        text.now * length search.now
        ≡ length text.now + occurrences_of search.now text.now * length with.now }
{}

/// An empty search leaves the text, and an empty separator gives no piece.
pub fn empty_search(with: &[u8], text: &[u8])
    ensures replaced { replaced_text [] with.now text.now ≡ text.now }
    ensures pieces { pieces_of [] text.now ≡ [] }
{}

/// What `substr` gives is a part of the text.
pub fn cut_is_part(text: &[u8], start: i64, len: Option<i64>)
    ensures { IsFactor text.now (part_of text.now start len) }
{}

/// What trimming leaves is a part of the text.
pub fn trim_is_part(left: bool, right: bool, text: &[u8])
    ensures { IsFactor text.now (trim_of left right text.now) }
{}

/// An escaped text has no `<`, `>`, `"` or `'`, and is at most six times as long.
pub fn escaped(text: &[u8])
    ensures no_markup { (byte : ℕ) → Contains (html_of text.now) byte → is_markup byte ≡ false }
    ensures short { length (html_of text.now) ≤ 6 * length text.now }
{}

/// Copies of a text are as long as that many texts.
pub fn length_of_copies(count: u64, text: &[u8])
    ensures { length (copies_of count text.now) ≡ count * length text.now }
{}
