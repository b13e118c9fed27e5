//! What a begun production waits for, and where it leads.

ghost use Rattle.std.specs.Prelude.{◌≡◌, slice_get};
ghost use Rattle.grammar_chart.specs.Rules.{awaited_by, awaited_of, read_by, read_on, last_of, passage_by, passage_of};

use crate::keys::{Begun, Entry, Passage, Read};
use cfg_grammar::{Production, Right, Symbol};

/// The production at a place.
pub fn production_at(productions: &[Production], place: u64) -> Option<Production>
    ensures { result ≡ slice_get productions.now place }
{
    productions.get(place as usize).copied()
}

/// The symbol of a right side that is read next, and the state before it; None where all are read.
fn awaited_of_right(right: Right, from: u64, read: Read) -> Option<Entry>
    ensures { result ≡ awaited_by right from read }
{
    match (right, read) {
        (Right::One(symbol), Read::Nothing) => Some(Entry {
            symbol,
            state: from,
        }),
        (Right::Two(symbol, _), Read::Nothing) => Some(Entry {
            symbol,
            state: from,
        }),
        (Right::Two(_, symbol), Read::First(state)) => Some(Entry { symbol, state }),
        _ => None,
    }
}

/// The symbol that is read next, and the state before it; None where all are read.
pub fn awaited(productions: &[Production], begun: Begun) -> Option<Entry>
    ensures { result ≡ awaited_of productions.now begun }
{
    match production_at(productions, begun.place) {
        None => None,
        Some(production) => awaited_of_right(production.right, begun.from, begun.read),
    }
}

/// One symbol more is read, with this state behind it.
fn read_more(read: Read, to: u64) -> Read
    ensures { result ≡ read_by read to }
{
    match read {
        Read::Nothing => Read::First(to),
        Read::First(first) => Read::Both(first, to),
        Read::Both(first, second) => Read::Both(first, second),
    }
}

/// The same production with one symbol more read.
pub fn advanced(begun: Begun, to: u64) -> Begun
    ensures { result ≡ read_on begun to }
{
    Begun {
        place: begun.place,
        from: begun.from,
        read: read_more(begun.read, to),
    }
}

/// The state behind what is read.
fn last(begun: Begun) -> u64
    ensures { result ≡ last_of begun }
{
    match begun.read {
        Read::Nothing => begun.from,
        Read::First(to) => to,
        Read::Both(_, to) => to,
    }
}

/// Where the left side of the production leads, if all of its right side is read.
pub fn whole_passage(production: Production, begun: Begun) -> Passage
    ensures { result ≡ passage_by production begun }
{
    Passage {
        symbol: Symbol::Nt(production.left),
        from: begun.from,
        to: last(begun),
    }
}

/// Where the left side leads, if all of the right side is read.
pub fn passage(productions: &[Production], begun: Begun) -> Option<Passage>
    ensures { result ≡ passage_of productions.now begun }
{
    match production_at(productions, begun.place) {
        None => None,
        Some(production) => Some(whole_passage(production, begun)),
    }
}
