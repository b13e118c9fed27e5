//! The bytes of a walk, one after another.

ghost use Rattle.std.specs.Prelude.{◌≡◌, ◌≤◌, ◌<◌, ◌⊎◌, ◌++◌, ◌∷◌, [], ℕ, min, length, Some, slice_get, vec_len, vec_capacity, MatchOption, option_to_list};
ghost use Rattle.derivations.specs.declared.fork.Fork as forked;
ghost use Rattle.derivations.specs.Forks.{AreForks, rank, bytes_at};
ghost use Rattle.derivations.specs.Stacked.{pending, AreStacked};

use crate::fork::{CHUNK, Fork, Piece};

/// Puts a value behind the others, where there is room.
fn keep<T: Drop>(values: &mut Vec<T>, value: T)
    requires { vec_len values.old < vec_capacity values.old }
    ensures items { values.new.items ≡ values.old.items ++ value ∷ [] }
    ensures room { vec_capacity values.old ≤ vec_capacity values.new }
{
    match values.push(value) {
        Ok(()) => {}
        Err(_) => unreachable!(),
    }
}

/// The first piece of a fork; the second is put on the stack.
fn go_down(forks: &[Fork], place: u64, stack: &mut Vec<Piece>) -> Piece
    requires within { place < length forks.now }
    requires room { vec_len stack.old < vec_capacity stack.old }
    ensures fork { (f : forked.Fork) × (slice_get forks.now place ≡ Some f) × (result ≡ f.first)
        × (stack.new.items ≡ stack.old.items ++ f.second ∷ []) }
    ensures room { vec_capacity stack.old ≤ vec_capacity stack.new }
{
    let fork = forks[place as usize];
    keep(stack, fork.second);
    fork.first
}

/// The first byte of what is on the stack, which is taken from there; none where nothing is.
fn next_byte(forks: &[Fork], stack: &mut Vec<Piece>) -> Option<u8>
    requires lawful { AreForks forks.now }
    requires stacked { AreStacked (length forks.now) 0 stack.old.items }
    requires room { length forks.now < vec_capacity stack.old }
    ensures byte { MatchOption result (pending forks.now stack.old.items ≡ [])
        (λ b. pending forks.now stack.old.items ≡ b ∷ pending forks.now stack.new.items) }
    ensures none { MatchOption result (stack.new.items ≡ []) (λ b. Unit {0}) }
    ensures stacked { AreStacked (length forks.now) 0 stack.new.items }
    ensures room { length forks.now < vec_capacity stack.new }
{
    let mut piece = match stack.pop() {
        Some(piece) => piece,
        None => return None,
    };
    'down: loop {
        match piece {
            Piece::Byte(byte) => return Some(byte),
            Piece::Fork(place) => piece = go_down(forks, place, stack),
        }
    }
}

/// Fills the chunk with the first bytes of what is on the stack, at most so many.
pub(crate) fn fill(forks: &[Fork], stack: &mut Vec<Piece>, most: u64, chunk: &mut Vec<u8>)
    requires lawful { AreForks forks.now }
    requires stacked { AreStacked (length forks.now) 0 stack.old.items }
    requires room { length forks.now < vec_capacity stack.old }
    requires wide { 4096 ≤ vec_capacity chunk.old }
    ensures made { chunk.new.items ++ pending forks.now stack.new.items
        ≡ pending forks.now stack.old.items }
    ensures few { length chunk.new.items ≤ most }
    ensures full { (length chunk.new.items ≡ min most 4096)
        ⊎ (pending forks.now stack.new.items ≡ []) }
    ensures stacked { AreStacked (length forks.now) 0 stack.new.items }
    ensures room { length forks.now < vec_capacity stack.new }
    ensures wide { 4096 ≤ vec_capacity chunk.new }
{
    chunk.clear();
    let count = most.min(CHUNK as u64);
    for _turn in 0..count {
        match next_byte(forks, stack) {
            Some(byte) => keep(chunk, byte),
            None => return,
        }
    }
}

/// Puts the root alone on the stack.
pub(crate) fn restart(root: Option<Piece>, stack: &mut Vec<Piece>)
    requires { 0 < vec_capacity stack.old }
    ensures items { stack.new.items ≡ option_to_list root }
    ensures room { vec_capacity stack.old ≤ vec_capacity stack.new }
{
    stack.clear();
    if let Some(piece) = root {
        keep(stack, piece);
    }
}
