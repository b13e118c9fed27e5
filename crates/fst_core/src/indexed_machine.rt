//! A table with its places as a machine.

ghost use Rattle.std.specs.Prelude.{◌≡◌, ◌<◌, ◌↔◌, ℕ, List, map, All, IfOk, IsTrue};
ghost use Rattle.std.specs.List.{list_all};
ghost use Rattle.text_base.specs.ByteRange.{InRange};
ghost use Rattle.text_base.specs.declared.letter.Letter.{Letter};
ghost use Rattle.fst_core.specs.Fits.{is_fixed};
ghost use Rattle.fst_core.specs.Choices.{stops};
ghost use Rattle.fst_core.specs.Offers.{Offers, OffersLast, IsWithin, offer_of, offers_of};
ghost use Rattle.fst_core.specs.Tables.{TableStep, TableStop};

use crate::indexed::IndexedTable;
use crate::machine::{Machine, Move};
use crate::offering::{offer, offer_last};
use crate::out::Out;
use std::alloc::Global;
use text_base::{ByteRange, NoMemory};

impl IndexedTable {
    /// What the moves of a state offer by the bytes of a range, in their order, each once.
    pub fn moves_from(
        &self,
        alloc: Global,
        state: u64,
        range: ByteRange,
    ) -> Result<Vec<Move<u64>>, NoMemory>
        requires { state < self.now.table.states }
        ensures once { IfOk result
            (λ moves. map offer_of moves.items ≡ offers_of self.now.table.moves.items state range) }
        ensures exact { IfOk result (λ moves. (byte : ℕ) → InRange range byte
            → (t : ℕ) (letters : List Letter) → Offers moves.items byte t letters
            ↔ TableStep self.now.table.moves.items state byte t letters) }
        ensures within { IfOk result (λ moves. All (IsWithin range) moves.items) }
        ensures given { IfOk result
            (λ moves. All (λ m. m.to < self.now.table.states) moves.items) }
    {
        let mut moves = Vec::new(alloc);
        for place in &self.move_places[state as usize] {
            offer(alloc, &mut moves, &self.table.moves[*place], state, range)?;
        }
        Ok(moves)
    }

    /// What the ends of a state put out, in their order, each once.
    pub fn lasts_of(&self, alloc: Global, state: u64) -> Result<Vec<Vec<Out>>, NoMemory>
        requires { state < self.now.table.states }
        ensures once { IfOk result
            (λ lasts. map (λ out. out.items) lasts.items ≡ stops self.now.table.ends.items state) }
        ensures exact { IfOk result (λ lasts. (letters : List Letter)
            → OffersLast lasts.items letters
            ↔ TableStop self.now.table.ends.items state letters) }
        ensures fixed { IfOk result
            (λ lasts. All (λ out. IsTrue (list_all is_fixed out.items)) lasts.items) }
    {
        let mut lasts = Vec::new(alloc);
        for place in &self.end_places[state as usize] {
            offer_last(alloc, &mut lasts, &self.table.ends[*place], state)?;
        }
        Ok(lasts)
    }
}

impl Machine for IndexedTable {
    type State = u64;

    ghost first = { λ indexed. indexed.table.start };

    ghost steps = { λ indexed s byte t letters. TableStep indexed.table.moves.items s byte t letters };

    ghost ends = { λ indexed s letters. TableStop indexed.table.ends.items s letters };

    ghost gives = { λ indexed s. s < indexed.table.states };

    fn copy(&self, _alloc: Global, state: &u64) -> Result<u64, NoMemory> {
        Ok(*state)
    }

    fn start(&self, _alloc: Global) -> Result<u64, NoMemory> {
        Ok(self.table.start)
    }

    fn moves(
        &self,
        alloc: Global,
        state: &u64,
        range: ByteRange,
    ) -> Result<Vec<Move<u64>>, NoMemory> {
        let moves = self.moves_from(alloc, *state, range)?;
        Ok(moves)
    }

    fn last(&self, alloc: Global, state: &u64) -> Result<Vec<Vec<Out>>, NoMemory> {
        let lasts = self.lasts_of(alloc, *state)?;
        Ok(lasts)
    }
}
