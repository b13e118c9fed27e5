//! Adding pairs to those that are found.

ghost use Rattle.std.specs.Prelude.{◌≡◌, ◌≤◌, Some, slice_get, OnOk};
ghost use Rattle.derivations.specs.Nodes.{parts_length};
ghost use Rattle.short_sentences.specs.Tables.{IsTable, MakesAt, Adds};

use crate::lengths::parts_length;
use crate::noting::note;
use crate::step::Step;
use crate::table::{Draft, Table};
use derivations::Parts;
use numbered_sets::count;
use summary_decision::Entry;
use tag_sums::Summary;
use text_base::NoMemory;

impl<S: Summary> Step<'_, '_, S> {
    /// Adds the pair of the left side of a production and the sum with a number that its parts
    /// make.
    pub(crate) fn add_known(
        &self,
        table: &mut Table<S::Sum>,
        place: usize,
        parts: Parts,
        number: u64,
    ) -> Result<(), NoMemory>
        requires table { IsTable (S.sum_of self.now.question.now.summary.now) (S.composed
            self.now.question.now.summary.now) (S.is_whole self.now.question.now.summary.now)
            self.now.question.now.grammar.now.productions.items
            self.now.question.now.grammar.now.start self.now.question.now.grammar.now.count
            table.old self.now.taken.now }
        requires makes { (s : S.Sum) × (slice_get table.old.sums.numbered.keys number ≡ Some s) ×
            MakesAt (S.sum_of self.now.question.now.summary.now) (S.composed
            self.now.question.now.summary.now) (S.is_whole self.now.question.now.summary.now)
            self.now.question.now.grammar.now.productions.items
            self.now.question.now.grammar.now.start self.now.taken.now.nodes.nodes.items place
            parts s }
        requires late { self.now.taken.now.length ≤ parts_length
            self.now.taken.now.nodes.nodes.items parts }
        ensures { OnOk result ((s : S.Sum) → slice_get table.old.sums.numbered.keys number ≡ Some
            s → Adds (S.sum_of self.now.question.now.summary.now) (S.composed
            self.now.question.now.summary.now) (S.is_whole self.now.question.now.summary.now)
            self.now.question.now.grammar.now.productions.items
            self.now.question.now.grammar.now.start self.now.question.now.grammar.now.count
            self.now.taken.now table.old table.new place parts s) }
    {
        let entry = Entry {
            nonterminal: self.question.grammar.productions[place].left.0,
            sum: number,
        };
        let draft = Draft {
            production: place as u64,
            parts,
            length: parts_length(self.taken.nodes.as_slice(), parts),
            is_taken: false,
        };
        let _sums = count(&table.sums.numbered);
        note(table, entry, draft)
    }

    /// Adds the pair of the left side of a production and a sum that its parts make.
    pub(crate) fn add(
        &self,
        table: &mut Table<S::Sum>,
        place: usize,
        parts: Parts,
        sum: S::Sum,
    ) -> Result<(), NoMemory>
        requires table { IsTable (S.sum_of self.now.question.now.summary.now) (S.composed
            self.now.question.now.summary.now) (S.is_whole self.now.question.now.summary.now)
            self.now.question.now.grammar.now.productions.items
            self.now.question.now.grammar.now.start self.now.question.now.grammar.now.count
            table.old self.now.taken.now }
        requires makes { MakesAt (S.sum_of self.now.question.now.summary.now) (S.composed
            self.now.question.now.summary.now) (S.is_whole self.now.question.now.summary.now)
            self.now.question.now.grammar.now.productions.items
            self.now.question.now.grammar.now.start self.now.taken.now.nodes.nodes.items place
            parts sum }
        requires late { self.now.taken.now.length ≤ parts_length
            self.now.taken.now.nodes.nodes.items parts }
        ensures { OnOk result (Adds (S.sum_of self.now.question.now.summary.now) (S.composed
            self.now.question.now.summary.now) (S.is_whole self.now.question.now.summary.now)
            self.now.question.now.grammar.now.productions.items
            self.now.question.now.grammar.now.start self.now.question.now.grammar.now.count
            self.now.taken.now table.old table.new place parts sum) }
    {
        let number = table.sums.number_of(sum)?;
        self.add_known(table, place, parts, number)
    }
}
