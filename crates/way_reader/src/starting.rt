//! The ways in which the pieces of a page begin, by the numbers of their forms.

ghost use Rattle.std.specs.Prelude.{◌≡◌, ◌++◌, ◌∷◌, [], ◌≤◌, ℕ, IfOk, OnOk};
ghost use Rattle.way_reader.specs.Starts as spec;

use crate::reader::Starts;
use crate::way::{Spot, Way};
use byte_readers::Emit;
use partial_derivatives::{Part, Row};
use std::alloc::Global;
use text_base::{Elem, NoMemory, PageToken};

// Where the numbers of the forms stand.
const REFERENCE: usize = 0;

const MARK: usize = 6;

const DECLARATION: usize = 7;

const BLANK: usize = 8;

const BRACKET: usize = 9;

const SECTION: usize = 10;

const COMMENT: usize = 11;

const INSTRUCTION: usize = 12;

const DOCTYPE: usize = 13;

const TEXT_AT_BEGINNING: usize = 14;

const TEXT_BEHIND_MARK: usize = 15;

const TEXT: usize = 16;

const TEXT_BEHIND_TWO: usize = 17;

const TAGS: usize = 18;

/// The numbers of the forms of a definition, with so many elements.
#[derive(Clone, Copy)]
pub struct Numbers<'n> {
    pub alloc: Global,
    pub numbers: &'n [usize],
    pub elements: u16,
}

impl<'n> Numbers<'n> {
    /// The number at a place; 0, where there is none.
    fn at(&self, place: usize) -> usize
        ensures { result ≡ spec.number_at self.now.numbers.now place }
    {
        self.numbers.get(place).copied().unwrap_or(0)
    }

    /// Puts the way behind others that is the form at a place as a whole.
    fn push(&self, ways: &mut Vec<Way>, place: usize, emit: Emit, to: Spot) -> Result<(), NoMemory>
        ensures { OnOk result
            (ways.new.items ≡ ways.old.items
            ++ spec.whole (spec.number_at self.now.numbers.now place) emit to ∷ []) }
    {
        let mut parts = Row::new(self.alloc);
        parts.push(Part::Whole(self.at(place)))?;
        ways.push(Way { parts, emit, to })?;
        Ok(())
    }

    /// What may stand at a spot before all else, and what is text there.
    fn push_early(&self, ways: &mut Vec<Way>, spot: Spot) -> Result<(), NoMemory>
        ensures { OnOk result
            (ways.new.items ≡ ways.old.items ++ spec.early self.now.numbers.now spot) }
    {
        match spot {
            Spot::Beginning => {
                self.push(ways, MARK, Emit::Nothing, Spot::BehindMark)?;
                self.push(ways, DECLARATION, Emit::Nothing, Spot::Behind(0))?;
            }
            Spot::BehindMark => self.push(ways, DECLARATION, Emit::Nothing, Spot::Behind(0))?,
            Spot::Behind(_) => {}
        }
        Ok(())
    }

    /// Text and references at a spot.
    fn push_text(&self, ways: &mut Vec<Way>, spot: Spot) -> Result<(), NoMemory>
        ensures { OnOk result
            (ways.new.items ≡ ways.old.items ++ spec.text self.now.numbers.now spot) }
    {
        let text = Emit::One(PageToken::Text);
        let behind = Spot::Behind(0);
        self.push(ways, BLANK, Emit::One(PageToken::Blank), behind)?;
        self.push(ways, BRACKET, text, Spot::Behind(brackets_behind(spot)))?;
        self.push(ways, text_at(spot), text, behind)?;
        self.push(ways, REFERENCE, text, behind)?;
        self.push(ways, SECTION, text, behind)?;
        Ok(())
    }

    /// Comments, instructions and document type declarations.
    fn push_others(&self, ways: &mut Vec<Way>) -> Result<(), NoMemory>
        ensures { OnOk result
            (ways.new.items ≡ ways.old.items ++ spec.others self.now.numbers.now) }
    {
        let behind = Spot::Behind(0);
        self.push(ways, COMMENT, Emit::One(PageToken::Misc), behind)?;
        self.push(ways, INSTRUCTION, Emit::One(PageToken::Misc), behind)?;
        self.push(ways, DOCTYPE, Emit::One(PageToken::Doctype), behind)?;
        Ok(())
    }

    /// The tags of an element.
    fn push_element(&self, ways: &mut Vec<Way>, element: u16) -> Result<(), NoMemory>
        ensures { OnOk result
            (ways.new.items ≡ ways.old.items ++ spec.element self.now.numbers.now element []) }
    {
        let first = TAGS + 3 * usize::from(element);
        let start = PageToken::Start(Elem(element));
        let end = PageToken::End(Elem(element));
        let behind = Spot::Behind(0);
        self.push(ways, first, Emit::One(start), behind)?;
        self.push(ways, first + 1, Emit::Two(start, end), behind)?;
        self.push(ways, first + 2, Emit::One(end), behind)?;
        Ok(())
    }

    /// The tags of all elements.
    fn push_elements(&self, ways: &mut Vec<Way>) -> Result<(), NoMemory>
        ensures { OnOk result
            (ways.new.items ≡ ways.old.items
            ++ spec.elements self.now.numbers.now 0 self.now.elements) }
    {
        for element in 0..self.elements {
            self.push_element(ways, element)?;
        }
        Ok(())
    }

    /// The ways in which a piece begins at a spot.
    fn ways(&self, spot: Spot) -> Result<Vec<Way>, NoMemory>
        ensures { IfOk result
            (λ ways. ways.items ≡ spec.all self.now.numbers.now self.now.elements spot) }
    {
        let mut ways = Vec::new(self.alloc);
        self.push_early(&mut ways, spot)?;
        self.push_text(&mut ways, spot)?;
        self.push_others(&mut ways)?;
        self.push_elements(&mut ways)?;
        Ok(ways)
    }

    /// The ways in which pieces begin, by where they do.
    pub fn starts(&self) -> Result<Starts, NoMemory>
        ensures { IfOk result
            (λ starts. spec.AreStarts self.now.numbers.now self.now.elements starts) }
    {
        Ok(Starts {
            beginning: self.ways(Spot::Beginning)?,
            behind_mark: self.ways(Spot::BehindMark)?,
            behind: self.ways(Spot::Behind(0))?,
            behind_one: self.ways(Spot::Behind(1))?,
            behind_two: self.ways(Spot::Behind(2))?,
        })
    }
}

/// How many characters `]` are the last behind one more, two standing for all above.
fn brackets_behind(spot: Spot) -> u8
    ensures { result ≡ spec.brackets_behind spot }
{
    match spot {
        Spot::Beginning | Spot::BehindMark | Spot::Behind(0) => 1,
        Spot::Behind(_) => 2,
    }
}

/// The place of the form of text at a spot.
fn text_at(spot: Spot) -> usize
    ensures { result ≡ spec.text_at spot }
{
    match spot {
        Spot::Beginning => TEXT_AT_BEGINNING,
        Spot::BehindMark => TEXT_BEHIND_MARK,
        Spot::Behind(2) => TEXT_BEHIND_TWO,
        Spot::Behind(_) => TEXT,
    }
}
