// Whether a grammar derives a text: which of its parts are derived, from the places on at which a
// part is asked for, in rounds until nothing is new.
use crate::grammars::{Production, START, STEPS, Sign, productions_of};
use anyhow::Result;
use indexmap::IndexSet;
use std::alloc::Global;

/// Which nonterminals derive the part from a place to an end, and which are asked for from a place
/// on.
struct Chart {
    found: IndexSet<(u64, usize, usize)>,
    asked: IndexSet<(u64, usize)>,
}

impl Drop for Chart {
    fn drop(self) {
        let Chart { found: _, asked: _ } = self;
    }
}

impl Chart {
    // Where the part may end that a symbol derives from a place on, by what is found so far.
    fn ends(&mut self, alloc: Global, text: &[u8], sign: Sign, from: usize) -> Result<Vec<usize>> {
        let mut ends = Vec::new(alloc);
        match sign {
            Sign::Range(first, last) => {
                if let Some(byte) = text.get(from) {
                    if first <= *byte && *byte <= last {
                        ends.push(from.saturating_add(1))?;
                    }
                }
            }
            Sign::Inner(inner) => {
                self.asked.insert((inner, from))?;
                for end in from..=text.len() {
                    if self.found.contains(&(inner, from, end)) {
                        ends.push(end)?;
                    }
                }
            }
        }
        Ok(ends)
    }

    // Adds the parts that a production derives from a place on.
    fn add(
        &mut self,
        alloc: Global,
        text: &[u8],
        production: &Production,
        from: usize,
    ) -> Result<()> {
        let mut ends = Vec::new(alloc);
        ends.push(from)?;
        for sign in &production.right {
            let mut further = Vec::new(alloc);
            for place in &ends {
                for end in self.ends(alloc, text, *sign, *place)? {
                    further.push(end)?;
                }
            }
            ends = further;
        }
        for end in ends {
            self.found.insert((production.left, from, end))?;
        }
        Ok(())
    }

    // Adds what is derived of all that is asked for, also of what comes to be asked for meanwhile.
    fn round(&mut self, alloc: Global, text: &[u8], productions: &[Production]) -> Result<()> {
        for place in 0..STEPS {
            let Some((left, from)) = self.asked.get_index(place as usize).copied() else {
                break;
            };
            for production in productions {
                if production.left == left {
                    self.add(alloc, text, production, from)?;
                }
            }
        }
        Ok(())
    }
}

/// Whether the grammar that is written so derives the text.
pub fn derives(alloc: Global, grammar: &[u8], text: &[u8]) -> Result<bool> {
    let productions = productions_of(alloc, grammar)?;
    let mut chart = Chart {
        found: IndexSet::new(alloc),
        asked: IndexSet::new(alloc),
    };
    chart.asked.insert((START, 0))?;
    for _ in 0..STEPS {
        let before = (chart.found.len(), chart.asked.len());
        chart.round(alloc, text, productions.as_slice())?;
        if (chart.found.len(), chart.asked.len()) == before {
            break;
        }
    }
    Ok(chart.found.contains(&(START, 0, text.len())))
}
