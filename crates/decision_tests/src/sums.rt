//! Tests of the summaries of page tokens, by the smallest document type.

#[cfg(test)]
mod tests {
    use content_automata::build;
    use dtd_model::mini;
    use dyck_balance::Nesting;
    use segment_summary::Segments;
    use std::alloc::Global;
    use std::test::Fail;
    use tag_sums::Summary;
    use text_base::{Elem, NoMemory, PageToken};

    // One letter a token: `h b p` start `html`, `body` and `p`, which are the elements 0, 1 and 2,
    // `H B P` end them, `_` is white space, `t` text, `c` a comment, `d` a document type
    // declaration, `u` a tag that is not declared.
    fn token(letter: u8) -> PageToken {
        match letter {
            b'h' => PageToken::Start(Elem(0)),
            b'b' => PageToken::Start(Elem(1)),
            b'p' => PageToken::Start(Elem(2)),
            b'u' => PageToken::Start(Elem(3)),
            b'H' => PageToken::End(Elem(0)),
            b'B' => PageToken::End(Elem(1)),
            b'P' => PageToken::End(Elem(2)),
            b'_' => PageToken::Blank,
            b't' => PageToken::Text,
            b'c' => PageToken::Misc,
            b'd' => PageToken::Doctype,
            _ => PageToken::Bad,
        }
    }

    // The sum of the tokens, from the left.
    fn sum_of<S: Summary>(alloc: Global, summary: &S, letters: &[u8]) -> Result<S::Sum, NoMemory> {
        let mut sum = summary.unit(alloc)?;
        for letter in letters {
            let next = summary.of_token(alloc, token(*letter))?;
            sum = summary.compose(alloc, &sum, &next)?;
        }
        Ok(sum)
    }

    // What docs/pages.md says of pages of `html`, `body` and `p`: whether they are valid, and
    // whether they are nested.
    #[test]
    fn pages(rt: HostRuntime) -> Result<(), Fail> {
        let alloc = rt.alloc();
        let dtd = mini(alloc)?;
        let segments = Segments::new(alloc, build(alloc, &dtd)?, &dtd)?;
        let nesting = Nesting::new();
        let cases = [
            (b"hbBH".as_slice(), true, true),
            (b"_c_dc_h_b_ptctP_pPcB_H_c", true, true),
            (b"hbptPptPBH", true, true),
            (b"", false, true),
            (b"hH", false, true),
            (b"hbtBH", false, true),
            (b"hbppPPBH", false, true),
            (b"hbBHhbBH", false, true),
            (b"hbBHd", false, true),
            (b"ddhbBH", false, true),
            (b"hbdBH", false, true),
            (b"thbBH", false, true),
            (b"hbpPB", false, false),
            (b"bBH", false, false),
            (b"hbpBPH", false, false),
            (b"hbu", false, false),
            (b"hbBH!", false, false),
        ];
        for (letters, valid, nested) in cases {
            let sum = sum_of(alloc, &segments, letters)?;
            assert_eq!(rt; segments.whole(&sum), valid, "{letters:?}");
            let sum = sum_of(alloc, &nesting, letters)?;
            assert_eq!(rt; nesting.whole(&sum), nested, "{letters:?}");
        }
        Ok(())
    }

    // Unmatched tags are counted, equal sums are equal, and a copy is the same.
    #[test]
    fn sums(rt: HostRuntime) -> Result<(), Fail> {
        let alloc = rt.alloc();
        let dtd = mini(alloc)?;
        let segments = Segments::new(alloc, build(alloc, &dtd)?, &dtd)?;
        let cases = [
            (b"PB".as_slice(), b"P_B".as_slice(), 2, true),
            (b"hb", b"hbpP", 2, true),
            (b"tP", b"PpP", 1, true),
            (b"Bt", b"hH", 0, true),
            (b"", b"_", 0, true),
            (b"", b"t", 0, false),
        ];
        for (one, other, tags, same) in cases {
            let one = sum_of(alloc, &segments, one)?;
            let other = sum_of(alloc, &segments, other)?;
            assert_eq!(rt; segments.tags(&one), tags);
            assert_eq!(rt; one == other, same);
            assert!(rt; segments.copy(alloc, &one)? == one);
        }
        Ok(())
    }
}
