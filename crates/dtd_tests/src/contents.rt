//! Tests of content_automata, by the smallest document type and by content models that are read.

#[cfg(test)]
mod tests {
    use content_automata::{Contents, build};
    use dtd_model::mini;
    use std::test::Fail;
    use text_base::Elem;

    // Whether the state behind these children is one in which a match may end.
    fn ends(contents: &Contents, first: u16, children: &[Elem]) -> bool {
        let mut state = first;
        for child in children {
            match contents.step(state, *child) {
                Some(next) => state = next,
                None => return false,
            }
        }
        contents.accepts(state)
    }

    // What docs/pages.md says of `html`, `body` and `p`, which are the elements 0, 1 and 2.
    #[test]
    fn the_smallest_document_type(rt: HostRuntime) -> Result<(), Fail> {
        let dtd = mini(rt.alloc())?;
        let contents = build(rt.alloc(), &dtd)?;
        let cases = [
            (Elem(0), [Elem(1)].as_slice(), true),
            (Elem(0), [].as_slice(), false),
            (Elem(0), [Elem(1), Elem(1)].as_slice(), false),
            (Elem(0), [Elem(2)].as_slice(), false),
            (Elem(1), [].as_slice(), true),
            (Elem(1), [Elem(2), Elem(2), Elem(2)].as_slice(), true),
            (Elem(1), [Elem(2), Elem(1)].as_slice(), false),
            (Elem(2), [].as_slice(), true),
            (Elem(2), [Elem(2)].as_slice(), false),
        ];
        for (element, children, expected) in cases {
            assert!(rt; element.0 < 3);
            assert_eq!(rt; ends(&contents, contents.init(element), children), expected);
        }
        Ok(())
    }
}
