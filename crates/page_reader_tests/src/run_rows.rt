//! Runs of bytes behind texts, by the classes of XML's characters (XML 1.0, 2.2, and RFC 3629, 4).

use crate::reading::{definition, runs_and_moves};
use std::test::Fail;

const DEFINITION: &[u8] = b"<!ELEMENT p (#PCDATA)>
<!ATTLIST p class CDATA #IMPLIED>
";

// How few moves there can be, where neighbours that do the same are one: the reader tells as many
// runs.
#[test]
fn runs(rt: HostRuntime) -> Result<(), Fail> {
    let dtd = definition(rt.alloc(), DEFINITION)?;
    for (text, moves) in [
        (b"<p>".as_slice(), 24),
        (b"<p class='".as_slice(), 22),
        (b"<!--".as_slice(), 19),
        (b"<![CDATA[".as_slice(), 19),
        (b"<?a ".as_slice(), 19),
        (b"a\xC2".as_slice(), 3),
        (b"a\xE0".as_slice(), 3),
        (b"a\xE1".as_slice(), 3),
        (b"a\xED".as_slice(), 3),
        (b"a\xEF".as_slice(), 4),
        (b"a\xEF\xBF".as_slice(), 3),
        (b"a\xF0".as_slice(), 3),
        (b"a\xF1\x80\x80".as_slice(), 3),
        (b"a\xF4".as_slice(), 3),
        (b"a\xFF".as_slice(), 1),
    ] {
        assert!(rt; runs_and_moves(rt.alloc(), &dtd, text)? == (moves, moves));
    }
    Ok(())
}
