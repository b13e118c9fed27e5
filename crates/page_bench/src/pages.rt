//! The pages that are read.

use std::alloc::Global;
use text_base::{Bytes, NoMemory};

/// What a page begins and ends with, and the rows in between, which come in turn.
pub struct Parts {
    head: &'static [u8],
    rows: [&'static [u8]; 4],
    tail: &'static [u8],
}

/// The parts of a page by XHTML 1.0 Strict: the head has 13 tokens, the rows have 13, 15, 15 and 16,
/// and the tail has 3.
pub const STRICT: Parts = Parts {
    head: b"<?xml version=\"1.0\" encoding=\"UTF-8\"?>
<!DOCTYPE html PUBLIC \"-//W3C//DTD XHTML 1.0 Strict//EN\" \"http://www.w3.org/TR/xhtml1/DTD/xhtml1-strict.dtd\">
<html xmlns=\"http://www.w3.org/1999/xhtml\" xml:lang=\"en\"><head><title>Tea</title></head><body>
",
    rows: [
        b"<p class=\"a\">Tea &amp; caf\xC3\xA9</p>
",
        b"<ul><li><a href=\"?id=1&amp;to=2\">one</a></li><!-- two --><li>&eacute;&#8364;</li></ul>
",
        b"<h2 class='top' title=\"a > b\"><em>All</em> \xE2\x82\xAC 10,-</h2>
",
        b"<table summary=\"all\"><tr><th>No.</th><td colspan=\"2\"><img src=\"a.png\" alt=\"\"/><br /></td></tr></table>
",
    ],
    tail: b"</body></html>
",
};

/// The parts of a page by `mini`: the head has 3 tokens, the rows have 4, 8, 5 and 5, and the tail has
/// 3.
pub const MINI: Parts = Parts {
    head: b"<html><body>
",
    rows: [
        b"<p>a</p>
",
        b"<p>b &lt; c</p>
",
        b"<p>\xE2\x82\xAC&#8364;</p>
",
        b"<p><!-- d --><![CDATA[<e>]]></p>
",
    ],
    tail: b"</body></html>
",
};

/// The page of these parts: as many rows as fit in so many bytes with what stands around them.
pub fn page_of(alloc: Global, parts: &Parts, most: usize) -> Result<Bytes, NoMemory> {
    let mut page = Bytes::from_slice(alloc, parts.head)?;
    for number in 0..most {
        let row = parts.rows[number % 4];
        let length = page.len().saturating_add(row.len());
        if length.saturating_add(parts.tail.len()) > most {
            break;
        }
        page.append(row)?;
    }
    page.append(parts.tail)?;
    Ok(page)
}
