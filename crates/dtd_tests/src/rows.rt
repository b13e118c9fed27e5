//! Small texts: a text, and what reading it comes to, by XML 1.0. `[a]` stands for `Elem(a)` there.

use crate::outcome::text_outcome;
use std::alloc::{AllocError, Global};
use std::test::Fail;

// Whether the text in the row comes to what the row says.
fn row_is_so(alloc: Global, row: &str) -> Result<bool, AllocError> {
    match row.split_once(" => ") {
        None => Ok(false),
        Some((text, expected)) => {
            let found = text_outcome(alloc, text.as_bytes())?;
            Ok(found.as_str() == expected)
        }
    }
}

#[test]
fn tables(rt: HostRuntime) -> Result<(), Fail> {
    let rows = r#" => Ok
<!ELEMENT a EMPTY> => Ok a Empty
<!ELEMENT a ANY><!-- x --><?b c?> => Ok a Any
<!ELEMENT a (#PCDATA)> => Ok a Mixed([])
<!ELEMENT a ( #PCDATA | b | a )*><!ELEMENT b EMPTY> => Ok a Mixed([Elem(1), Elem(0)]) b Empty
<!ELEMENT a (b)><!ELEMENT b EMPTY> => Ok a Children(Seq([One(Elem(1))])) b Empty
<!ELEMENT a (b)?><!ELEMENT b EMPTY> => Ok a Children(Opt(Seq([One(Elem(1))]))) b Empty
<!ELEMENT a (b|a)><!ELEMENT b EMPTY> => Ok a Children(Alt([One(Elem(1)), One(Elem(0))])) b Empty
<!ELEMENT a (b|a)*><!ELEMENT b EMPTY> => Ok a Children(Star(Alt([One(Elem(1)), One(Elem(0))]))) b Empty
<!ELEMENT a ( b+ , (a? | b) )><!ELEMENT b EMPTY> => Ok a Children(Seq([Plus(One(Elem(1))), Alt([Opt(One(Elem(0))), One(Elem(1))])])) b Empty
<!ENTITY % m "a|b"><!ELEMENT a (%m;)*><!ELEMENT b EMPTY> => Ok a Children(Star(Alt([One(Elem(0)), One(Elem(1))]))) b Empty
<!ENTITY % x "b"><!ENTITY % m "a|%x;"><!ELEMENT a (%m;)><!ELEMENT b EMPTY> => Ok a Children(Alt([One(Elem(0)), One(Elem(1))])) b Empty
<!ENTITY % x "EMPTY"><!ENTITY % x "ANY"><!ELEMENT a %x;> => Ok a Empty
<!ENTITY % d "<!ELEMENT a EMPTY>">%d; => Ok a Empty
<!ENTITY % d '&#60;!ELEMENT a EMPTY>'>%d; => Ok a Empty
<!ENTITY % e SYSTEM "e">%e; => Ok e Empty
<!ENTITY % e PUBLIC "-//a//b" 'e' > %e; => Ok e Empty
<!ENTITY % e SYSTEM ".//x/../e">%e; => Ok e Empty
<!ENTITY % e SYSTEM "/e">%e; => Outside /e
<!ENTITY % e SYSTEM "../e">%e; => Outside ../e
<!ELEMENT a EMPTY><!ATTLIST a x CDATA #IMPLIED> => Ok a Empty @x Cdata Implied
<!ATTLIST a x ID #REQUIRED y IDREFS 'q'><!ELEMENT a EMPTY> => Ok a Empty @x Id Required @y Idrefs Default
<!ELEMENT a EMPTY><!ATTLIST a x IDREF #IMPLIED><!ATTLIST a x CDATA #REQUIRED y NMTOKENS #IMPLIED> => Ok a Empty @x Idref Implied @y Nmtokens Implied
<!ELEMENT a EMPTY><!ATTLIST a x CDATA #IMPLIED x ID #IMPLIED><!ATTLIST b y CDATA #IMPLIED> => Ok a Empty @x Cdata Implied
<!ENTITY nbsp "&#160;"><!ENTITY a '&#38;#38;'> => Ok &nbsp &a
<!ENTITY a 'b'><!ENTITY a 'c'><!ENTITY b ""> => Ok &a &b
<!ENTITY % q "'"><!ENTITY a '%q;'> => Ok &a
<!ENTITY a '&#60;'> => LeftOut 0"#;
    for row in rows.lines() {
        assert!(rt; row_is_so(rt.alloc(), row)?, "{row}");
    }
    Ok(())
}

// The examples of XML 1.0 (3.2, 3.2.1, 3.2.2, 3.3, 4.2, 4.4.5, 4.5 and appendix D), where they
// declare what they name.
#[test]
fn examples_of_xml(rt: HostRuntime) -> Result<(), Fail> {
    let rows = r#"<!ELEMENT br EMPTY> => Ok br Empty
<!ELEMENT p (#PCDATA|emph)* ><!ELEMENT emph EMPTY> => Ok p Mixed([Elem(1)]) emph Empty
<!ENTITY % name.para "para"><!ENTITY % content.para "(#PCDATA)"><!ELEMENT %name.para; %content.para; > => Ok para Mixed([])
<!ELEMENT container ANY> => Ok container Any
<!ELEMENT spec (front, body, back?)><!ELEMENT front ANY><!ELEMENT body ANY><!ELEMENT back ANY> => Ok spec Children(Seq([One(Elem(1)), One(Elem(2)), Opt(One(Elem(3)))])) front Any body Any back Any
<!ELEMENT div1 (head, (p | list)*, div1*)><!ELEMENT head ANY><!ELEMENT p ANY><!ELEMENT list ANY> => Ok div1 Children(Seq([One(Elem(1)), Star(Alt([One(Elem(2)), One(Elem(3))])), Star(One(Elem(0)))])) head Any p Any list Any
<!ENTITY % div.mix "a"><!ENTITY % dict.mix "b"><!ELEMENT body (%div.mix; | %dict.mix;)*><!ELEMENT a ANY><!ELEMENT b ANY> => Ok body Children(Star(Alt([One(Elem(1)), One(Elem(2))]))) a Any b Any
<!ELEMENT termdef ANY><!ATTLIST termdef id ID #REQUIRED name CDATA #IMPLIED> => Ok termdef Any @id Id Required @name Cdata Implied
<!ENTITY Pub-Status "This is a pre-release of the specification."> => Ok &Pub-Status
<!ENTITY open-hatch SYSTEM "http://www.textuality.com/boilerplate/OpenHatch.xml"> => LeftOut 0
<!ENTITY hatch-pic SYSTEM "../grafix/OpenHatch.gif" NDATA gif > => LeftOut 0
<!ENTITY % YN '"Yes"' ><!ENTITY WhatHeSaid "He said %YN;" > => Ok &WhatHeSaid
<!ENTITY % pub "&#xc9;ditions Gallimard" ><!ENTITY rights "All rights reserved" > => Ok &rights
<!ENTITY book "La Peste: Albert Camus, &#xA9; 1947. &rights;" > => LeftOut 0
<!ENTITY example "<p>An ampersand (&#38;#38;) may be escaped.</p>" > => LeftOut 0
<!ELEMENT test (#PCDATA) ><!ENTITY % xx '&#37;zz;'><!ENTITY % zz '&#60;!ENTITY tricky "error-prone" >' >%xx; => Ok test Mixed([]) &tricky"#;
    for row in rows.lines() {
        assert!(rt; row_is_so(rt.alloc(), row)?, "{row}");
    }
    Ok(())
}
