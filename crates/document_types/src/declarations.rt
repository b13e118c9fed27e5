//! The elements and attributes of XHTML 1.0 Strict, written after the W3C's document type
//! definition.

/// Their declarations.
pub const DECLARATIONS: &str = r#"<!ENTITY % I "CDATA #IMPLIED">
<!ENTITY % R "CDATA #REQUIRED">
<!ENTITY % id "id ID #IMPLIED">
<!ENTITY % core "%id; class %I; style %I; title %I;">
<!ENTITY % i18n "lang NMTOKEN #IMPLIED xml:lang NMTOKEN #IMPLIED dir (ltr|rtl) #IMPLIED">
<!ENTITY % events "onclick %I; ondblclick %I; onmousedown %I; onmouseup %I; onmouseover %I; onmousemove %I; onmouseout %I; onkeypress %I; onkeydown %I; onkeyup %I;">
<!ENTITY % attrs "%core; %i18n; %events;">
<!ENTITY % focus "accesskey %I; tabindex %I; onfocus %I; onblur %I;">
<!ENTITY % cell "align (left|center|right|justify|char) #IMPLIED char %I; charoff %I; valign (top|middle|bottom|baseline) #IMPLIED">
<!ENTITY % shape "shape (rect|circle|poly|default) 'rect' coords %I;">
<!ENTITY % keep "xml:space (preserve) #FIXED 'preserve'">
<!ENTITY % mi "ins|del|script">
<!ENTITY % misc "noscript|%mi;">
<!ENTITY % sp "br|span|bdo|map">
<!ENTITY % special "%sp;|object|img">
<!ENTITY % font "tt|i|b|big|small">
<!ENTITY % phrase "em|strong|dfn|code|q|samp|kbd|var|cite|abbr|acronym|sub|sup">
<!ENTITY % forms "input|select|textarea|label|button">
<!ENTITY % inline "a|%special;|%font;|%phrase;|%forms;">
<!ENTITY % h "h1|h2|h3|h4|h5|h6">
<!ENTITY % lists "ul|ol|dl">
<!ENTITY % blocktext "pre|hr|blockquote|address">
<!ENTITY % block "p|%h;|div|%lists;|%blocktext;|fieldset|table">
<!ENTITY % Inline "(#PCDATA|%inline;|%mi;)*">
<!ENTITY % Block "(%block;|form|%misc;)*">
<!ENTITY % Flow "(#PCDATA|%block;|form|%inline;|%misc;)*">
<!ENTITY % m "(script|style|meta|link|object)*">
<!ENTITY % Block.form "(%block;|%misc;)*">
<!ELEMENT html (head,body)>
<!ATTLIST html %i18n; %id; xmlns CDATA #FIXED 'http://www.w3.org/1999/xhtml'>
<!ELEMENT head (%m;,((title,%m;,(base,%m;)?)|(base,%m;,title,%m;)))>
<!ATTLIST head %i18n; %id; profile %I;>
<!ELEMENT title (#PCDATA)><!ATTLIST title %i18n; %id;>
<!ELEMENT base EMPTY><!ATTLIST base href %R; %id;>
<!ELEMENT meta EMPTY><!ATTLIST meta %i18n; %id; http-equiv %I; name %I; content %R; scheme %I;>
<!ELEMENT link EMPTY><!ATTLIST link %attrs; charset %I; href %I; hreflang NMTOKEN #IMPLIED type %I; rel %I; rev %I; media %I;>
<!ELEMENT style (#PCDATA)><!ATTLIST style %i18n; %id; type %R; media %I; title %I; %keep;>
<!ELEMENT script (#PCDATA)><!ATTLIST script %id; charset %I; type %R; src %I; defer (defer) #IMPLIED %keep;>
<!ELEMENT noscript %Block;><!ATTLIST noscript %attrs;>
<!ELEMENT body %Block;><!ATTLIST body %attrs; onload %I; onunload %I;>
<!ELEMENT div %Flow;><!ATTLIST div %attrs;>
<!ELEMENT li %Flow;><!ATTLIST li %attrs;>
<!ELEMENT dd %Flow;><!ATTLIST dd %attrs;>
<!ELEMENT p %Inline;><!ATTLIST p %attrs;>
<!ELEMENT h1 %Inline;><!ATTLIST h1 %attrs;>
<!ELEMENT h2 %Inline;><!ATTLIST h2 %attrs;>
<!ELEMENT h3 %Inline;><!ATTLIST h3 %attrs;>
<!ELEMENT h4 %Inline;><!ATTLIST h4 %attrs;>
<!ELEMENT h5 %Inline;><!ATTLIST h5 %attrs;>
<!ELEMENT h6 %Inline;><!ATTLIST h6 %attrs;>
<!ELEMENT dt %Inline;><!ATTLIST dt %attrs;>
<!ELEMENT address %Inline;><!ATTLIST address %attrs;>
<!ELEMENT span %Inline;><!ATTLIST span %attrs;>
<!ELEMENT caption %Inline;><!ATTLIST caption %attrs;>
<!ELEMENT tt %Inline;><!ATTLIST tt %attrs;>
<!ELEMENT i %Inline;><!ATTLIST i %attrs;>
<!ELEMENT b %Inline;><!ATTLIST b %attrs;>
<!ELEMENT big %Inline;><!ATTLIST big %attrs;>
<!ELEMENT small %Inline;><!ATTLIST small %attrs;>
<!ELEMENT em %Inline;><!ATTLIST em %attrs;>
<!ELEMENT strong %Inline;><!ATTLIST strong %attrs;>
<!ELEMENT dfn %Inline;><!ATTLIST dfn %attrs;>
<!ELEMENT code %Inline;><!ATTLIST code %attrs;>
<!ELEMENT samp %Inline;><!ATTLIST samp %attrs;>
<!ELEMENT kbd %Inline;><!ATTLIST kbd %attrs;>
<!ELEMENT var %Inline;><!ATTLIST var %attrs;>
<!ELEMENT cite %Inline;><!ATTLIST cite %attrs;>
<!ELEMENT abbr %Inline;><!ATTLIST abbr %attrs;>
<!ELEMENT acronym %Inline;><!ATTLIST acronym %attrs;>
<!ELEMENT sub %Inline;><!ATTLIST sub %attrs;>
<!ELEMENT sup %Inline;><!ATTLIST sup %attrs;>
<!ELEMENT ul (li)+><!ATTLIST ul %attrs;>
<!ELEMENT ol (li)+><!ATTLIST ol %attrs;>
<!ELEMENT dl (dt|dd)+><!ATTLIST dl %attrs;>
<!ELEMENT hr EMPTY><!ATTLIST hr %attrs;>
<!ELEMENT pre (#PCDATA|a|%font;|%phrase;|%sp;|%mi;|%forms;)*><!ATTLIST pre %attrs; %keep;>
<!ELEMENT blockquote %Block;><!ATTLIST blockquote %attrs; cite %I;>
<!ELEMENT ins %Flow;><!ATTLIST ins %attrs; cite %I; datetime %I;>
<!ELEMENT del %Flow;><!ATTLIST del %attrs; cite %I; datetime %I;>
<!ELEMENT a (#PCDATA|%special;|%font;|%phrase;|%forms;|%mi;)*>
<!ATTLIST a %attrs; %focus; charset %I; type %I; name NMTOKEN #IMPLIED href %I; hreflang NMTOKEN #IMPLIED rel %I; rev %I; %shape;>
<!ELEMENT bdo %Inline;><!ATTLIST bdo %core; %events; lang NMTOKEN #IMPLIED xml:lang NMTOKEN #IMPLIED dir (ltr|rtl) #REQUIRED>
<!ELEMENT br EMPTY><!ATTLIST br %core;>
<!ELEMENT q %Inline;><!ATTLIST q %attrs; cite %I;>
<!ELEMENT object (#PCDATA|param|%block;|form|%inline;|%misc;)*>
<!ATTLIST object %attrs; declare (declare) #IMPLIED classid %I; codebase %I; data %I; type %I; codetype %I; archive %I; standby %I; height %I; width %I; usemap %I; name NMTOKEN #IMPLIED tabindex %I;>
<!ELEMENT param EMPTY><!ATTLIST param %id; name %I; value %I; valuetype (data|ref|object) 'data' type %I;>
<!ELEMENT img EMPTY><!ATTLIST img %attrs; src %R; alt %R; longdesc %I; height %I; width %I; usemap %I; ismap (ismap) #IMPLIED>
<!ELEMENT map ((%block;|form|%misc;)+|area+)>
<!ATTLIST map %i18n; %events; id ID #REQUIRED class %I; style %I; title %I; name NMTOKEN #IMPLIED>
<!ELEMENT area EMPTY><!ATTLIST area %attrs; %focus; %shape; href %I; nohref (nohref) #IMPLIED alt %R;>
<!ELEMENT form %Block.form;><!ATTLIST form %attrs; action %R; method (get|post) 'get' enctype CDATA 'application/x-www-form-urlencoded' onsubmit %I; onreset %I; accept %I; accept-charset %I;>
<!ELEMENT label %Inline;><!ATTLIST label %attrs; for IDREF #IMPLIED accesskey %I; onfocus %I; onblur %I;>
<!ELEMENT input EMPTY>
<!ATTLIST input %attrs; %focus; type (text|password|checkbox|radio|submit|reset|file|hidden|image|button) 'text' name %I; value %I; checked (checked) #IMPLIED disabled (disabled) #IMPLIED readonly (readonly) #IMPLIED size %I; maxlength %I; src %I; alt %I; usemap %I; onselect %I; onchange %I; accept %I;>
<!ELEMENT select (optgroup|option)+>
<!ATTLIST select %attrs; name %I; size %I; multiple (multiple) #IMPLIED disabled (disabled) #IMPLIED tabindex %I; onfocus %I; onblur %I; onchange %I;>
<!ELEMENT optgroup (option)+><!ATTLIST optgroup %attrs; disabled (disabled) #IMPLIED label %R;>
<!ELEMENT option (#PCDATA)><!ATTLIST option %attrs; selected (selected) #IMPLIED disabled (disabled) #IMPLIED label %I; value %I;>
<!ELEMENT textarea (#PCDATA)><!ATTLIST textarea %attrs; %focus; name %I; rows %R; cols %R; disabled (disabled) #IMPLIED readonly (readonly) #IMPLIED onselect %I; onchange %I;>
<!ELEMENT fieldset (#PCDATA|legend|%block;|form|%inline;|%misc;)*><!ATTLIST fieldset %attrs;>
<!ELEMENT legend %Inline;><!ATTLIST legend %attrs; accesskey %I;>
<!ELEMENT button (#PCDATA|p|%h;|div|%lists;|%blocktext;|table|%special;|%font;|%phrase;|%misc;)*>
<!ATTLIST button %attrs; %focus; name %I; value %I; type (button|submit|reset) 'submit' disabled (disabled) #IMPLIED>
<!ELEMENT table (caption?,(col*|colgroup*),thead?,tfoot?,(tbody+|tr+))>
<!ATTLIST table %attrs; summary %I; width %I; border %I; frame (void|above|below|hsides|lhs|rhs|vsides|box|border) #IMPLIED rules (none|groups|rows|cols|all) #IMPLIED cellspacing %I; cellpadding %I;>
<!ELEMENT thead (tr)+><!ATTLIST thead %attrs; %cell;>
<!ELEMENT tfoot (tr)+><!ATTLIST tfoot %attrs; %cell;>
<!ELEMENT tbody (tr)+><!ATTLIST tbody %attrs; %cell;>
<!ELEMENT colgroup (col)*><!ATTLIST colgroup %attrs; span CDATA '1' width %I; %cell;>
<!ELEMENT col EMPTY><!ATTLIST col %attrs; span CDATA '1' width %I; %cell;>
<!ELEMENT tr (th|td)+><!ATTLIST tr %attrs; %cell;>
<!ELEMENT th %Flow;><!ATTLIST th %attrs; abbr %I; axis %I; headers IDREFS #IMPLIED scope (row|col|rowgroup|colgroup) #IMPLIED rowspan CDATA '1' colspan CDATA '1' %cell;>
<!ELEMENT td %Flow;><!ATTLIST td %attrs; abbr %I; axis %I; headers IDREFS #IMPLIED scope (row|col|rowgroup|colgroup) #IMPLIED rowspan CDATA '1' colspan CDATA '1' %cell;>
"#;
