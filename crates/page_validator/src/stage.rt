//! How far a page is.

use text_base::Elem;

/// How far a page is outside its root.
#[derive(Clone, Copy, Debug)]
pub enum Stage {
    /// Before the document type declaration.
    BeforeType,
    /// Behind it, before the root.
    BehindType,
    /// The root has begun.
    RootBegun,
}

/// What matters for where a part of a page that is no element may stand.
#[derive(Clone, Copy, Debug)]
pub enum Sort {
    /// White space.
    Blank,
    /// Other text.
    Text,
    /// A comment or an instruction.
    Remark,
}

/// An open element.
#[derive(Clone, Copy, Debug)]
pub struct Open {
    /// The element.
    pub element: Elem,
    /// The state of its content model.
    pub state: u16,
}
