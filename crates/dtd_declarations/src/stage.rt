//! The stages of reading a content model.

use dtd_model::{Content, Particle};
use text_base::Elem;

/// What stands between the particles of a group, once it is known.
#[derive(Clone, Copy, Debug)]
pub enum Separator {
    Unknown,
    ByBar,
    ByComma,
}

/// An open bracket, with the particles behind it.
#[derive(Debug, Drop)]
pub struct Group {
    pub separator: Separator,
    pub parts: Vec<Particle>,
}

/// The open brackets: the inner one, and the others from the outer one inwards.
#[derive(Debug, Drop)]
pub struct Groups {
    pub inner: Group,
    pub outer: Vec<Group>,
}

/// A place in what stands behind the name of an element in its declaration.
#[derive(Debug, Drop)]
pub enum Stage {
    /// Behind the name.
    BehindName,
    /// Behind the white space there.
    AtContent,
    /// Behind the first bracket.
    AtFirst,
    /// Behind `#` there.
    AtText,
    /// In text and elements, behind one of them.
    BehindText(Vec<Elem>),
    /// In text and elements, behind a bar.
    AtElement(Vec<Elem>),
    /// Behind the closing bracket of text and elements.
    BehindMixed(Vec<Elem>),
    /// In groups, where a particle is due.
    AtParticle(Groups),
    /// Directly behind a particle.
    OnParticle(Groups, Particle),
    /// Behind a particle that is put into its group.
    BehindParticle(Groups),
    /// Behind the last bracket.
    BehindGroup(Particle),
    /// Where only white space may follow.
    Done(Content),
}
