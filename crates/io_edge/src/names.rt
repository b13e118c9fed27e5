// Names of files, by their text alone.
ghost use Rattle.std.specs.Prelude.{◌≡◌, ◌==◌, ◌∷◌, [], false, ℕ, List, IfOk, OnOk, bytes_eq, map, option_map, string_bytes};
ghost use Rattle.std.specs.List.{filter, fold, list_all, list_any, slice_split};
ghost use Rattle.std.specs.Path.{is_name, parent_dir, slash};
ghost use Rattle.io_edge.specs.Names as names;

use std::alloc::{AllocError, Global};
use text_base::NoMemory;

/// A name as its parts.
#[derive(Debug, Drop)]
struct Parts<'a> {
    is_absolute: bool,
    parts: Vec<&'a str>,
}

impl<'a> Parts<'a> {
    /// Those of a name, in its normal form.
    #[tactic(auto, unfolding(crate::specs::Names::normal_parts))]
    fn of(alloc: Global, name: &'a str) -> Result<Parts<'a>, NoMemory>
        ensures { IfOk result (λ p. (p.is_absolute ≡ names.is_absolute name.now)
            × (map (λ part. part.now) p.parts.items ≡ names.normal_parts name.now)) }
    {
        let mut parts = Parts {
            is_absolute: name.starts_with('/'),
            parts: Vec::new(alloc),
        };
        parts.put_all(alloc, name)?;
        Ok(parts)
    }

    /// Puts the parts of a name behind these.
    fn put_all(&mut self, alloc: Global, name: &'a str) -> Result<(), NoMemory>
        ensures { OnOk result ((self.new.is_absolute ≡ self.old.is_absolute)
            × (map (λ part. part.now) self.new.parts.items ≡ names.with_parts self.old.is_absolute
            (map (λ part. part.now) self.old.parts.items) name.now)) }
    {
        let pieces = pieces_of(alloc, name)?;
        self.put_pieces(pieces.as_slice())
    }

    // Puts those of these pieces behind these that are parts.
    fn put_pieces(&mut self, pieces: &[&'a str]) -> Result<(), NoMemory>
        ensures { OnOk result ((self.new.is_absolute ≡ self.old.is_absolute)
            × (map (λ part. part.now) self.new.parts.items
            ≡ fold (names.with_part self.old.is_absolute) (map (λ part. part.now) self.old.parts.items)
            (filter is_name (map (λ piece. piece.now) pieces.now)))) }
    {
        let mut rest = pieces;
        while let [piece, others @ ..] = rest {
            if is_part(*piece) {
                self.put(*piece)?;
            }
            rest = others;
        }
        Ok(())
    }

    /// Puts a part behind these.
    fn put(&mut self, part: &'a str) -> Result<(), NoMemory>
        ensures { OnOk result ((self.new.is_absolute ≡ self.old.is_absolute)
            × (map (λ part. part.now) self.new.parts.items ≡ names.with_part self.old.is_absolute
            (map (λ part. part.now) self.old.parts.items) part.now)) }
    {
        if part == ".." {
            return self.go_back();
        }
        self.parts.push(part)?;
        Ok(())
    }

    /// Puts `..` behind these.
    fn go_back(&mut self) -> Result<(), NoMemory>
        ensures { OnOk result ((self.new.is_absolute ≡ self.old.is_absolute)
            × (map (λ part. part.now) self.new.parts.items ≡ names.with_part self.old.is_absolute
            (map (λ part. part.now) self.old.parts.items) parent_dir)) }
    {
        match self.parts.pop() {
            Some(part) => {
                if part == ".." {
                    self.parts.push(part)?;
                    self.parts.push("..")?;
                }
            }
            None => {
                if !self.is_absolute {
                    self.parts.push("..")?;
                }
            }
        }
        Ok(())
    }

    /// Takes the last part away.
    fn leave(&mut self)
        ensures absolute { self.new.is_absolute ≡ self.old.is_absolute }
        ensures parts { map (λ part. part.now) self.new.parts.items
            ≡ names.all_but_last (map (λ part. part.now) self.old.parts.items) }
    {
        self.parts.pop();
    }

    /// The name of these parts.
    fn name(&self, alloc: Global) -> Result<String, NoMemory>
        ensures { IfOk result (λ name. string_bytes name ≡ names.name_with self.now.is_absolute
            (map (λ part. part.now) self.now.parts.items)) }
    {
        let joined = self.parts.join(alloc, "/")?;
        if self.is_absolute {
            let mut name = String::from_str(alloc, "/")?;
            name.push_str(joined.as_str())?;
            return Ok(name);
        }
        if self.parts.is_empty() {
            return Ok(String::from_str(alloc, ".")?);
        }
        Ok(joined)
    }
}

// What stands between the slashes of a name.
fn pieces_of<'a>(alloc: Global, name: &'a str) -> Result<Vec<&'a str>, AllocError>
    ensures { IfOk result (λ pieces. map (λ piece. piece.now) pieces.items
        ≡ slice_split (λ b. b == slash) name.now) }
{
    name.split('/').collect(alloc)
}

// Whether such a piece is a part: it is neither empty nor `.`.
fn is_part(piece: &str) -> bool
    ensures { result ≡ is_name piece.now }
{
    !(piece.is_empty() || piece == ".")
}

/// The normal form of a name: empty parts and `.` are dropped, and `..` takes the part before it
/// away. A `..` at the head of a relative name stays; behind the root of the system it is dropped.
/// A name of no parts is `.`, the folder of the call, or `/`.
#[tactic(auto, unfolding(crate::specs::Names::normal))]
pub fn normal_name(alloc: Global, name: &str) -> Result<String, NoMemory>
    ensures { IfOk result (λ normal. string_bytes normal ≡ names.normal name.now) }
{
    Parts::of(alloc, name)?.name(alloc)
}

/// The folder in which a file stands, in its normal form.
#[tactic(auto, unfolding(crate::specs::Names::folder_of))]
pub fn folder_of(alloc: Global, file: &str) -> Result<String, NoMemory>
    ensures { IfOk result (λ folder. string_bytes folder ≡ names.folder_of file.now) }
{
    let mut parts = Parts::of(alloc, file)?;
    parts.leave();
    parts.name(alloc)
}

/// A name that a file names, taken from the folder of that file, in its normal form. An absolute
/// name is taken as it is.
#[tactic(auto, unfolding(crate::specs::Names::beside))]
pub fn name_beside(alloc: Global, file: &str, name: &str) -> Result<String, NoMemory>
    ensures { IfOk result (λ beside. string_bytes beside ≡ names.beside file.now name.now) }
{
    if name.starts_with('/') {
        return normal_name(alloc, name);
    }
    let mut parts = Parts::of(alloc, file)?;
    parts.leave();
    parts.put_all(alloc, name)?;
    parts.name(alloc)
}

/// Whether a name begins with `./` or `../`.
pub fn is_dotted(name: &str) -> bool
    ensures { result ≡ names.is_dotted name.now }
{
    name.starts_with("./") || name.starts_with("../")
}

/// Whether a name lies in a folder, or below it.
#[tactic(auto, unfolding(crate::specs::Names::is_inside))]
pub fn is_inside(alloc: Global, root: &str, name: &str) -> Result<bool, NoMemory>
    ensures { IfOk result (λ inside. inside ≡ names.is_inside root.now name.now) }
{
    let root = Parts::of(alloc, root)?;
    let name = Parts::of(alloc, name)?;
    let goes_on = goes_on(root.parts.as_slice(), name.parts.as_slice());
    if root.is_absolute {
        return Ok(name.is_absolute && goes_on);
    }
    Ok(!name.is_absolute && goes_on)
}

// Whether behind the parts that a root and a name begin with alike, the root leads up alone, and the
// name never.
fn goes_on(root: &[&str], name: &[&str]) -> bool
    ensures { result ≡ names.goes_on (map (λ part. part.now) root.now)
        (map (λ part. part.now) name.now) }
{
    let mut folders = root;
    let mut rest = name;
    while let [folder, deeper @ ..] = folders {
        match rest {
            [part, others @ ..] => {
                if *folder != *part {
                    return leads_up(folders) && !has_parent(rest);
                }
                folders = deeper;
                rest = others;
            }
            [] => return leads_up(folders),
        }
    }
    !has_parent(rest)
}

// Whether each part is `..`.
fn leads_up(parts: &[&str]) -> bool
    ensures { result ≡ list_all names.is_parent (map (λ part. part.now) parts.now) }
{
    let mut rest = parts;
    while let [part, others @ ..] = rest {
        if *part != ".." {
            return false;
        }
        rest = others;
    }
    true
}

// Whether a part is `..`.
fn has_parent(parts: &[&str]) -> bool
    ensures { result ≡ list_any names.is_parent (map (λ part. part.now) parts.now) }
{
    let mut rest = parts;
    while let [part, others @ ..] = rest {
        if *part == ".." {
            return true;
        }
        rest = others;
    }
    false
}

/// The root: the folder that is given, or else that of the call where the file lies in it or below
/// it, or else that of the file. In its normal form.
#[tactic(auto, unfolding(crate::specs::Names::root_for))]
pub fn root_for(alloc: Global, option: Option<&str>, file: &str) -> Result<String, NoMemory>
    ensures { IfOk result (λ root. string_bytes root
        ≡ names.root_for (option_map (λ root. root.now) option.entry) file.now) }
{
    if let Some(root) = option {
        return normal_name(alloc, root);
    }
    if is_inside(alloc, ".", file)? {
        return Ok(String::from_str(alloc, ".")?);
    }
    folder_of(alloc, file)
}

/// Whether a name that a file names leads out of a root, or is absolute.
#[tactic(auto, unfolding(crate::specs::Names::is_outside))]
pub fn is_outside(alloc: Global, root: &str, file: &str, name: &str) -> Result<bool, NoMemory>
    ensures { IfOk result (λ outside. outside ≡ names.is_outside root.now file.now name.now) }
{
    if name.starts_with('/') {
        return Ok(true);
    }
    let beside = name_beside(alloc, file, name)?;
    Ok(!is_inside(alloc, root, beside.as_str())?)
}

/// Laws of names: the normal form of a name is its own normal form, and a name of one part that is
/// no `..` is itself.
pub fn normal_names()
    ensures again { (name : List ℕ) → names.normal (names.normal name) ≡ names.normal name }
    ensures plain { (name : List ℕ) → names.parts_of name ≡ name ∷ []
        → bytes_eq name parent_dir ≡ false → names.is_absolute name ≡ false
        → names.normal name ≡ name }
{}
