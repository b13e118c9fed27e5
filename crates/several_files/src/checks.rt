//! What is asked of `check`.

/// A name of a file, and whether it was found in a folder.
#[derive(Drop)]
pub struct AskedFile {
    pub name: String,
    pub is_found: bool,
}

/// What is asked of `check`: its options with their values, and its names.
#[derive(Drop)]
pub struct Checks {
    pub options: Vec<String>,
    pub files: Vec<AskedFile>,
}
