// The lines of a file with rows.
use crate::calls::Held;
use crate::rows::{Cuts, Row};
use crate::texts::{Names, Piece, filled};
use crate::tries::fault_of;
use crate::wishes::Wish;
use anyhow::{Context, Result, anyhow};
use std::alloc::Global;
use std::mem;
use text_base::Bytes;

/// A form of rows that are one line: its sign, the status that it ends with, and the text of one
/// output, which may have a place for what the line says of it.
struct Form {
    sign: String,
    status: u8,
    is_told: bool,
    is_filled: bool,
    text: Vec<Piece>,
}

impl Drop for Form {
    fn drop(self) {
        let Form {
            sign: _,
            status: _,
            is_told: _,
            is_filled: _,
            text: _,
        } = self;
    }
}

/// The texts, words, files and forms that stand so far, the row that is being read, and how many
/// rows came out.
pub struct Table {
    names: Names,
    words: Vec<Vec<String>>,
    given: Held,
    around: Option<(Bytes, Vec<Piece>)>,
    forms: Vec<Form>,
    row: Row,
    pub passed: u64,
    pub failed: u64,
}

impl Drop for Table {
    fn drop(self) {
        let Table {
            names: _,
            words: _,
            given: _,
            around: _,
            forms: _,
            row: _,
            passed: _,
            failed: _,
        } = self;
    }
}

fn number(text: &str) -> Result<u64> {
    text.parse::<u64>().context("a number")
}

fn size(text: &str) -> Result<usize> {
    text.parse::<usize>().context("a number")
}

// The numbers of a line, one behind each space.
fn numbers(alloc: Global, text: &str) -> Result<Vec<u64>> {
    let mut numbers = Vec::new(alloc);
    for word in text.split(' ') {
        numbers.push(number(word)?)?;
    }
    Ok(numbers)
}

// A line's first word, and what it says.
fn split_line(line: &str) -> (&str, &str) {
    line.split_once(" ").unwrap_or((line, ""))
}

impl Table {
    /// Nothing was read yet, and no row was called.
    pub fn new(alloc: Global) -> Result<Table> {
        Ok(Table {
            names: Names::new(alloc)?,
            words: Vec::new(alloc),
            given: Vec::new(alloc),
            around: None,
            forms: Vec::new(alloc),
            row: Row::new(alloc),
            passed: 0,
            failed: 0,
        })
    }

    // The words of a line, one behind each space, with their escapes.
    fn add_words(&mut self, alloc: Global, text: &str) -> Result<()> {
        let mut words = Vec::new(alloc);
        for word in text.split(' ') {
            if !word.is_empty() {
                let bytes = self.names.bytes(alloc, word)?;
                let word = str::from_utf8(bytes.as_slice()).context("a word in UTF-8")?;
                words.push(String::from_str(alloc, word)?)?;
            }
        }
        self.words.push(words)?;
        Ok(())
    }

    // So many files, whose names and texts may hold the number of each.
    fn add_files(&mut self, alloc: Global, count: u64, text: &str) -> Result<()> {
        let (name, text) = split_line(text);
        let name = self.names.read(alloc, name)?;
        let text = self.names.read(alloc, text)?;
        for place in 0..count {
            self.row.files.push((
                filled(alloc, name.as_slice(), place, b"")?,
                filled(alloc, text.as_slice(), place, b"")?,
            ))?;
        }
        Ok(())
    }

    // A form of rows: `SIGN STATUS out TEXT`, or `err` in place of `out`.
    fn add_form(&mut self, alloc: Global, text: &str) -> Result<()> {
        let (sign, text) = split_line(text);
        let (status, text) = split_line(text);
        let (output, text) = split_line(text);
        self.forms.push(Form {
            sign: String::from_str(alloc, sign)?,
            status: status.parse::<u8>().context("a status")?,
            is_told: output == "err",
            is_filled: text.split_once("\\?").is_some(),
            text: self.names.read(alloc, text)?,
        })?;
        Ok(())
    }

    // A line that says what stands for further rows.
    fn set(&mut self, alloc: Global, sign: &str, text: &str) -> Result<bool> {
        match sign {
            "let" => {
                let (name, text) = split_line(text);
                let pieces = self.names.read(alloc, text)?;
                self.names.add(alloc, name, pieces)?;
            }
            "words" => {
                self.words = Vec::new(alloc);
                self.given = Vec::new(alloc);
                self.around = None;
                self.forms = Vec::new(alloc);
                self.add_words(alloc, text)?;
            }
            "or" => self.add_words(alloc, text)?,
            "given" => {
                let (name, text) = split_line(text);
                let name = self.names.bytes(alloc, name)?;
                self.given.push((name, self.names.bytes(alloc, text)?))?;
            }
            "around" => {
                let (name, text) = split_line(text);
                let name = self.names.bytes(alloc, name)?;
                self.around = Some((name, self.names.read(alloc, text)?));
            }
            "form" => self.add_form(alloc, text)?,
            _ => return Ok(false),
        }
        Ok(true)
    }

    // A line that says what a row finds, and how it is to be tried.
    fn put(&mut self, alloc: Global, sign: &str, text: &str) -> Result<bool> {
        match sign {
            "file" => self.add_files(alloc, 1, text)?,
            "files" => {
                let (count, text) = split_line(text);
                self.add_files(alloc, number(count)?, text)?;
            }
            "room" => self.row.outside.out = Some(number(text)?),
            "err-room" => self.row.outside.err = Some(number(text)?),
            "fails" => self.row.outside.fails = Some(number(text)?),
            "rooms" => {
                self.row.rooms.out = text != "err";
                self.row.rooms.err = text != "out";
            }
            "reads" => {
                for name in text.split(' ') {
                    self.row.reads.push(String::from_str(alloc, name)?)?;
                }
            }
            "cuts" => {
                let (step, end) = split_line(text);
                self.row.cuts = Some(Cuts {
                    step: size(step)?,
                    end: size(end)?,
                });
            }
            _ => return Ok(false),
        }
        Ok(true)
    }

    // What a line wishes of an output.
    fn wish_of(&self, alloc: Global, sign: &str, text: &str) -> Result<Option<Wish>> {
        Ok(Some(match sign {
            "above" => Wish::Above(numbers(alloc, text)?),
            "length" => Wish::Length(number(text)?),
            "out" => Wish::Out(self.names.bytes(alloc, text)?),
            "begins" => Wish::Begins(self.names.bytes(alloc, text)?),
            "shape" => Wish::Shape(self.names.bytes(alloc, text)?),
            "shown" => Wish::Shown(self.names.bytes(alloc, text)?),
            "sentence" => Wish::Sentence(self.names.bytes(alloc, text)?),
            "derives" => Wish::Derives(self.names.bytes(alloc, text)?),
            "lacks" => Wish::Lacks(self.names.bytes(alloc, text)?),
            _ => return Ok(None),
        }))
    }

    // A line that says what is wished of the output, or behind `err` of the error stream.
    fn wish_for(&mut self, alloc: Global, sign: &str, text: &str) -> Result<bool> {
        let (is_told, sign) = match sign.strip_prefix("err") {
            None => (false, sign),
            Some("") => (true, "out"),
            Some(sign) => (true, sign.strip_prefix("-").unwrap_or(sign)),
        };
        match self.wish_of(alloc, sign, text)? {
            None => return Ok(false),
            Some(wish) if is_told => self.row.tellings.push(wish)?,
            Some(wish) => self.row.wishes.push(wish)?,
        }
        Ok(true)
    }

    // The end of a row, which has to end with one of these statuses by each of the words.
    fn run_row(
        &mut self,
        rt: &(impl Print + AllocGlobal),
        place: (&str, u64),
        statuses: &[u8],
    ) -> Result<()> {
        let (name, line) = place;
        let alloc = rt.alloc();
        let mut row = mem::replace(&mut self.row, Row::new(alloc));
        for (name, bytes) in &self.given {
            row.files.push((name.copy(alloc)?, bytes.copy(alloc)?))?;
        }
        for words in &self.words {
            match fault_of(alloc, words, &row, statuses)? {
                None => self.passed = self.passed.saturating_add(1),
                Some(fault) => {
                    self.failed = self.failed.saturating_add(1);
                    println!(rt; "{name}:{line}: {fault} ends otherwise")?;
                }
            }
        }
        Ok(())
    }

    // A row of a form, from what its line says.
    fn fill_row(&mut self, alloc: Global, form: usize, text: &str) -> Result<Option<u8>> {
        let Some(form) = self.forms.get(form) else {
            return Ok(None);
        };
        let (content, output) = match text.rsplit_once(" => ") {
            Some(parts) if form.is_filled => parts,
            _ => (text, ""),
        };
        let content = self.names.bytes(alloc, content)?;
        let output = self.names.bytes(alloc, output)?;
        let wish = Wish::Out(filled(alloc, form.text.as_slice(), 0, output.as_slice())?);
        if form.is_told {
            self.row.tellings.push(wish)?;
        } else {
            self.row.wishes.push(wish)?;
        }
        if let Some((name, around)) = &self.around {
            let file = filled(alloc, around.as_slice(), 0, content.as_slice())?;
            self.row.files.push((name.copy(alloc)?, file))?;
        }
        Ok(Some(form.status))
    }

    // The statuses with which a row ends that is complete with this line, if one is.
    fn statuses_of(&mut self, alloc: Global, sign: &str, text: &str) -> Result<Vec<u8>> {
        let mut statuses = Vec::new(alloc);
        if sign == "status" {
            for word in text.split(' ') {
                statuses.push(word.parse::<u8>().context("a status")?)?;
            }
            return Ok(statuses);
        }
        let form = self
            .forms
            .iter()
            .position(|form| form.sign.as_str() == sign);
        if let Some(form) = form {
            if let Some(status) = self.fill_row(alloc, form, text)? {
                statuses.push(status)?;
            }
        }
        Ok(statuses)
    }

    /// Takes a line; where it ends a row, the program is called for it.
    pub fn take(
        &mut self,
        rt: &(impl Print + AllocGlobal),
        place: (&str, u64),
        line: &str,
    ) -> Result<()> {
        if line.is_empty() || line.starts_with("#") {
            return Ok(());
        }
        let alloc = rt.alloc();
        let (sign, text) = split_line(line);
        let statuses = self.statuses_of(alloc, sign, text)?;
        if !statuses.is_empty() {
            return self.run_row(rt, place, statuses.as_slice());
        }
        let is_known = self.set(alloc, sign, text)?
            || self.put(alloc, sign, text)?
            || self.wish_for(alloc, sign, text)?;
        if is_known {
            Ok(())
        } else {
            let (name, line) = place;
            Err(anyhow!("{name}:{line}: a line of no kind"))
        }
    }
}
