//! Table files that a script makes.

use crate::block::Block;
use crate::text::{number_and, unescape};
use std::alloc::{AllocError, Global};
use std::fmt::Write;
use tq_base::List;
use tq_event::{FileBytes, TableFile};

#[derive(Drop)]
struct Table {
    name: Vec<u8>,
    bytes: Vec<u8>,
}

/// The table files so far, in the order in which they were made.
#[derive(Drop)]
pub struct TableFiles {
    tables: Vec<Table>,
}

// Adds the text and a line feed.
fn add_line(alloc: Global, text: &str, bytes: &mut Vec<u8>) -> Result<(), AllocError> {
    bytes.extend_from_slice(&unescape(alloc, text)?)?;
    bytes.push(b'\n')?;
    Ok(())
}

impl TableFiles {
    pub fn new(alloc: Global) -> TableFiles {
        TableFiles {
            tables: Vec::new(alloc),
        }
    }

    /// Copies of the files.
    pub fn copies(&self, alloc: Global) -> Result<Vec<TableFile>, AllocError> {
        let mut copies = Vec::new(alloc);
        for table in &self.tables {
            copies.push(TableFile {
                name: List::of(table.name.as_slice().to_vec(alloc)?),
                bytes: FileBytes::of(table.bytes.as_slice().to_vec(alloc)?),
            })?;
        }
        Ok(copies)
    }

    /// The files; none are left.
    pub fn take(&mut self, alloc: Global) -> Result<Vec<TableFile>, AllocError> {
        let files = self.copies(alloc)?;
        self.tables.clear();
        Ok(files)
    }

    /// The bytes of the last file; none if there is no file.
    pub fn last_bytes(&self) -> &[u8] {
        match self.tables.last() {
            Some(table) => table.bytes.as_slice(),
            None => &[],
        }
    }

    /// Adds bytes to the last file.
    pub fn add(&mut self, bytes: &[u8]) -> Result<(), AllocError> {
        match self.tables.last_mut() {
            Some(table) => table.bytes.extend_from_slice(bytes),
            None => Ok(()),
        }
    }

    /// Begins a file with this name and these lines.
    pub fn begin(&mut self, alloc: Global, name: &str, lines: &[String]) -> Result<(), AllocError> {
        let mut bytes = Vec::new(alloc);
        for line in lines {
            add_line(alloc, line.as_str(), &mut bytes)?;
        }
        self.tables.push(Table {
            name: unescape(alloc, name)?,
            bytes,
        })?;
        Ok(())
    }

    // Adds the bytes n times.
    fn repeat(&mut self, alloc: Global, text: &str) -> Result<(), AllocError> {
        let (count, text) = number_and(text);
        let bytes = unescape(alloc, text)?;
        for _ in 0..count {
            self.add(&bytes)?;
        }
        Ok(())
    }

    // Adds n rows: number i, from i for the given length.
    fn rise(&mut self, alloc: Global, text: &str) -> Result<(), AllocError> {
        let (count, length) = number_and(text);
        let length: u32 = length.parse().unwrap_or(0);
        let mut rows = String::new(alloc);
        for number in 0..count {
            let end = number.saturating_add(length);
            writeln!(rows, "{number},{number},{end}")?;
        }
        self.add(rows.as_str().as_bytes())
    }

    fn cut(&mut self, len: u32) {
        if let Some(table) = self.tables.last_mut() {
            table.bytes.truncate(len as usize);
        }
    }

    /// Runs the block if it makes tables; whether it does.
    ///
    /// `table NAME` begins a file with the lines of the input. `bytes TEXT` adds the text to the last file, `repeat N
    /// TEXT` adds it n times, `rising N LENGTH` adds n rows of a number i from i to i + LENGTH, `cut LEN` keeps the
    /// first bytes, and `clear` removes all files. Texts are written as `unescape` reads them.
    pub fn run(&mut self, alloc: Global, block: &Block) -> Result<bool, AllocError> {
        let text = block.arguments();
        match block.word() {
            "table" => self.begin(alloc, text, &block.input)?,
            "bytes" => self.add(&unescape(alloc, text)?)?,
            "repeat" => self.repeat(alloc, text)?,
            "rising" => self.rise(alloc, text)?,
            "cut" => self.cut(number_and(text).0),
            "clear" => self.tables.clear(),
            _ => return Ok(false),
        }
        Ok(true)
    }
}
