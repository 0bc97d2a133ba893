//! What is written, and the memory for it.

use base_core::{Refusal, RowValues, Value};
use printing::{RowText, ValueText};
use std::alloc::{AllocError, Global};

/// What is written so far, and whether there was memory for all of it, and for all that was read for it. Where there was not,
/// what is asked goes on without, and the page counts for nothing in the end: so what writes and reads has no exit for memory.
pub struct Page {
    alloc: Global,
    text: String,
    is_whole: bool,
}

impl Drop for Page {
    fn drop(self) {
        let Page {
            alloc: _,
            text: _,
            is_whole: _,
        } = self;
    }
}

impl Page {
    /// Nothing is written.
    pub fn new(alloc: Global) -> Page {
        Page {
            alloc,
            text: String::new(alloc),
            is_whole: true,
        }
    }

    /// Where memory is taken for what is read.
    pub fn alloc(&self) -> Global {
        self.alloc
    }

    /// Notes whether there was memory.
    pub fn note<T: Drop, E: Drop>(&mut self, done: Result<T, E>) {
        if done.is_err() {
            self.is_whole = false;
        }
    }

    /// Notes whether it was done; the refusal is let go here.
    pub fn note_done(&mut self, done: Result<(), Refusal>) {
        self.note(done);
    }

    /// Notes that there was no memory.
    pub fn lack(&mut self) {
        self.is_whole = false;
    }

    /// What is written, where there was memory for all.
    ///
    /// # Errors
    /// Memory ran out.
    pub fn into_text(self) -> Result<String, AllocError> {
        let Page {
            alloc: _,
            text,
            is_whole,
        } = self;
        if is_whole { Ok(text) } else { Err(AllocError) }
    }

    /// What is written so far.
    pub fn text(&self) -> &str {
        self.text.as_str()
    }

    /// Notes that there was no memory, where there was none for another page.
    pub fn lack_of(&mut self, other: &Page) {
        if !other.is_whole {
            self.is_whole = false;
        }
    }

    /// Whether what is written comes at the start of a line.
    pub fn is_at_start(&self) -> bool {
        self.text.is_empty() || self.text.ends_with('\n')
    }

    /// A text.
    pub fn put(&mut self, text: &str) {
        let done = self.text.push_str(text);
        self.note(done);
    }

    /// A character.
    pub fn push(&mut self, letter: char) {
        let done = self.text.push(letter);
        self.note(done);
    }

    /// A number behind a text.
    pub fn put_number(&mut self, before: &str, number: u64) {
        let done = write!(self.text, "{before}{number}");
        self.note(done);
    }

    /// A value, as scripts print it.
    pub fn put_value(&mut self, value: &Value) {
        let value = ValueText(value);
        let done = write!(self.text, "{value}");
        self.note(done);
    }

    /// A row behind a text.
    pub fn put_row(&mut self, before: &str, row: &RowValues) {
        let row = RowText(row);
        let done = write!(self.text, "{before}{row}");
        self.note(done);
    }
}
