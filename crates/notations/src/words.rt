//! Numbers, names and values as words.

use crate::page::Page;
use base_core::{Blob, ListOf, Name, RowList, RowValues, Text, Value};

/// The number that a word says, 0 for any other word.
pub fn number(word: &str) -> u32 {
    word.parse().unwrap_or(0)
}

/// What stands before the first of these marks, and behind it; all where there is none.
pub fn parted(text: &str, mark: char) -> (&str, &str) {
    text.split_once(mark).unwrap_or((text, ""))
}

/// An integer, or NULL.
fn integer(word: &str) -> Value {
    match word.parse::<i64>() {
        Ok(n) => Value::Int(n),
        Err(_) => Value::Null,
    }
}

impl Page {
    /// An item goes to the end of a list.
    pub fn add<T: Drop>(&mut self, list: &mut ListOf<T>, item: T) {
        let done = list.push(item);
        self.note(done);
    }

    fn string(&mut self, text: &str) -> String {
        let mut copy = String::new(self.alloc());
        let done = copy.push_str(text);
        self.note(done);
        copy
    }

    fn bytes(&mut self, text: &str) -> Blob {
        match Vec::from_slice(self.alloc(), text.as_bytes()) {
            Ok(bytes) => Blob::new(bytes),
            Err(_) => {
                self.lack();
                Blob::new(Vec::new(self.alloc()))
            }
        }
    }

    /// The name that a word is, with a blank for each `~`.
    pub fn name(&mut self, word: &str) -> Name {
        let mut name = String::new(self.alloc());
        for letter in word.chars() {
            let done = name.push(if letter == '~' { ' ' } else { letter });
            self.note(done);
        }
        Name::new(name)
    }

    /// The name that a word is, none where it is empty.
    pub fn named(&mut self, word: &str) -> Option<Name> {
        if word.is_empty() {
            None
        } else {
            Some(self.name(word))
        }
    }

    /// Names with commas between them.
    pub(crate) fn names(&mut self, words: &str) -> ListOf<Name> {
        let mut names = ListOf::new(self.alloc());
        for word in words.split(',') {
            let name = self.name(word);
            self.add(&mut names, name);
        }
        names
    }

    /// A value: a text behind `'`, and another `'` may end it; bytes behind `#`; `true`, `t`, `false` or `f`; an integer. Every
    /// other word is NULL.
    pub fn value(&mut self, word: &str) -> Value {
        if let Some(text) = word.strip_prefix('\'') {
            let text = text.strip_suffix('\'').unwrap_or(text);
            return Value::Text(Text::new(self.string(text)));
        }
        if let Some(bytes) = word.strip_prefix('#') {
            return Value::Bytes(self.bytes(bytes));
        }
        match word {
            "true" | "t" => Value::Bool(true),
            "false" | "f" => Value::Bool(false),
            _ => integer(word),
        }
    }

    /// Values with commas or blanks between them.
    pub fn row(&mut self, text: &str) -> RowValues {
        let mut values = ListOf::new(self.alloc());
        for word in text.split([' ', ',']) {
            if !word.is_empty() {
                let value = self.value(word);
                self.add(&mut values, value);
            }
        }
        values
    }

    /// Rows, each ended by a mark.
    pub fn rows(&mut self, text: &str, mark: char) -> RowList {
        let mut all = ListOf::new(self.alloc());
        for line in text.split(mark) {
            if !line.is_empty() {
                let row = self.row(line);
                self.add(&mut all, row);
            }
        }
        all
    }
}
