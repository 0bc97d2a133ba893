//! A text as it is written, piece by piece.

ghost use Rattle.std.specs.Prelude.{◌≡◌, ◌∷◌, [], IfOk, OnOk, OnErr, string_bytes};
ghost use Rattle.sql_text.specs.Written as spec;
ghost use Rattle.sql_text.specs.Written.{Wrote, nothing_written, mark_name};

use crate::bases::Bases;
use crate::names::{cleaned, needs_quotes, quoted};
use base_core::{Copied, Dialect, ListOf, Name, RowValues, Text, Value, both};
use std::alloc::{AllocError, Global};
use std::marker::Model;

/// A statement's text, the names of its marks and their values, in the order of the text.
pub struct Compiled {
    pub text: Text,
    pub names: ListOf<Name>,
    pub values: RowValues,
}

impl Drop for Compiled {
    fn drop(self) {
        let Compiled {
            text: _,
            names: _,
            values: _,
        } = self;
    }
}

impl Compiled {
    /// The text alone.
    pub fn into_text(self) -> Text
        ensures { result ≡ self.text }
    {
        let Compiled {
            text,
            names: _,
            values: _,
        } = self;
        text
    }
}

/// A text as it is written, with its marks and their values.
pub struct Writer {
    alloc: Global,
    dialect: Dialect,
    text: String,
    bases: Bases,
    names: Vec<Name>,
    values: Vec<Value>,
}

impl Drop for Writer {
    fn drop(self) {
        let Writer {
            alloc: _,
            dialect: _,
            text: _,
            bases: _,
            names: _,
            values: _,
        } = self;
    }
}

impl Model for Writer {
    ghost use Rattle.std.specs.Prelude.{string_bytes};
    ghost use Rattle.sql_text.specs.Written.{Written};

    ghost Value = { Written };

    ghost view = { λ w. record { dialect = w.dialect; text = string_bytes w.text; bases = w.bases; names = w.names.items; values = w.values.items } };
}

/// A mark's name.
fn mark_name(alloc: Global, base: &str, number: u64) -> Result<Name, AllocError>
    ensures { IfOk result (λ shown. shown ≡ mark_name base.now number) }
{
    Ok(Name::new(format!(in alloc; "{base}_{number}")?))
}

/// A mark of a name as it stands in a text.
fn mark_text(alloc: Global, dialect: Dialect, shown: &str) -> Result<String, AllocError>
    ensures { IfOk result (λ text. string_bytes text ≡ spec.mark_text dialect shown.now) }
{
    match dialect {
        Dialect::Sqlite => String::from_str(alloc, "?"),
        Dialect::Postgresql => format!(in alloc; "%({shown})s"),
        Dialect::Mysql => String::from_str(alloc, "%s"),
    }
}

/// Copies of the items.
fn copies<T: Copied + Drop>(alloc: Global, items: &[T]) -> Result<Vec<T>, AllocError>
    ensures { IfOk result (λ copy. copy.items ≡ items.now) }
{
    let mut copy = Vec::with_capacity(alloc, items.len())?;
    for item in items {
        copy.push(item.copied()?)?;
    }
    Ok(copy)
}

impl Writer {
    /// Nothing is written yet.
    pub fn new(alloc: Global, dialect: Dialect) -> Writer
        ensures { result ≡ nothing_written dialect }
    {
        Writer {
            alloc,
            dialect,
            text: String::new(alloc),
            bases: Bases::new(alloc),
            names: Vec::new(alloc),
            values: Vec::new(alloc),
        }
    }

    /// The dialect.
    pub fn dialect(&self) -> Dialect
        ensures { result ≡ self.now.dialect }
    {
        self.dialect
    }

    /// The allocator of what is written.
    pub fn alloc(&self) -> Global {
        self.alloc
    }

    /// The words are appended as they are. Where it is refused, all is as it was.
    #[tactic(auto, unfolding(crate::specs::Written::put_piece, crate::specs::Written::put_all))]
    pub fn put_words(&mut self, words: &str) -> Result<(), AllocError>
        ensures wrote { Wrote (spec.words words.now ∷ []) result self.old self.new }
        ensures kept { OnErr result (self.new ≡ self.old) }
    {
        self.text.push_str(words)
    }

    /// The name is appended, quoted where it is to be. Where it is refused, all is as
    /// it was.
    pub fn put_name(&mut self, name: &Name) -> Result<(), AllocError>
        ensures wrote { Wrote (spec.name name.now ∷ []) result self.old self.new }
        ensures kept { OnErr result (self.new ≡ self.old) }
    {
        self.put_shown(name.get())
    }

    /// The same of a name that is shown.
    #[tactic(auto, unfolding(crate::specs::Written::put_piece, crate::specs::Written::put_all, crate::specs::Names::name_text))]
    pub fn put_shown(&mut self, name: &str) -> Result<(), AllocError>
        ensures wrote { Wrote (spec.name name.now ∷ []) result self.old self.new }
        ensures kept { OnErr result (self.new ≡ self.old) }
    {
        if needs_quotes(name) {
            let shown = quoted(self.alloc, self.dialect, name)?;
            self.text.push_str(shown.as_str())
        } else {
            self.text.push_str(name)
        }
    }

    /// The next mark under this base name is appended, with the value as its parameter. Where it is
    /// refused, all is as it was.
    pub fn put_value(&mut self, base: &Name, value: &Value) -> Result<(), AllocError>
        ensures wrote { Wrote (spec.value base.now value.now ∷ []) result self.old self.new }
        ensures kept { OnErr result (self.new ≡ self.old) }
    {
        self.put_mark(base.get(), value)
    }

    /// The same under a base name that is shown.
    #[tactic(auto, unfolding(crate::specs::Written::put_piece, crate::specs::Written::put_all))]
    pub fn put_mark(&mut self, base: &str, value: &Value) -> Result<(), AllocError>
        ensures wrote { Wrote (spec.value base.now value.now ∷ []) result self.old self.new }
        ensures kept { OnErr result (self.new ≡ self.old) }
    {
        let base = cleaned(self.alloc, base)?;
        self.put_next(base, value.copied()?)
    }

    /// The next mark under a base name that is clean.
    fn put_next(&mut self, base: String, value: Value) -> Result<(), AllocError>
        ensures ok { OnOk result (self.new ≡ spec.put_value self.old (string_bytes base) value) }
        ensures kept { OnErr result (self.new ≡ self.old) }
    {
        let number = self.bases.next(base.as_str())?;
        let name = mark_name(self.alloc, base.as_str(), number)?;
        let shown = mark_text(self.alloc, self.dialect, name.get())?;
        self.names.reserve(1)?;
        self.values.reserve(1)?;
        self.text.reserve(shown.len())?;
        self.bases.push(base, number)?;
        let Ok(()) = self.text.push_str(shown.as_str()) else {
            unreachable!();
        };
        self.names.push_reserved(name);
        self.values.push_reserved(value);
        Ok(())
    }

    /// The same in memory of its own.
    pub fn copied(&self) -> Result<Writer, AllocError>
        ensures { IfOk result (λ copy. copy ≡ self.now) }
    {
        let bases = self.bases.copied(self.alloc)?;
        let (text, (names, values)) = both(
            self.text.clone(),
            both(
                copies(self.alloc, self.names.as_slice()),
                copies(self.alloc, self.values.as_slice()),
            ),
        )?;
        Ok(Writer {
            alloc: self.alloc,
            dialect: self.dialect,
            text,
            bases,
            names,
            values,
        })
    }

    /// What was appended.
    pub fn finish(self) -> Compiled
        ensures { result ≡ spec.compiled_statement self }
    {
        let Writer {
            alloc: _,
            dialect: _,
            text,
            bases: _,
            names,
            values,
        } = self;
        Compiled {
            text: Text::new(text),
            names: ListOf::from_vec(names),
            values: ListOf::from_vec(values),
        }
    }
}
