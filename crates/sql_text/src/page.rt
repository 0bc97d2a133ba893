//! A page: a text as it is written, which notes itself whether there was memory for all of it.

ghost use Rattle.std.specs.Prelude.{◌≡◌, ◌∷◌, [], IfOk, OnOk, true};
ghost use Rattle.sql_text.specs.Pages.{WroteOn, broken_page, whole_page};
ghost use Rattle.sql_text.specs.Written as spec;
ghost use Rattle.sql_text.specs.Written.{nothing_written};

use crate::writer::Writer;
use base_core::{Dialect, Name, Value};
use std::alloc::{AllocError, Global};
use std::marker::Model;

/// A text as it is written. What is put on it answers nothing: in the end the page says whether there was memory for
/// all of it.
pub struct Page {
    writer: Writer,
    is_whole: bool,
}

impl Drop for Page {
    fn drop(self) {
        let Page {
            writer: _,
            is_whole: _,
        } = self;
    }
}

impl Model for Page {
    ghost use Rattle.sql_text.specs.Pages.{Paged};

    ghost Value = { Paged };

    ghost view = { λ p. record { written = p.writer; is_whole = p.is_whole } };
}

impl Page {
    /// Nothing is written yet.
    pub fn new(alloc: Global, dialect: Dialect) -> Page
        ensures { result ≡ whole_page (nothing_written dialect) }
    {
        Page::of(Writer::new(alloc, dialect))
    }

    /// What the writer wrote, to which more is put.
    pub fn of(writer: Writer) -> Page
        ensures { result ≡ whole_page writer }
    {
        Page {
            writer,
            is_whole: true,
        }
    }

    /// The dialect.
    pub fn dialect(&self) -> Dialect
        ensures { result ≡ self.now.written.dialect }
    {
        self.writer.dialect()
    }

    /// The allocator of what is written.
    pub fn alloc(&self) -> Global {
        self.writer.alloc()
    }

    /// Memory ran out.
    pub fn give_up(&mut self)
        ensures { self.new ≡ broken_page self.old.written }
    {
        self.is_whole = false;
    }

    /// The words are appended as they are.
    #[tactic(auto, unfolding(crate::specs::Pages::put_on))]
    pub fn put_words(&mut self, words: &str)
        ensures { WroteOn (spec.words words.now ∷ []) self.old self.new }
    {
        match self.writer.put_words(words) {
            Ok(()) => {}
            Err(_) => self.is_whole = false,
        }
    }

    /// The name is appended, quoted where it is to be.
    pub fn put_name(&mut self, name: &Name)
        ensures { WroteOn (spec.name name.now ∷ []) self.old self.new }
    {
        self.put_shown(name.get());
    }

    /// The same of a name that is shown.
    #[tactic(auto, unfolding(crate::specs::Pages::put_on))]
    pub fn put_shown(&mut self, name: &str)
        ensures { WroteOn (spec.name name.now ∷ []) self.old self.new }
    {
        match self.writer.put_shown(name) {
            Ok(()) => {}
            Err(_) => self.is_whole = false,
        }
    }

    /// The next mark under this base name is appended, with the value as its parameter.
    pub fn put_value(&mut self, base: &Name, value: &Value)
        ensures { WroteOn (spec.value base.now value.now ∷ []) self.old self.new }
    {
        self.put_mark(base.get(), value);
    }

    /// The same under a base name that is shown.
    #[tactic(auto, unfolding(crate::specs::Pages::put_on))]
    pub fn put_mark(&mut self, base: &str, value: &Value)
        ensures { WroteOn (spec.value base.now value.now ∷ []) self.old self.new }
    {
        match self.writer.put_mark(base, value) {
            Ok(()) => {}
            Err(_) => self.is_whole = false,
        }
    }

    /// What was written, where there was memory for all of it.
    ///
    /// # Errors
    /// Memory ran out.
    pub fn written(self) -> Result<Writer, AllocError>
        ensures whole { OnOk result (self.is_whole ≡ true) }
        ensures written { IfOk result (λ writer. writer ≡ self.written) }
    {
        let Page { writer, is_whole } = self;
        if is_whole {
            Ok(writer)
        } else {
            Err(AllocError)
        }
    }
}
