//! Answers to the lines of a text.

use crate::page::Page;

/// What answers one line after another.
pub trait Plays {
    /// Writes what a line comes to.
    fn play(&mut self, line: &str, page: &mut Page);
}

/// Writes what the lines of a text come to.
pub fn play_all<P: Plays>(plays: &mut P, text: &str, page: &mut Page) {
    for line in text.lines() {
        plays.play(line, page);
    }
}
