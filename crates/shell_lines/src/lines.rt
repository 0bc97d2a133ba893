//! Which lines only compile, and the end of a block whose lines are skipped.

ghost use Rattle.std.specs.Prelude.{◌≡◌};
ghost use Rattle.std.specs.List.{list_all};
ghost use Rattle.script_lex.specs.Lex.{is_blank as blank};
ghost use Rattle.shell_lines.specs.Lines.{is_compiled as is_compiled_line, is_end as is_end_line, is_end_text};

use script_types::Command;

/// Whether a line only compiles.
pub(crate) fn is_compiled(line: &Command) -> bool
    ensures { result ≡ is_compiled_line line.now }
{
    matches!(
        line,
        Command::CompileRows(_, _)
            | Command::CompileObjects(_, _)
            | Command::CompileBulk(_, _)
            | Command::CompileTable(_, _)
    )
}

/// A blank.
fn is_blank(byte: u8) -> bool
    ensures { result ≡ blank byte }
{
    byte == b' ' || byte == b'\t'
}

/// Whether a line is the one word `end`, with blanks around it: the only line that counts in a block whose lines are skipped.
pub(crate) fn is_end(mut line: &[u8]) -> bool
    ensures { result ≡ is_end_line line.entry.now }
{
    while let [first, rest @ ..] = line {
        if !is_blank(*first) {
            return is_end_word(line);
        }
        line = rest;
    }
    false
}

/// Whether there are blanks alone.
fn all_blank(text: &[u8]) -> bool
    ensures { result ≡ list_all blank text.now }
{
    text.iter().all(|byte| is_blank(*byte))
}

/// Whether a text is the word `end`, and then blanks alone.
fn is_end_word(text: &[u8]) -> bool
    ensures { result ≡ is_end_text text.now }
{
    match text.strip_prefix(b"end") {
        Some(rest) => all_blank(rest),
        None => false,
    }
}
