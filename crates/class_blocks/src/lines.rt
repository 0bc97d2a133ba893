//! Lines of classes.

ghost use Rattle.std.specs.Prelude.{◌≡◌, ◌==◌};
ghost use Rattle.std.specs.List.{list_any};
ghost use Rattle.class_blocks.specs.Lines.{has_class, is_above};

use base_core::ClassId;

/// Whether a class stands in the line.
pub fn has_class(line: &[ClassId], class: usize) -> bool
    ensures { result ≡ has_class line.now class }
{
    line.iter().any(|other| other.0 as usize == class)
}

/// Whether there is no owner, or it is a class that stands in the line.
pub fn is_above(owner: Option<usize>, line: &[ClassId]) -> bool
    ensures { result ≡ is_above owner line.now }
{
    match owner {
        Some(owner) => has_class(line, owner),
        None => true,
    }
}
