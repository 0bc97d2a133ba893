//! Copies that equal what they copy.

ghost use Rattle.std.specs.Prelude.{◌≡◌, Ok, IfOk, IsOk};

use std::alloc::AllocError;

/// A type whose copies equal the original.
pub trait Copied: Sized {
    /// A value equal to this one. The only error is that memory ran out.
    fn copied(&self) -> Result<Self, AllocError>
        ensures { IfOk result (λ copy. copy ≡ self.now) };
}

/// Both values, where both are there. One exit in place of two, at which no value is held that its caller would have to drop.
pub fn both<A: Drop, B: Drop>(
    a: Result<A, AllocError>,
    b: Result<B, AllocError>,
) -> Result<(A, B), AllocError>
    ensures both { IfOk result (λ it. (a ≡ Ok it.0) × (b ≡ Ok it.1)) }
    ensures whole { IsOk a → IsOk b → IsOk result }
{
    Ok((a?, b?))
}

impl<A: Copied + Drop, B: Copied + Drop> Copied for (A, B) {
    fn copied(&self) -> Result<(A, B), AllocError> {
        both(self.0.copied(), self.1.copied())
    }
}

impl<T: Copied + Drop> Copied for Option<T> {
    fn copied(&self) -> Result<Option<T>, AllocError> {
        match self {
            Some(item) => Ok(Some(item.copied()?)),
            None => Ok(None),
        }
    }
}

impl Copied for u32 {
    fn copied(&self) -> Result<u32, AllocError> {
        Ok(*self)
    }
}

impl Copied for bool {
    fn copied(&self) -> Result<bool, AllocError> {
        Ok(*self)
    }
}
