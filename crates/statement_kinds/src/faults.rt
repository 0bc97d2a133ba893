//! What is judged of two parts of a statement in reading order.

ghost use Rattle.std.specs.Prelude.{◌≡◌};
ghost use Rattle.statement_kinds.specs.Mismatches.{first_refusal};

use base_core::Refusal;

/// The first refusal of the two.
pub(crate) fn both(a: Result<(), Refusal>, b: Result<(), Refusal>) -> Result<(), Refusal>
    ensures { result ≡ first_refusal a b }
{
    a?;
    b
}
