//! What is asked of two parts of a statement in reading order.

ghost use Rattle.std.specs.Prelude.{◌≡◌, IfOk, Ok};
ghost use Rattle.script_names.specs.Faults.{pair_or_refusal};

use base_core::Refusal;

/// Both parts, or the first refusal of the two. One exit in place of two, at which no tree is held that its caller would have
/// to drop.
pub fn pair<A: Drop, B: Drop>(
    a: Result<A, Refusal>,
    b: Result<B, Refusal>,
) -> Result<(A, B), Refusal>
    ensures told { result ≡ pair_or_refusal a b }
    ensures values { IfOk result (λ it. (a ≡ Ok it.0) × (b ≡ Ok it.1)) }
{
    Ok((a?, b?))
}
