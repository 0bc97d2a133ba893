//! Where expressions stand inside one.

ghost use Rattle.std.specs.Prelude.{◌≡◌};
ghost use Rattle.script_expr.specs.Expr as spec;

use script_lex::Kind;

/// Where an expression stands.
#[derive(Clone, Copy)]
pub enum Level {
    /// Anywhere.
    Whole,
    /// Under `not`.
    Negation,
    /// Under a unary minus.
    Unary,
}

/// Where the operand of a prefix stands, which is `not` or a minus.
pub fn operand_level(prefix: Kind) -> Level
    ensures { result ≡ spec.operand_level prefix }
{
    match prefix {
        Kind::Not => Level::Negation,
        Kind::Minus => Level::Unary,
        _ => Level::Whole,
    }
}
