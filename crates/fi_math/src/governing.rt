//! The governing fimath.

ghost use Rattle.std.specs.Prelude.{◌≡◌, Some};
ghost use Rattle.fi_math.specs.Govern.{governed};

use crate::fimath::Fimath;

/// The fimath that governs an operation, and the one that is attached to its result.
#[derive(Clone, Copy, Debug, PartialEq, Eq)]
pub struct Governed {
    /// What governs.
    pub math: Fimath,
    /// What is attached to the result: nothing where no operand has an attached fimath.
    pub attached: Option<Fimath>,
}

/// Two operands with unequal attached fimaths.
#[derive(Clone, Copy, Debug, PartialEq, Eq)]
pub struct Differ {
    /// That of the left operand.
    pub left: Fimath,
    /// That of the right operand.
    pub right: Fimath,
}

/// The governing fimath of two operands with these attached fimaths: the attached one, or the default one where none is attached.
/// Differ exactly where both have one and these are unequal in a property.
#[tactic(auto, unfolding(crate::specs::Govern::governed))]
pub fn govern(a: Option<Fimath>, b: Option<Fimath>) -> Result<Governed, Differ>
    ensures { result ≡ governed a b }
{
    match (a, b) {
        (None, None) => Ok(Governed {
            math: Fimath::usual(),
            attached: None,
        }),
        (Some(math), None) => Ok(attach(math)),
        (None, Some(math)) => Ok(attach(math)),
        (Some(left), Some(right)) => {
            if left.same(right) {
                Ok(attach(left))
            } else {
                Err(Differ { left, right })
            }
        }
    }
}

/// A fimath that governs and is attached.
fn attach(math: Fimath) -> Governed
    ensures { result ≡ record { math = math; attached = Some math } }
{
    Governed {
        math,
        attached: Some(math),
    }
}
