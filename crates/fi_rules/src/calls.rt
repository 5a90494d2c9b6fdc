//! Calls of built-in functions.

ghost use Rattle.std.specs.Prelude.{◌≡◌, map};
ghost use Rattle.fi_rules.specs.Calls as rule;
ghost use Rattle.fi_rules.specs.View.{asked_view, checked_view, ty_view};

use crate::asked::Asked;
use crate::attach_calls::{abs_asked, cast_asked, removefimath_asked, setfimath_asked};
use crate::built_ins::BuiltIn;
use crate::fi_calls::fi_asked;
use crate::missing::Missing;
use crate::object_calls::{fimath_asked, numerictype_asked};
use crate::ty::Ty;

/// What a call of a built-in function on arguments of these types asks for. Its first missing condition is the refusal: ArgCount, and then
/// BadArgument.
#[tactic(auto, unfolding(crate::specs::Calls::asked))]
pub fn ask(b: BuiltIn, args: &[Ty]) -> Result<Asked, Missing>
    ensures { checked_view asked_view result ≡ rule.asked b (map ty_view args.now) }
{
    match b {
        BuiltIn::Abs => abs_asked(args),
        BuiltIn::Fi => fi_asked(args),
        BuiltIn::Numerictype => numerictype_asked(args),
        BuiltIn::Fimath => fimath_asked(args),
        BuiltIn::SetFimath => setfimath_asked(args),
        BuiltIn::RemoveFimath => removefimath_asked(args),
        BuiltIn::Cast => cast_asked(args),
    }
}
