//! Calls that make objects.

ghost use Rattle.std.specs.Prelude.{◌≡◌, ◌%◌, [], ◌∷◌, length, map};
ghost use Rattle.fi_rules.specs.Calls as rule;
ghost use Rattle.fi_rules.specs.View.{asked_view, checked_view, ty_view};

use crate::asked::{Asked, Stated};
use crate::fi_calls::type_asked;
use crate::missing::{Missing, counted, itself};
use crate::properties::properties;
use crate::ty::Ty;
use fic_base::Code;

/// A call of numerictype.
#[tactic(auto, unfolding(crate::specs::Calls::numerictype_asked))]
pub fn numerictype_asked(args: &[Ty]) -> Result<Asked, Missing>
    ensures { checked_view asked_view result ≡ rule.numerictype_asked (map ty_view args.now) }
{
    let have = args.len();
    if have == 0 {
        Err(counted(0, 1))
    } else if have == 1 {
        type_made(&args[0])
    } else if have == 3 {
        stated_made(&args[0], &args[1], &args[2])
    } else {
        Err(counted(have, 3))
    }
}

// The type of a fi.
#[tactic(auto, unfolding(crate::specs::Calls::type_made))]
fn type_made(a: &Ty) -> Result<Asked, Missing>
    ensures { checked_view asked_view result ≡ rule.type_made (ty_view a.now) }
{
    match a {
        Ty::Fi(t, _) => Ok(Asked::MakesType(Stated::Of(*t))),
        Ty::Number(_) => Err(itself(Code::BadArgument)),
        Ty::Words(_) => Err(itself(Code::BadArgument)),
        Ty::Math(_) => Err(itself(Code::BadArgument)),
        Ty::Type(_) => Err(itself(Code::BadArgument)),
        Ty::Other => Err(itself(Code::BadArgument)),
    }
}

// A type of stated parts.
#[tactic(auto, unfolding(crate::specs::Calls::numerictype_asked, crate::specs::Checked::bind))]
fn stated_made(s: &Ty, w: &Ty, f: &Ty) -> Result<Asked, Missing>
    ensures { checked_view asked_view result ≡ rule.numerictype_asked (ty_view s.now ∷ ty_view w.now ∷ ty_view f.now ∷ []) }
{
    match type_asked(s, w, f) {
        Ok(stated) => Ok(Asked::MakesType(stated)),
        Err(missing) => Err(missing),
    }
}

/// A call of fimath.
pub fn fimath_asked(args: &[Ty]) -> Result<Asked, Missing>
    ensures { checked_view asked_view result ≡ rule.fimath_asked (map ty_view args.now) }
{
    let have = args.len();
    if have % 2 == 0 {
        math_made(args)
    } else {
        Err(counted(have, have + 1))
    }
}

// A fimath of pairs of names and values.
fn math_made(args: &[Ty]) -> Result<Asked, Missing>
    requires { length args.now % 2 ≡ 0 }
    ensures { checked_view asked_view result ≡ rule.fimath_asked (map ty_view args.now) }
{
    match properties(args) {
        Some(m) => Ok(Asked::MakesMath(m)),
        None => Err(itself(Code::BadArgument)),
    }
}
