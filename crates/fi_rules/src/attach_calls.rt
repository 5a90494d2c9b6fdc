//! Calls that attach a fimath, that cast, and that take a sign away.

ghost use Rattle.std.specs.Prelude.{◌≡◌, map};
ghost use Rattle.num_type.specs.View.{type_of};
ghost use Rattle.fi_rules.specs.Calls as rule;
ghost use Rattle.fi_rules.specs.Types.{FiTy, TextTy};
ghost use Rattle.fi_rules.specs.View.{asked_view, checked_view, ty_view};

use crate::asked::{Asked, Stated};
use crate::fi_calls::stated_asked;
use crate::missing::{Missing, counted, itself};
use crate::names::is_text;
use crate::ty::Ty;
use fi_math::Fimath;
use fic_base::Code;
use num_type::NumType;

/// A call of abs.
#[tactic(auto, unfolding(crate::specs::Calls::abs_asked))]
pub fn abs_asked(args: &[Ty]) -> Result<Asked, Missing>
    ensures { checked_view asked_view result ≡ rule.abs_asked (map ty_view args.now) }
{
    if args.len() == 1 {
        sign_asked(&args[0])
    } else {
        Err(counted(args.len(), 1))
    }
}

// The value of a fi without its sign.
#[tactic(auto, unfolding(crate::specs::Calls::sign_asked))]
fn sign_asked(a: &Ty) -> Result<Asked, Missing>
    ensures { checked_view asked_view result ≡ rule.sign_asked (ty_view a.now) }
{
    match a {
        Ty::Fi(_, _) => Ok(Asked::TakesSign),
        Ty::Number(_) => Err(itself(Code::BadArgument)),
        Ty::Words(_) => Err(itself(Code::BadArgument)),
        Ty::Math(_) => Err(itself(Code::BadArgument)),
        Ty::Type(_) => Err(itself(Code::BadArgument)),
        Ty::Other => Err(itself(Code::BadArgument)),
    }
}

/// A call of setfimath.
#[tactic(auto, unfolding(crate::specs::Calls::setfimath_asked))]
pub fn setfimath_asked(args: &[Ty]) -> Result<Asked, Missing>
    ensures { checked_view asked_view result ≡ rule.setfimath_asked (map ty_view args.now) }
{
    if args.len() == 2 {
        set_asked(&args[0], &args[1])
    } else {
        Err(counted(args.len(), 2))
    }
}

// A fi with a fimath in place of its own.
#[tactic(auto, unfolding(crate::specs::Calls::set_asked))]
fn set_asked(a: &Ty, b: &Ty) -> Result<Asked, Missing>
    ensures { checked_view asked_view result ≡ rule.set_asked (ty_view a.now) (ty_view b.now) }
{
    match a {
        Ty::Fi(t, m) => attached(*t, *m, b),
        Ty::Number(_) => Err(itself(Code::BadArgument)),
        Ty::Words(_) => Err(itself(Code::BadArgument)),
        Ty::Math(_) => Err(itself(Code::BadArgument)),
        Ty::Type(_) => Err(itself(Code::BadArgument)),
        Ty::Other => Err(itself(Code::BadArgument)),
    }
}

/// A call of removefimath.
#[tactic(auto, unfolding(crate::specs::Calls::removefimath_asked))]
pub fn removefimath_asked(args: &[Ty]) -> Result<Asked, Missing>
    ensures { checked_view asked_view result ≡ rule.removefimath_asked (map ty_view args.now) }
{
    if args.len() == 1 {
        remove_asked(&args[0])
    } else {
        Err(counted(args.len(), 1))
    }
}

// A fi without its fimath.
#[tactic(auto, unfolding(crate::specs::Calls::remove_asked))]
fn remove_asked(a: &Ty) -> Result<Asked, Missing>
    ensures { checked_view asked_view result ≡ rule.remove_asked (ty_view a.now) }
{
    match a {
        Ty::Fi(_, _) => Ok(Asked::Attaches(None)),
        Ty::Number(_) => Err(itself(Code::BadArgument)),
        Ty::Words(_) => Err(itself(Code::BadArgument)),
        Ty::Math(_) => Err(itself(Code::BadArgument)),
        Ty::Type(_) => Err(itself(Code::BadArgument)),
        Ty::Other => Err(itself(Code::BadArgument)),
    }
}

// A fi of this type with another value's fimath.
#[tactic(auto, unfolding(crate::specs::Calls::set_asked))]
fn attached(t: NumType, m: Option<Fimath>, b: &Ty) -> Result<Asked, Missing>
    ensures { checked_view asked_view result ≡ rule.set_asked (FiTy (type_of t) m) (ty_view b.now) }
{
    match b {
        Ty::Math(n) => Ok(Asked::Attaches(Some(*n))),
        Ty::Fi(_, _) => Err(itself(Code::BadArgument)),
        Ty::Number(_) => Err(itself(Code::BadArgument)),
        Ty::Words(_) => Err(itself(Code::BadArgument)),
        Ty::Type(_) => Err(itself(Code::BadArgument)),
        Ty::Other => Err(itself(Code::BadArgument)),
    }
}

/// A call of cast.
#[tactic(auto, unfolding(crate::specs::Calls::cast_asked))]
pub fn cast_asked(args: &[Ty]) -> Result<Asked, Missing>
    ensures { checked_view asked_view result ≡ rule.cast_asked (map ty_view args.now) }
{
    if args.len() == 3 {
        like_asked(&args[0], &args[1], &args[2])
    } else {
        Err(counted(args.len(), 3))
    }
}

// A value, the word like, and the fi whose type and fimath are taken.
#[tactic(auto, unfolding(crate::specs::Calls::like_asked))]
fn like_asked(v: &Ty, a: &Ty, b: &Ty) -> Result<Asked, Missing>
    ensures { checked_view asked_view result ≡ rule.like_asked (ty_view v.now) (ty_view a.now) (ty_view b.now) }
{
    match a {
        Ty::Words(text) => like_text(v, text.as_bytes(), b),
        Ty::Fi(_, _) => Err(itself(Code::BadArgument)),
        Ty::Number(_) => Err(itself(Code::BadArgument)),
        Ty::Math(_) => Err(itself(Code::BadArgument)),
        Ty::Type(_) => Err(itself(Code::BadArgument)),
        Ty::Other => Err(itself(Code::BadArgument)),
    }
}

// The same behind a text.
#[tactic(auto, unfolding(crate::specs::Calls::like_asked))]
fn like_text(v: &Ty, word: &[u8], b: &Ty) -> Result<Asked, Missing>
    ensures { checked_view asked_view result ≡ rule.like_asked (ty_view v.now) (TextTy word.now) (ty_view b.now) }
{
    match b {
        Ty::Fi(t, m) => like_fi(v, word, *t, *m),
        Ty::Number(_) => Err(itself(Code::BadArgument)),
        Ty::Words(_) => Err(itself(Code::BadArgument)),
        Ty::Math(_) => Err(itself(Code::BadArgument)),
        Ty::Type(_) => Err(itself(Code::BadArgument)),
        Ty::Other => Err(itself(Code::BadArgument)),
    }
}

// A value in the type of a fi, where the word is like.
#[tactic(auto, unfolding(crate::specs::Calls::like_asked, crate::specs::Checked::choose))]
fn like_fi(v: &Ty, word: &[u8], t: NumType, m: Option<Fimath>) -> Result<Asked, Missing>
    ensures { checked_view asked_view result ≡ rule.like_asked (ty_view v.now) (TextTy word.now) (FiTy (type_of t) m) }
{
    if is_text(word, b"like".as_slice()) {
        stated_asked(Stated::Of(t), m, v)
    } else {
        Err(itself(Code::BadArgument))
    }
}
