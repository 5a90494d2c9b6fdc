//! Calls of fi.

ghost use Rattle.std.specs.Prelude.{◌≡◌, ◌≤◌, None, length, map};
ghost use Rattle.num_type.specs.View.{type_of};
ghost use Rattle.fi_rules.specs.Arguments as arguments;
ghost use Rattle.fi_rules.specs.Checked.{bind};
ghost use Rattle.fi_rules.specs.Types.{TypeTy};
ghost use Rattle.fi_rules.specs.Calls as rule;
ghost use Rattle.fi_rules.specs.View.{asked_view, checked_view, stated_view, stated_word, ty_view};

use crate::arguments::{bit_in, length_in, math_in, whole_in};
use crate::asked::{Asked, Stated};
use crate::missing::{Missing, counted, itself};
use crate::ty::Ty;
use crate::whole::sixteen;
use fi_math::Fimath;
use fic_base::Code;
use num_type::{Dyadic, NumType};

/// A call of fi.
#[tactic(auto, unfolding(crate::specs::Calls::fi_asked))]
pub fn fi_asked(args: &[Ty]) -> Result<Asked, Missing>
    ensures { checked_view asked_view result ≡ rule.fi_asked (map ty_view args.now) }
{
    let have = args.len();
    if have == 0 {
        Err(counted(0, 1))
    } else if have == 1 {
        best_asked(true, sixteen(), None, &args[0])
    } else if have == 2 {
        fi_one(&args[0], &args[1])
    } else if have == 3 {
        fi_two(&args[0], &args[1], &args[2])
    } else {
        fi_of_more(args)
    }
}

// The same with at least four arguments.
#[tactic(auto, unfolding(crate::specs::Calls::fi_asked))]
fn fi_of_more(args: &[Ty]) -> Result<Asked, Missing>
    requires { 4 ≤ length args.now }
    ensures { checked_view asked_view result ≡ rule.fi_asked (map ty_view args.now) }
{
    let have = args.len();
    if have == 4 {
        fi_three(&args[0], &args[1], &args[2], &args[3])
    } else if have == 5 {
        fi_four(&args[0], &args[1], &args[2], &args[3], &args[4])
    } else {
        Err(counted(have, 5))
    }
}

// One argument behind the value.
#[tactic(auto, unfolding(crate::specs::Calls::fi_one))]
fn fi_one(v: &Ty, s: &Ty) -> Result<Asked, Missing>
    ensures { checked_view asked_view result ≡ rule.fi_one (ty_view v.now) (ty_view s.now) }
{
    match s {
        Ty::Type(t) => stated_asked(Stated::Of(*t), None, v),
        Ty::Fi(_, _) => signed_asked(v, s),
        Ty::Number(_) => signed_asked(v, s),
        Ty::Words(_) => signed_asked(v, s),
        Ty::Math(_) => signed_asked(v, s),
        Ty::Other => signed_asked(v, s),
    }
}

// A signedness behind the value.
#[tactic(auto, unfolding(crate::specs::Checked::bind, crate::specs::Checked::needed))]
fn signed_asked(v: &Ty, s: &Ty) -> Result<Asked, Missing>
    ensures { checked_view asked_view result ≡ bind (rule.taken (arguments.bit_in (ty_view s.now))) (λ signed. rule.best_asked signed 16 None (ty_view v.now)) }
{
    match bit_in(s) {
        Some(signed) => best_asked(signed, sixteen(), None, v),
        None => Err(itself(Code::BadArgument)),
    }
}

// Two arguments behind the value.
#[tactic(auto, unfolding(crate::specs::Calls::fi_two))]
fn fi_two(v: &Ty, s: &Ty, w: &Ty) -> Result<Asked, Missing>
    ensures { checked_view asked_view result ≡ rule.fi_two (ty_view v.now) (ty_view s.now) (ty_view w.now) }
{
    match s {
        Ty::Type(t) => typed_asked(v, *t, w),
        Ty::Fi(_, _) => best_by(s, w, None, v),
        Ty::Number(_) => best_by(s, w, None, v),
        Ty::Words(_) => best_by(s, w, None, v),
        Ty::Math(_) => best_by(s, w, None, v),
        Ty::Other => best_by(s, w, None, v),
    }
}

// A type and a fimath behind the value.
#[tactic(auto, unfolding(crate::specs::Calls::fi_two, crate::specs::Checked::bind, crate::specs::Checked::needed))]
fn typed_asked(v: &Ty, t: NumType, m: &Ty) -> Result<Asked, Missing>
    ensures { checked_view asked_view result ≡ rule.fi_two (ty_view v.now) (TypeTy (type_of t)) (ty_view m.now) }
{
    match math_in(m) {
        Some(n) => stated_asked(Stated::Of(t), Some(n), v),
        None => Err(itself(Code::BadArgument)),
    }
}

// Three arguments behind the value.
#[tactic(auto, unfolding(crate::specs::Calls::fi_three))]
fn fi_three(v: &Ty, s: &Ty, w: &Ty, f: &Ty) -> Result<Asked, Missing>
    ensures { checked_view asked_view result ≡ rule.fi_three (ty_view v.now) (ty_view s.now) (ty_view w.now) (ty_view f.now) }
{
    match f {
        Ty::Math(m) => best_by(s, w, Some(*m), v),
        Ty::Fi(_, _) => parts_asked(v, s, w, f),
        Ty::Number(_) => parts_asked(v, s, w, f),
        Ty::Words(_) => parts_asked(v, s, w, f),
        Ty::Type(_) => parts_asked(v, s, w, f),
        Ty::Other => parts_asked(v, s, w, f),
    }
}

// A signedness, a word length and a fraction length behind the value.
#[tactic(auto, unfolding(crate::specs::Checked::bind))]
fn parts_asked(v: &Ty, s: &Ty, w: &Ty, f: &Ty) -> Result<Asked, Missing>
    ensures { checked_view asked_view result ≡ bind (rule.type_asked (ty_view s.now) (ty_view w.now) (ty_view f.now)) (λ t. rule.stated_asked t None (ty_view v.now)) }
{
    match type_asked(s, w, f) {
        Ok(stated) => stated_asked(stated, None, v),
        Err(missing) => Err(missing),
    }
}

// Four arguments behind the value.
#[tactic(auto, unfolding(crate::specs::Calls::fi_four, crate::specs::Checked::bind, crate::specs::Checked::needed))]
fn fi_four(v: &Ty, s: &Ty, w: &Ty, f: &Ty, m: &Ty) -> Result<Asked, Missing>
    ensures { checked_view asked_view result ≡ rule.fi_four (ty_view v.now) (ty_view s.now) (ty_view w.now) (ty_view f.now) (ty_view m.now) }
{
    match type_asked(s, w, f) {
        Ok(stated) => match math_in(m) {
            Some(n) => stated_asked(stated, Some(n), v),
            None => Err(itself(Code::BadArgument)),
        },
        Err(missing) => Err(missing),
    }
}

// A signedness and a word length, for the best fraction length.
#[tactic(auto, unfolding(crate::specs::Checked::bind, crate::specs::Checked::needed))]
fn best_by(s: &Ty, w: &Ty, m: Option<Fimath>, v: &Ty) -> Result<Asked, Missing>
    ensures { checked_view asked_view result ≡ rule.best_by (ty_view s.now) (ty_view w.now) m (ty_view v.now) }
{
    match bit_in(s) {
        Some(signed) => match length_in(w) {
            Some(word) => best_asked(signed, word, m, v),
            None => Err(itself(Code::BadArgument)),
        },
        None => Err(itself(Code::BadArgument)),
    }
}

// A constant at its best fraction length.
#[tactic(auto, unfolding(crate::specs::Calls::best_asked))]
fn best_asked(signed: bool, word: Dyadic, m: Option<Fimath>, v: &Ty) -> Result<Asked, Missing>
    ensures { checked_view asked_view result ≡ rule.best_asked signed (stated_word word) m (ty_view v.now) }
{
    match v {
        Ty::Number(c) => Ok(Asked::Takes(
            Stated::Best {
                signed,
                word,
                value: *c,
            },
            m,
        )),
        Ty::Fi(_, _) => Err(itself(Code::BadArgument)),
        Ty::Words(_) => Err(itself(Code::BadArgument)),
        Ty::Math(_) => Err(itself(Code::BadArgument)),
        Ty::Type(_) => Err(itself(Code::BadArgument)),
        Ty::Other => Err(itself(Code::BadArgument)),
    }
}

/// A number or a fi in a stated type. BadArgument for anything else.
#[tactic(auto, unfolding(crate::specs::Calls::is_numeric, crate::specs::Checked::choose))]
pub fn stated_asked(t: Stated, m: Option<Fimath>, v: &Ty) -> Result<Asked, Missing>
    ensures { checked_view asked_view result ≡ rule.stated_asked (stated_view t) m (ty_view v.now) }
{
    match v {
        Ty::Fi(_, _) => Ok(Asked::Takes(t, m)),
        Ty::Number(_) => Ok(Asked::Takes(t, m)),
        Ty::Words(_) => Err(itself(Code::BadArgument)),
        Ty::Math(_) => Err(itself(Code::BadArgument)),
        Ty::Type(_) => Err(itself(Code::BadArgument)),
        Ty::Other => Err(itself(Code::BadArgument)),
    }
}

/// A signedness, a word length and a fraction length.
#[tactic(auto, unfolding(crate::specs::Checked::bind, crate::specs::Checked::needed))]
pub fn type_asked(s: &Ty, w: &Ty, f: &Ty) -> Result<Stated, Missing>
    ensures { checked_view stated_view result ≡ rule.type_asked (ty_view s.now) (ty_view w.now) (ty_view f.now) }
{
    match bit_in(s) {
        Some(signed) => match length_in(w) {
            Some(word) => match whole_in(f) {
                Some(fraction) => Ok(Stated::Stated {
                    signed,
                    word,
                    fraction,
                }),
                None => Err(itself(Code::BadArgument)),
            },
            None => Err(itself(Code::BadArgument)),
        },
        None => Err(itself(Code::BadArgument)),
    }
}
