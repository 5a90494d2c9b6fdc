//! The first missing condition of a node.

ghost use Rattle.std.specs.Prelude.{◌≡◌};
ghost use Rattle.fic_base.specs.declared.code.Code.TheVariants as code_of;
ghost use Rattle.fi_rules.specs.declared.missing.Shown.TheVariants as shown_of;

use fi_math::Fimath;
use fic_base::Code;
use num_type::Dyadic;

/// What a refusal shows.
#[derive(Clone, Copy, Debug, PartialEq, Eq)]
pub enum Shown {
    /// The operator, or the name that is called.
    Itself,
    /// The constant to the left where that is a literal behind at most one minus, and else the operator.
    LeftConstant,
    /// The constant to the right in the same way.
    RightConstant,
    /// So many arguments, and so many that are wanted.
    Counts(usize, usize),
    /// A word length, in bits.
    Word(u32),
    /// A fraction length, in bits.
    Fraction(i32),
    /// A word length or a fraction length that a source states: a whole constant.
    Whole(Dyadic),
    /// Two unequal fimaths.
    Differs(Fimath, Fimath),
}

/// The first condition of a node that is missing: the code of its refusal, and what that shows.
#[derive(Clone, Copy, Debug, PartialEq, Eq)]
pub struct Missing {
    pub code: Code,
    pub shown: Shown,
}

/// A missing condition that shows the operator or the name itself.
pub fn itself(code: Code) -> Missing
    ensures { result ≡ record { code = code; shown = shown_of.Itself } }
{
    Missing {
        code,
        shown: Shown::Itself,
    }
}

/// So many arguments in place of those that are wanted.
pub fn counted(have: usize, want: usize) -> Missing
    ensures { result ≡ record { code = code_of.ArgCount; shown = shown_of.Counts have want } }
{
    Missing {
        code: Code::ArgCount,
        shown: Shown::Counts(have, want),
    }
}
