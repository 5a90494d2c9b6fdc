//! What calls of built-in functions ask for.

use fi_math::Fimath;
use num_type::{Dyadic, NumType};

/// A type that a call asks for, before its limits are tested.
#[derive(Clone, Copy)]
pub enum Stated {
    /// That of a fi or of an object.
    Of(NumType),
    /// One of these parts, all stated: whole constants, the word length from 1 on.
    Stated {
        signed: bool,
        word: Dyadic,
        fraction: Dyadic,
    },
    /// One at the best fraction length of a constant.
    Best {
        signed: bool,
        word: Dyadic,
        value: Dyadic,
    },
}

/// What a call asks for, before the limits of its type are tested.
#[derive(Clone, Copy)]
pub enum Asked {
    /// Its first argument in this type, with this fimath, which quantises it, or else the default one.
    Takes(Stated, Option<Fimath>),
    /// Its first argument with this fimath in place of its own.
    Attaches(Option<Fimath>),
    /// Its first argument without its sign.
    TakesSign,
    /// A numerictype object.
    MakesType(Stated),
    /// A fimath object.
    MakesMath(Fimath),
}
