//! The names that the language gives a meaning, beside variables and functions of the file.

ghost use Rattle.std.specs.Prelude.{◌≡◌, [], ◌∷◌, codes, map};
ghost use Rattle.walk_scope.specs.Names;

/// The built-in functions and values.
pub const SUPPORTED: [&str; 28] = [
    "fi",
    "numerictype",
    "fimath",
    "setfimath",
    "removefimath",
    "cast",
    "zeros",
    "ones",
    "numel",
    "length",
    "size",
    "true",
    "false",
    "abs",
    "real",
    "imag",
    "conj",
    "complex",
    "sum",
    "bitand",
    "bitor",
    "bitxor",
    "bitcmp",
    "bitsll",
    "bitsrl",
    "bitsra",
    "bitconcat",
    "bitsliceget",
];

/// Names of MATLAB that have no meaning here.
pub const UNSUPPORTED: [&str; 57] = [
    "single",
    "double",
    "int8",
    "int16",
    "int32",
    "int64",
    "uint8",
    "uint16",
    "uint32",
    "uint64",
    "logical",
    "bitshift",
    "bitget",
    "bitset",
    "accumpos",
    "accumneg",
    "max",
    "min",
    "prod",
    "mean",
    "sqrt",
    "sin",
    "cos",
    "atan2",
    "exp",
    "log",
    "floor",
    "ceil",
    "round",
    "fix",
    "nearest",
    "convergent",
    "reshape",
    "repmat",
    "any",
    "all",
    "find",
    "isempty",
    "mpy",
    "add",
    "plus",
    "minus",
    "times",
    "mtimes",
    "sfi",
    "ufi",
    "pi",
    "inf",
    "Inf",
    "nan",
    "NaN",
    "eps",
    "globalfimath",
    "varargin",
    "varargout",
    "nargin",
    "nargout",
];

/// The names of divisions.
pub const DIVISIONS: [&str; 4] = ["mod", "rem", "divide", "idivide"];

/// Whether a name is a built-in function or value.
#[tactic(auto, unfolding(crate::specs::Names::supported))]
pub fn is_supported(name: &[u8]) -> bool
    ensures { result ≡ Names.is_listed name.now Names.supported }
{
    is_among(name, &SUPPORTED)
}

/// Whether a name is one of MATLAB that has no meaning here.
#[tactic(auto, unfolding(crate::specs::Names::unsupported))]
pub fn is_unsupported(name: &[u8]) -> bool
    ensures { result ≡ Names.is_listed name.now Names.unsupported }
{
    is_among(name, &UNSUPPORTED)
}

/// Whether a name is that of a division.
#[tactic(auto, unfolding(crate::specs::Names::divisions))]
pub fn is_division(name: &[u8]) -> bool
    ensures { result ≡ Names.is_listed name.now Names.divisions }
{
    is_among(name, &DIVISIONS)
}

/// Whether a name is reserved for lists of any length.
pub fn is_reserved(name: &[u8]) -> bool
    ensures { result ≡ Names.is_listed name.now (codes "varargin" ∷ codes "varargout" ∷ []) }
{
    is_among(name, &["varargin", "varargout"])
}

// Whether a name stands in a table.
fn is_among(name: &[u8], names: &[&str]) -> bool
    ensures { result ≡ Names.is_listed name.now (map (λ s. s.now) names.now) }
{
    for other in names {
        if other.as_bytes() == name {
            return true;
        }
    }
    false
}
