//! The built-in functions beside those of the rules.

ghost use Rattle.std.specs.Prelude.{◌≡◌, bytes_eq, drop, option_map};
ghost use Rattle.fi_rules.specs.Options.{named};
ghost use Rattle.fi_meaning.specs.Functions.{function_of, functions};
ghost use Rattle.eval_call.specs.View.{function_view};

/// A built-in function beside those of the rules.
#[derive(Clone, Copy, Debug, PartialEq, Eq)]
pub enum Function {
    /// `zeros`.
    Zeros,
    /// `ones`.
    Ones,
    /// `numel`.
    Numel,
    /// `length`.
    Length,
    /// `size`.
    Size,
    /// `true`.
    True,
    /// `false`.
    False,
    /// `real`.
    Real,
    /// `imag`.
    Imag,
    /// `conj`.
    Conj,
    /// `complex`.
    Complex,
    /// `sum`.
    Sum,
    /// `bitand`.
    BitAnd,
    /// `bitor`.
    BitOr,
    /// `bitxor`.
    BitXor,
    /// `bitcmp`.
    BitCmp,
    /// `bitsll`.
    BitShiftLeft,
    /// `bitsrl`.
    BitShiftRight,
    /// `bitsra`.
    BitShiftSign,
    /// `bitconcat`.
    BitConcat,
    /// `bitsliceget`.
    BitSlice,
}

/// The function of a name. None where none of them has it.
#[tactic(auto, unfolding(fi_meaning::specs::Functions::function_of, fi_rules::specs::Options::named))]
pub fn function_named(name: &[u8]) -> Option<Function>
    ensures { option_map function_view result ≡ function_of name.now }
{
    if is_text(name, b"zeros".as_slice()) {
        Some(Function::Zeros)
    } else if is_text(name, b"ones".as_slice()) {
        Some(Function::Ones)
    } else if is_text(name, b"numel".as_slice()) {
        Some(Function::Numel)
    } else if is_text(name, b"length".as_slice()) {
        Some(Function::Length)
    } else if is_text(name, b"size".as_slice()) {
        Some(Function::Size)
    } else if is_text(name, b"true".as_slice()) {
        Some(Function::True)
    } else if is_text(name, b"false".as_slice()) {
        Some(Function::False)
    } else {
        part_named(name)
    }
}

// The same of those that take parts and sums.
#[tactic(auto, unfolding(fi_rules::specs::Options::named))]
fn part_named(name: &[u8]) -> Option<Function>
    ensures { option_map function_view result ≡ named (drop 7 functions) name.now }
{
    if is_text(name, b"real".as_slice()) {
        Some(Function::Real)
    } else if is_text(name, b"imag".as_slice()) {
        Some(Function::Imag)
    } else if is_text(name, b"conj".as_slice()) {
        Some(Function::Conj)
    } else if is_text(name, b"complex".as_slice()) {
        Some(Function::Complex)
    } else if is_text(name, b"sum".as_slice()) {
        Some(Function::Sum)
    } else {
        bits_named(name)
    }
}

// The same of those on bits.
#[tactic(auto, unfolding(fi_rules::specs::Options::named))]
fn bits_named(name: &[u8]) -> Option<Function>
    ensures { option_map function_view result ≡ named (drop 12 functions) name.now }
{
    if is_text(name, b"bitand".as_slice()) {
        Some(Function::BitAnd)
    } else if is_text(name, b"bitor".as_slice()) {
        Some(Function::BitOr)
    } else if is_text(name, b"bitxor".as_slice()) {
        Some(Function::BitXor)
    } else if is_text(name, b"bitcmp".as_slice()) {
        Some(Function::BitCmp)
    } else if is_text(name, b"bitsll".as_slice()) {
        Some(Function::BitShiftLeft)
    } else if is_text(name, b"bitsrl".as_slice()) {
        Some(Function::BitShiftRight)
    } else if is_text(name, b"bitsra".as_slice()) {
        Some(Function::BitShiftSign)
    } else if is_text(name, b"bitconcat".as_slice()) {
        Some(Function::BitConcat)
    } else if is_text(name, b"bitsliceget".as_slice()) {
        Some(Function::BitSlice)
    } else {
        None
    }
}

// Whether a name is this text.
fn is_text(name: &[u8], text: &[u8]) -> bool
    ensures { result ≡ bytes_eq text.now name.now }
{
    text == name
}
