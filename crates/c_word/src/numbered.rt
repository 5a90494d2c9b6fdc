//! Words that are numbers, or a letter and a number.

ghost use Rattle.std.specs.Prelude.{◌≡◌};
ghost use Rattle.c_word.specs.Numbered.{ReadsNumber, ReadsLettered, ReadsLetter, ReadsNumbered};

use c_grammar::CWordToken;
use c_tree::{CArray, Counter, CounterKind};
use num_type::read_digits;
use shape_rules::read_u32;

/// The number of a canonical decimal below 2^64. None exactly where the text is none.
fn read_number(text: &[u8]) -> Option<u64>
    ensures { ReadsNumber result text.now }
{
    match read_digits(text) {
        None => None,
        Some(n) => {
            if n <= u64::MAX as u128 {
                Some(n as u64)
            } else {
                None
            }
        }
    }
}

/// The counter with this number.
fn counter(kind: CounterKind, number: u32) -> CWordToken
    ensures { result ≡ CWordToken.Counter (record { kind = kind; number = number }) }
{
    CWordToken::Counter(Counter { kind, number })
}

/// The word of a letter and a number. None exactly where no word begins with the letter and goes on with a number.
fn read_letter(letter: u8, number: u32) -> Option<CWordToken>
    ensures { ReadsLetter result letter number }
{
    match letter {
        b'v' => Some(CWordToken::Var(number)),
        b'm' => Some(CWordToken::Array(CArray::Local(number))),
        b'g' => Some(counter(CounterKind::Group, number)),
        b'b' => Some(counter(CounterKind::Barrier, number)),
        b'k' => Some(counter(CounterKind::Source, number)),
        b'w' => Some(counter(CounterKind::Turn, number)),
        _ => None,
    }
}

/// The word of a text that is a letter and a number. None exactly where the text is that of no such word.
fn read_lettered(text: &[u8]) -> Option<CWordToken>
    ensures { ReadsLettered result text.now }
{
    match text.split_first() {
        None => None,
        Some((letter, digits)) => match read_u32(digits) {
            None => None,
            Some(number) => read_letter(*letter, number),
        },
    }
}

/// The word of a text that is a number, or a letter and a number: a variable, a counter or a local array. None exactly where the text is
/// that of no such word.
pub(crate) fn read_numbered(text: &[u8]) -> Option<CWordToken>
    ensures { ReadsNumbered result text.now }
{
    match read_number(text) {
        Some(n) => Some(CWordToken::Number(n)),
        None => read_lettered(text),
    }
}
