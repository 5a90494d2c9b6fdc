//! Canonical decimals of any length.

ghost use Rattle.std.specs.Prelude.{◌≡◌};
ghost use Rattle.std.specs.List.{list_all};
ghost use Rattle.fic_base.specs.Names.{is_digit};
ghost use Rattle.case_io.specs.Plain.{is_digits, is_positive, is_canonical};

fn all_digits(text: &[u8]) -> bool
    ensures { result ≡ list_all is_digit text.now }
{
    for b in text {
        if !b.is_ascii_digit() {
            return false;
        }
    }
    true
}

// Whether a text is digits without a leading zero.
fn is_digits(text: &[u8]) -> bool
    ensures { result ≡ is_digits text.now }
{
    match text.split_first() {
        None => false,
        Some((first, rest)) => {
            if rest.is_empty() {
                first.is_ascii_digit()
            } else {
                *first != b'0' && all_digits(text)
            }
        }
    }
}

// Whether a text is the digits of a number that isn't 0.
fn is_positive(text: &[u8]) -> bool
    ensures { result ≡ is_positive text.now }
{
    match text.first() {
        None => false,
        Some(first) => *first != b'0' && is_digits(text),
    }
}

/// Whether a text is a canonical decimal: no leading zero, no plus, no minus before 0. It takes no memory.
pub fn is_canonical(text: &[u8]) -> bool
    ensures { result ≡ is_canonical text.now }
{
    match text.split_first() {
        None => false,
        Some((first, rest)) => {
            if *first == b'-' {
                is_positive(rest)
            } else {
                is_digits(text)
            }
        }
    }
}
