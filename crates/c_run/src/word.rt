//! Words and what the operators make of them.

ghost use Rattle.std.specs.Prelude.{◌≡◌, ◌<◌, ◌^◌, pos, ◌-ℤ◌};
ghost use Rattle.c_tree.specs.Meaning;
ghost use Rattle.c_tree.specs.Meaning.{whole_of};
ghost use Rattle.c_run.specs.View.{word_view, word_told, told};
ghost use Rattle.c_run.specs.Signed.{given};

use c_tree::{COp, CRel, CWord};

/// A value of `int64_t` or of `uint64_t` (ISO/IEC 9899:1999, 7.18.1.1).
#[derive(Clone, Copy, Debug, PartialEq, Eq)]
pub enum Word {
    Signed(i64),
    Unsigned(u64),
}

// An `int64_t`; where there is none the token is undefined.
fn signed_at(token: u64, value: Option<i64>) -> Result<Word, u64>
    ensures { word_told result ≡ given token value }
{
    match value {
        None => Err(token),
        Some(z) => Ok(Word::Signed(z)),
    }
}

// A difference modulo 2^64 (6.2.5).
#[tactic(auto, using(crate::proofs::Words::difference_is))]
fn difference(a: u64, b: u64) -> u64
    ensures { result ≡ Meaning.wrapped 64 (pos a -ℤ pos b) }
{
    a.wrapping_sub(b)
}

/// A binary operator at its token (6.5.5 to 6.5.7, 6.5.10 to 6.5.12). Undefined at words of other types, where a result isn't in the
/// range of `int64_t`, at a shift of 64 or more, and at a shift of a negative number.
#[tactic(auto, using(crate::proofs::Words::given_is), unfolding(c_tree::specs::Meaning::operated))]
pub fn operated(token: u64, op: COp, x: Word, y: Word) -> Result<Word, u64>
    ensures { word_told result ≡ Meaning.operated token op (word_view x) (word_view y) }
{
    match (op, x, y) {
        (COp::Add, Word::Signed(a), Word::Signed(b)) => signed_at(token, a.checked_add(b)),
        (COp::Sub, Word::Signed(a), Word::Signed(b)) => signed_at(token, a.checked_sub(b)),
        (COp::Mul, Word::Signed(a), Word::Signed(b)) => signed_at(token, a.checked_mul(b)),
        (COp::Add, Word::Unsigned(a), Word::Unsigned(b)) => Ok(Word::Unsigned(a.wrapping_add(b))),
        (COp::Sub, Word::Unsigned(a), Word::Unsigned(b)) => Ok(Word::Unsigned(difference(a, b))),
        (COp::Mul, Word::Unsigned(a), Word::Unsigned(b)) => Ok(Word::Unsigned(a.wrapping_mul(b))),
        (COp::And, Word::Unsigned(a), Word::Unsigned(b)) => Ok(Word::Unsigned(a & b)),
        (COp::Or, Word::Unsigned(a), Word::Unsigned(b)) => Ok(Word::Unsigned(a | b)),
        (COp::Xor, Word::Unsigned(a), Word::Unsigned(b)) => Ok(Word::Unsigned(a ^ b)),
        (COp::Shl, _, Word::Unsigned(k)) => shifted_left(token, x, k),
        (COp::Shr, _, Word::Unsigned(k)) => shifted_right(token, x, k),
        _ => Err(token),
    }
}

// A number without a sign as an `int64_t` (6.3.1.3); out of its range the token is undefined.
#[tactic(auto, using(crate::proofs::Words::signed_fits, crate::proofs::Words::signed_fits_not))]
fn signed_of(token: u64, n: u64) -> Result<Word, u64>
    ensures { word_told result ≡ Meaning.signed_at token (pos n) }
{
    if n < 1 << 63 {
        Ok(Word::Signed(n as i64))
    } else {
        Err(token)
    }
}

// 2 to the power of a number below 64.
fn power(k: u64) -> u64
    requires { k < 64 }
    ensures { result ≡ 2 ^ k }
{
    1 << k
}

// A shift to the left (6.5.7).
#[tactic(auto, using(crate::proofs::Words::signed_fits_not), unfolding(c_tree::specs::Meaning::shifted_left, c_tree::specs::Outcome::choose))]
fn shifted_left(token: u64, x: Word, k: u64) -> Result<Word, u64>
    ensures { word_told result ≡ Meaning.shifted_left token (word_view x) k }
{
    if 64 <= k {
        return Err(token);
    }
    match x {
        Word::Unsigned(n) => Ok(Word::Unsigned(n.wrapping_mul(power(k)))),
        Word::Signed(z) => {
            if z < 0 {
                return Err(token);
            }
            match (z as u64).checked_mul(power(k)) {
                None => Err(token),
                Some(n) => signed_of(token, n),
            }
        }
    }
}

// A shift to the right (6.5.7).
#[tactic(auto, unfolding(c_tree::specs::Meaning::shifted_right, c_tree::specs::Outcome::choose))]
fn shifted_right(token: u64, x: Word, k: u64) -> Result<Word, u64>
    ensures { word_told result ≡ Meaning.shifted_right token (word_view x) k }
{
    if 64 <= k {
        return Err(token);
    }
    match x {
        Word::Unsigned(n) => Ok(Word::Unsigned(n >> k)),
        Word::Signed(z) => {
            if z < 0 {
                Err(token)
            } else {
                Ok(Word::Signed(((z as u64) >> k) as i64))
            }
        }
    }
}

/// Unary minus at its token (6.5.3.3). Undefined at a `uint64_t` and at the least `int64_t`.
#[tactic(auto, using(crate::proofs::Words::given_is), unfolding(c_tree::specs::Meaning::negated))]
pub fn negated(token: u64, w: Word) -> Result<Word, u64>
    ensures { word_told result ≡ Meaning.negated token (word_view w) }
{
    match w {
        Word::Signed(z) => signed_at(token, z.checked_neg()),
        Word::Unsigned(_) => Err(token),
    }
}

/// A word modulo 2^64 (6.2.5).
#[tactic(auto, using(crate::proofs::Words::wrapped_is))]
pub fn bits_of_word(w: Word) -> u64
    ensures { result ≡ Meaning.wrapped 64 (whole_of (word_view w)) }
{
    match w {
        Word::Signed(z) => z.cast_unsigned(),
        Word::Unsigned(n) => n,
    }
}

/// A cast to the other type at its opening parenthesis (6.3.1.3, 6.5.4). Undefined out of the range of `int64_t`, and at a word that has
/// the type already.
#[tactic(auto, unfolding(c_tree::specs::Meaning::converted))]
pub fn converted(token: u64, to: CWord, w: Word) -> Result<Word, u64>
    ensures { word_told result ≡ Meaning.converted token to (word_view w) }
{
    match (to, w) {
        (CWord::I64, Word::Unsigned(n)) => signed_of(token, n),
        (CWord::U64, Word::Signed(_)) => Ok(Word::Unsigned(bits_of_word(w))),
        _ => Err(token),
    }
}

/// A relation between words of one type at its token (6.5.8, 6.5.9). Undefined at words of two types.
#[tactic(auto, unfolding(c_tree::specs::Meaning::compared))]
pub fn compared(token: u64, rel: CRel, x: Word, y: Word) -> Result<bool, u64>
    ensures { told result ≡ Meaning.compared token rel (word_view x) (word_view y) }
{
    match (x, y) {
        (Word::Signed(a), Word::Signed(b)) => Ok(signed_related(rel, a, b)),
        (Word::Unsigned(a), Word::Unsigned(b)) => Ok(unsigned_related(rel, a, b)),
        _ => Err(token),
    }
}

// Whether a relation holds between two numbers.
fn signed_related(rel: CRel, a: i64, b: i64) -> bool
    ensures { result ≡ Meaning.related rel a b }
{
    match rel {
        CRel::Eq => a == b,
        CRel::Ne => a != b,
        CRel::Lt => a < b,
        CRel::Le => a <= b,
        CRel::Gt => a > b,
        CRel::Ge => a >= b,
    }
}

// The same of numbers without a sign.
fn unsigned_related(rel: CRel, a: u64, b: u64) -> bool
    ensures { result ≡ Meaning.related rel (pos a) (pos b) }
{
    match rel {
        CRel::Eq => a == b,
        CRel::Ne => a != b,
        CRel::Lt => a < b,
        CRel::Le => a <= b,
        CRel::Gt => a > b,
        CRel::Ge => a >= b,
    }
}
