//! What comes at a word between statements, and where one ends.

ghost use Rattle.std.specs.Prelude.{◌≡◌, ◌∷◌, ◌++◌, [], IfOk};
ghost use Rattle.c_tree.specs.View.{expr_view, stmt_view, block_view};
ghost use Rattle.c_tree.specs.Names.{array_at};
ghost use Rattle.c_tree.specs.WellFormed.{is_return, last_is_return};
ghost use Rattle.c_tree.specs.declared.array_names.Arrays.{Arrays};
ghost use Rattle.c_grammar.specs.Machine as machine;
ghost use Rattle.c_grammar.specs.Machine.{Stuck, and_then, begin, declare, declaring, ended, is_stored, placed, status, within};
ghost use Rattle.c_grammar.specs.Sentence.{macro_of, store_of};
ghost use Rattle.c_grammar.specs.declared.word.CSign.TheVariants as sign;
ghost use Rattle.c_grammar.specs.declared.word.CWordToken.TheVariants as word;
ghost use Rattle.c_parts.specs.View.{purpose_view, past_view, reading_view, Goes};

use crate::operand::type_of;
use c_grammar::{CKeyword, CMacro, CSign, CWordToken};
use c_parts::pending::{Past, Pending, Purpose, Reader, Reading, Wanted};
use c_parts::stack::{behind, failed, now, one, two};
use c_tree::{Arrays, CArray, CExpr, CStmt, CWord, give_back, set, store};
use num_type::{Container, Memory};
use sqlite_items::Items;
use std::alloc::{AllocError, Global};

/// Nothing comes behind this expression.
pub fn let_go(e: CExpr, purpose: Purpose, past: Past) -> Option<Reader>
    ensures { Goes result Stuck }
{
    drop(e);
    drop(purpose);
    drop(past);
    None
}

/// Nothing comes behind these statements.
fn refuse(past: Past) -> Option<Reader>
    ensures { Goes result Stuck }
{
    drop(past);
    None
}

/// The statements with one more. Want of memory is the only refusal.
fn with_statement(statement: CStmt, past: Past) -> Result<Past, AllocError>
    ensures { IfOk result (λ next. past_view next ≡ record { words = (past_view past).words; done = machine.behind (past_view past).done (stmt_view statement) }) }
{
    let Past { words, done } = past;
    let mut done = done;
    match done.push(statement) {
        Err(error) => {
            drop(words);
            drop(done);
            Err(error)
        }
        Ok(()) => Ok(Past { words, done }),
    }
}

/// The statements with one more, and a statement may come. Want of memory is the only refusal.
#[tactic(auto, unfolding(c_parts::specs::View::reading_view))]
fn and_then(alloc: Global, statement: CStmt, past: Past) -> Result<Option<Reader>, Memory>
    ensures { IfOk result (λ next. Goes next (and_then (stmt_view statement) (past_view past))) }
{
    match with_statement(statement, past) {
        Err(_) => Err(Memory),
        Ok(past) => Ok(Some(now(alloc, Reading::Within(past)))),
    }
}

/// A semicolon behind a whole expression; none if no program goes on so. Want of memory is the only refusal.
#[tactic(auto, unfolding(c_parts::specs::View::purpose_view))]
pub fn ended(
    alloc: Global,
    e: CExpr,
    purpose: Purpose,
    past: Past,
) -> Result<Option<Reader>, Memory>
    ensures { IfOk result (λ next. Goes next (ended (expr_view e) (purpose_view purpose) (past_view past))) }
{
    match purpose {
        Purpose::ValueOf(number, _) => and_then(alloc, set(number, e), past),
        Purpose::ElementOf(array, at) => and_then(alloc, store(array, at, e), past),
        Purpose::PlaceOf(array) => Ok(let_go(e, Purpose::PlaceOf(array), past)),
    }
}

/// The type that an element is stored as.
fn store_word(arrays: &Arrays, a: CArray) -> CWordToken
    ensures { result ≡ store_of (array_at arrays.now a) }
{
    match arrays.find(a) {
        None => CWordToken::Other,
        Some(array) => CWordToken::Type(array.container),
    }
}

/// The words between the subscript of a store and its value. Want of memory is the only refusal.
fn store_words(alloc: Global, t: CWordToken) -> Result<Items<CWordToken>, Memory>
    ensures { IfOk result (λ ws. ws ≡ word.Sign sign.Assign ∷ word.Sign sign.Open ∷ t ∷ word.Sign sign.Close ∷ []) }
{
    let words = [
        CWordToken::Sign(CSign::Assign),
        CWordToken::Sign(CSign::Open),
        t,
        CWordToken::Sign(CSign::Close),
    ];
    match Items::from_slice(alloc, &words) {
        Err(_) => Err(Memory),
        Ok(words) => Ok(words),
    }
}

/// The value of a store is owed behind its subscript. Want of memory is the only refusal.
#[tactic(auto, unfolding(c_parts::specs::View::reading_view, c_parts::specs::View::purpose_view, c_parts::specs::View::want_view, c_parts::specs::View::frames_of))]
fn valued(
    alloc: Global,
    a: CArray,
    e: CExpr,
    t: CWordToken,
    past: Past,
) -> Result<Option<Reader>, Memory>
    ensures { IfOk result (λ next. Goes next (machine.Fixed (word.Sign sign.Assign) (word.Sign sign.Open ∷ t ∷ word.Sign sign.Close ∷ []) (machine.Need machine.Any [] (machine.ElementOf a (expr_view e)) (past_view past)))) }
{
    let pending = Pending {
        frames: Items::new(alloc),
        purpose: Purpose::ElementOf(a, e),
        past,
    };
    match store_words(alloc, t) {
        Err(error) => Err(failed(pending, error)),
        Ok(words) => Ok(Some(behind(words, Reading::Need(Wanted::Any, pending)))),
    }
}

/// A square bracket that closes behind the subscript of a store; none elsewhere. Want of memory is the only refusal.
#[tactic(auto, unfolding(c_parts::specs::View::purpose_view))]
pub fn placed(
    alloc: Global,
    arrays: &Arrays,
    e: CExpr,
    purpose: Purpose,
    past: Past,
) -> Result<Option<Reader>, Memory>
    ensures { IfOk result (λ next. Goes next (placed arrays.now (expr_view e) (purpose_view purpose) (past_view past))) }
{
    match purpose {
        Purpose::PlaceOf(a) => valued(alloc, a, e, store_word(arrays, a), past),
        _ => Ok(let_go(e, purpose, past)),
    }
}

fn is_return(statement: &CStmt) -> bool
    ensures { result ≡ is_return (stmt_view statement.now) }
{
    match statement {
        CStmt::Return(_) => true,
        _ => false,
    }
}

/// Whether the last statement is a return.
fn ends_with_return(done: &[CStmt]) -> bool
    ensures { result ≡ last_is_return (block_view done.now) }
{
    match done.split_last() {
        None => false,
        Some((last, _)) => is_return(last),
    }
}

/// An expression of a type is owed behind a sign. Want of memory is the only refusal.
#[tactic(auto, unfolding(c_parts::specs::View::reading_view, c_parts::specs::View::want_view, c_parts::specs::View::frames_of))]
fn owed(
    alloc: Global,
    mark: CSign,
    t: CWord,
    purpose: Purpose,
    past: Past,
) -> Result<Option<Reader>, Memory>
    ensures { IfOk result (λ next. Goes next (machine.Fixed (word.Sign mark) [] (machine.Need (machine.Only t) [] (purpose_view purpose) (past_view past)))) }
{
    let pending = Pending {
        frames: Items::new(alloc),
        purpose,
        past,
    };
    match one(alloc, CWordToken::Sign(mark)) {
        Err(error) => Err(failed(pending, error)),
        Ok(words) => Ok(Some(behind(words, Reading::Need(Wanted::Only(t), pending)))),
    }
}

/// A variable at the start of a statement. Want of memory is the only refusal.
#[tactic(auto, unfolding(c_parts::specs::View::purpose_view))]
fn setting(alloc: Global, number: u32, past: Past) -> Result<Option<Reader>, Memory>
    ensures { (all : Arrays) → IfOk result (λ next. Goes next (within all (word.Var number) (past_view past))) }
{
    match type_of(past.words.as_slice(), number) {
        None => Ok(refuse(past)),
        Some(t) => owed(alloc, CSign::Assign, t, Purpose::ValueOf(number, t), past),
    }
}

/// Whether an array is stored into: it is declared and no input.
fn is_stored(arrays: &Arrays, a: CArray) -> bool
    ensures { result ≡ is_stored arrays.now a }
{
    match a {
        CArray::Input(_) => false,
        CArray::Output(_) => arrays.find(a).is_some(),
        CArray::Local(_) => arrays.find(a).is_some(),
    }
}

/// An array at the start of a statement. Want of memory is the only refusal.
#[tactic(auto, unfolding(c_parts::specs::View::purpose_view))]
fn storing(alloc: Global, arrays: &Arrays, a: CArray, past: Past) -> Result<Option<Reader>, Memory>
    ensures { IfOk result (λ next. Goes next (within arrays.now (word.Array a) (past_view past))) }
{
    if is_stored(arrays, a) {
        owed(
            alloc,
            CSign::OpenSquare,
            CWord::I64,
            Purpose::PlaceOf(a),
            past,
        )
    } else {
        Ok(refuse(past))
    }
}

/// A refusal, which ends what was read.
fn given_up(past: Past, error: Memory) -> Memory {
    drop(past);
    error
}

/// A return, whose status is owed. Want of memory is the only refusal.
#[tactic(auto, unfolding(c_parts::specs::View::reading_view))]
fn returning(alloc: Global, past: Past) -> Result<Option<Reader>, Memory>
    ensures { IfOk result (λ next. Goes next (machine.Fixed (word.Macro CMacro.I32) (word.Sign sign.Open ∷ []) (machine.Status (past_view past)))) }
{
    match two(
        alloc,
        CWordToken::Macro(CMacro::I32),
        CWordToken::Sign(CSign::Open),
    ) {
        Err(error) => Err(given_up(past, error)),
        Ok(words) => Ok(Some(behind(words, Reading::Status(past)))),
    }
}

/// The end of the function. Nothing comes there where the last statement is no return.
#[tactic(auto, unfolding(c_parts::specs::View::reading_view, c_parts::specs::View::past_view))]
fn whole(alloc: Global, past: Past) -> Option<Reader>
    ensures { Goes result (machine.when (last_is_return (past_view past).done) (machine.Whole (past_view past))) }
{
    if ends_with_return(past.done.as_slice()) {
        Some(now(alloc, Reading::Whole(past)))
    } else {
        refuse(past)
    }
}

/// A keyword between statements. Want of memory is the only refusal.
fn keyword_word(alloc: Global, keyword: CKeyword, past: Past) -> Result<Option<Reader>, Memory>
    ensures { (all : Arrays) → IfOk result (λ next. Goes next (within all (word.Keyword keyword) (past_view past))) }
{
    match keyword {
        CKeyword::Return => returning(alloc, past),
        _ => Ok(refuse(past)),
    }
}

/// A sign between statements.
fn sign_word(alloc: Global, mark: CSign, past: Past) -> Option<Reader>
    ensures { (all : Arrays) → Goes result (within all (word.Sign mark) (past_view past)) }
{
    match mark {
        CSign::CloseBrace => whole(alloc, past),
        _ => refuse(past),
    }
}

/// What comes at a word between statements; none if no program goes on so. Want of memory is the only refusal.
pub fn within(
    alloc: Global,
    arrays: &Arrays,
    word: CWordToken,
    past: Past,
) -> Result<Option<Reader>, Memory>
    ensures { IfOk result (λ next. Goes next (within arrays.now word (past_view past))) }
{
    match word {
        CWordToken::Var(number) => setting(alloc, number, past),
        CWordToken::Array(a) => storing(alloc, arrays, a, past),
        CWordToken::Keyword(keyword) => keyword_word(alloc, keyword, past),
        CWordToken::Sign(mark) => Ok(sign_word(alloc, mark, past)),
        _ => Ok(refuse(past)),
    }
}

/// A statement may come behind what ends a return. Want of memory is the only refusal.
#[tactic(auto, unfolding(c_parts::specs::View::reading_view))]
fn closed(alloc: Global, past: Past) -> Result<Option<Reader>, Memory>
    ensures { IfOk result (λ next. Goes next (machine.Fixed (word.Sign sign.Close) (word.Sign sign.Semicolon ∷ []) (machine.Within (past_view past)))) }
{
    match two(
        alloc,
        CWordToken::Sign(CSign::Close),
        CWordToken::Sign(CSign::Semicolon),
    ) {
        Err(error) => Err(given_up(past, error)),
        Ok(words) => Ok(Some(behind(words, Reading::Within(past)))),
    }
}

/// A return with this status, behind what ends it. Want of memory is the only refusal.
fn returned(alloc: Global, n: u64, past: Past) -> Result<Option<Reader>, Memory>
    ensures { IfOk result (λ next. Goes next (status (word.Number n) (past_view past))) }
{
    if n < 2_147_483_648 {
        match with_statement(give_back(n as u32), past) {
            Err(_) => Err(Memory),
            Ok(past) => closed(alloc, past),
        }
    } else {
        Ok(refuse(past))
    }
}

/// What comes at the number of a status; none if no program goes on so. Want of memory is the only refusal.
pub fn status(alloc: Global, word: CWordToken, past: Past) -> Result<Option<Reader>, Memory>
    ensures { IfOk result (λ next. Goes next (status word (past_view past))) }
{
    match word {
        CWordToken::Number(n) => returned(alloc, n, past),
        _ => Ok(refuse(past)),
    }
}

/// The macro for constants of a type.
fn macro_of(t: CWord) -> CMacro
    ensures { result ≡ macro_of t }
{
    match t {
        CWord::I64 => CMacro::I64,
        CWord::U64 => CMacro::U64,
    }
}

/// The words behind the type of a variable of this number. Want of memory is the only refusal.
fn declared(alloc: Global, t: CWord, number: u32) -> Result<Items<CWordToken>, Memory>
    ensures { IfOk result (λ ws. ws ≡ word.Var number ∷ word.Sign sign.Assign ∷ word.Macro (macro_of t) ∷ word.Sign sign.Open ∷ word.Number 0 ∷ word.Sign sign.Close ∷ word.Sign sign.Semicolon ∷ []) }
{
    let words = [
        CWordToken::Var(number),
        CWordToken::Sign(CSign::Assign),
        CWordToken::Macro(macro_of(t)),
        CWordToken::Sign(CSign::Open),
        CWordToken::Number(0),
        CWordToken::Sign(CSign::Close),
        CWordToken::Sign(CSign::Semicolon),
    ];
    match Items::from_slice(alloc, &words) {
        Err(_) => Err(Memory),
        Ok(words) => Ok(words),
    }
}

/// The types with one more. Want of memory is the only refusal.
fn and_type(words: Items<CWord>, t: CWord) -> Result<Items<CWord>, AllocError>
    ensures { IfOk result (λ made. made ≡ words ++ t ∷ []) }
{
    let mut words = words;
    match words.push(t) {
        Err(error) => {
            drop(words);
            Err(error)
        }
        Ok(()) => Ok(words),
    }
}

/// The words of a declaration are owed, behind which there is a variable more. Want of memory is the only refusal.
#[tactic(auto, unfolding(c_parts::specs::View::reading_view))]
fn declaring_behind(
    expected: Items<CWordToken>,
    t: CWord,
    words: Items<CWord>,
) -> Result<Option<Reader>, Memory>
    ensures { IfOk result (λ next. Goes next (machine.owe expected (machine.Declare (words ++ t ∷ [])))) }
{
    match and_type(words, t) {
        Err(_) => {
            drop(expected);
            Err(Memory)
        }
        Ok(words) => Ok(Some(behind(expected, Reading::Declare(words)))),
    }
}

/// A variable's declaration, behind its type. Want of memory is the only refusal.
fn declaring(alloc: Global, t: CWord, words: Items<CWord>) -> Result<Option<Reader>, Memory>
    ensures { IfOk result (λ next. Goes next (declaring t words)) }
{
    let number = words.len();
    if number < 4_294_967_295 {
        match declared(alloc, t, number as u32) {
            Err(error) => {
                drop(words);
                Err(error)
            }
            Ok(expected) => declaring_behind(expected, t, words),
        }
    } else {
        drop(words);
        Ok(None)
    }
}

/// A statement where a declaration may come. Want of memory is the only refusal.
#[tactic(auto, unfolding(c_parts::specs::View::past_view))]
fn first_statement(
    alloc: Global,
    arrays: &Arrays,
    word: CWordToken,
    words: Items<CWord>,
) -> Result<Option<Reader>, Memory>
    ensures { IfOk result (λ next. Goes next (within arrays.now word (begin words))) }
{
    let past = Past {
        words,
        done: Items::new(alloc),
    };
    within(alloc, arrays, word, past)
}

/// A type where a declaration may come. Want of memory is the only refusal.
fn type_word(
    alloc: Global,
    container: Container,
    words: Items<CWord>,
) -> Result<Option<Reader>, Memory>
    ensures { (all : Arrays) → IfOk result (λ next. Goes next (declare all (word.Type container) words)) }
{
    match container {
        Container::I64 => declaring(alloc, CWord::I64, words),
        Container::U64 => declaring(alloc, CWord::U64, words),
        _ => {
            drop(words);
            Ok(None)
        }
    }
}

/// What comes at a word where a declaration may come; none if no program goes on so. Want of memory is the only refusal.
pub fn declare(
    alloc: Global,
    arrays: &Arrays,
    word: CWordToken,
    words: Items<CWord>,
) -> Result<Option<Reader>, Memory>
    ensures { IfOk result (λ next. Goes next (declare arrays.now word words)) }
{
    match word {
        CWordToken::Type(container) => type_word(alloc, container, words),
        _ => first_statement(alloc, arrays, word, words),
    }
}
