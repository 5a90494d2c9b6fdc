//! What is open before a word, and behind it.

ghost use Rattle.std.specs.Prelude.{◌≡◌, ◌↔◌, ◌∷◌, ◌<◌, ◌≤◌, IsTrue, OnOk};
ghost use Rattle.c_tree.specs.Depth.{depth_limit};
ghost use Rattle.c_grammar.specs.declared.word.CWordToken.{CWordToken};
ghost use Rattle.c_depth.specs.Read.{below, close, enter, follow, leave, operand, opens, see, top, type_behind, word_depth};
ghost use Rattle.c_depth.specs.View.{innermost_first, level_view};

use c_grammar::{CSign, CWordToken};
use sqlite_items::Items;
use std::alloc::{AllocError, Global};

/// How deep a bracket of a text may be.
const DEPTH_LIMIT: usize = 500;

/// What stands directly before a word: a parenthesis, a type and a parenthesis are a cast.
#[derive(Clone, Copy, Debug, PartialEq, Eq)]
pub(crate) enum Before {
    /// A parenthesis that opens.
    Open,
    /// A parenthesis that opens, and a type.
    OpenType,
    /// Anything else, or nothing.
    Other,
}

/// What is open before a word.
#[derive(Drop)]
pub(crate) struct Level {
    /// What stands before it.
    pub(crate) before: Before,
    /// How many braces, parentheses, square brackets and casts are open.
    pub(crate) depth: usize,
    /// How many of these are left where the casts that opened last have ended.
    pub(crate) base: usize,
    /// The same before each brace, parenthesis and square bracket that is open, the innermost last.
    pub(crate) outer: Items<usize>,
}

/// What was put aside last, which goes off the stack; 0 where nothing was.
fn pop(outer: &mut Items<usize>) -> usize
    ensures top { result ≡ top (innermost_first outer.old) }
    ensures rest { innermost_first outer.new ≡ below (innermost_first outer.old) }
{
    match outer.pop() {
        None => 0,
        Some(base) => base,
    }
}

/// Puts a number aside. Want of memory is its only refusal.
fn push(outer: &mut Items<usize>, base: usize) -> Result<(), AllocError>
    ensures { OnOk result (innermost_first outer.new ≡ base ∷ innermost_first outer.old) }
{
    outer.push(base)
}

/// Behind a bracket that opens. Want of memory is its only refusal.
#[tactic(auto, unfolding(crate::specs::View::level_view))]
fn enter(level: &mut Level, before: Before) -> Result<(), AllocError>
    requires { level.old.depth < depth_limit }
    ensures { OnOk result (level_view level.new ≡ enter before (level_view level.old)) }
{
    push(&mut level.outer, level.base)?;
    level.before = before;
    level.depth += 1;
    level.base = level.depth;
    Ok(())
}

/// Behind a bracket that closes.
#[tactic(auto, unfolding(crate::specs::View::level_view))]
fn leave(level: &mut Level)
    ensures { level_view level.new ≡ leave (level_view level.old) }
{
    level.base = pop(&mut level.outer);
    level.before = Before::Other;
    level.depth = level.base;
}

/// Behind a parenthesis that closes.
#[tactic(auto, unfolding(crate::specs::View::level_view))]
fn close(level: &mut Level)
    ensures { level_view level.new ≡ close level.old.before (level_view level.old) }
{
    match level.before {
        Before::OpenType => {
            level.base = pop(&mut level.outer);
            level.before = Before::Other;
        }
        _ => leave(level),
    }
}

/// Behind an operand.
#[tactic(auto, unfolding(crate::specs::View::level_view))]
fn operand(level: &mut Level)
    ensures { level_view level.new ≡ operand (level_view level.old) }
{
    level.before = Before::Other;
    level.depth = level.base;
}

/// Behind a word that opens nothing and ends nothing.
#[tactic(auto, unfolding(crate::specs::View::level_view))]
fn follow(level: &mut Level, before: Before)
    ensures { level_view level.new ≡ follow before (level_view level.old) }
{
    level.before = before;
}

/// What stands before the word behind a type.
fn type_behind(before: Before) -> Before
    ensures { result ≡ type_behind before }
{
    match before {
        Before::Open => Before::OpenType,
        _ => Before::Other,
    }
}

/// Whether a word is a bracket that opens.
pub(crate) fn opens(word: CWordToken) -> bool
    ensures { result ≡ opens word }
{
    match word {
        CWordToken::Sign(CSign::Open) => true,
        CWordToken::Sign(CSign::OpenSquare) => true,
        CWordToken::Sign(CSign::OpenBrace) => true,
        _ => false,
    }
}

/// Behind a sign that isn't deeper than a text may be. Want of memory is the only refusal.
#[tactic(auto, unfolding(crate::specs::View::level_view))]
fn see_sign(level: &mut Level, sign: CSign) -> Result<(), AllocError>
    requires { word_depth (CWordToken.Sign sign) (level_view level.old) ≤ depth_limit }
    ensures { OnOk result (level_view level.new ≡ see (CWordToken.Sign sign) (level_view level.old)) }
{
    match sign {
        CSign::Open => return enter(level, Before::Open),
        CSign::OpenSquare => return enter(level, Before::Other),
        CSign::OpenBrace => return enter(level, Before::Other),
        CSign::Close => close(level),
        CSign::CloseSquare => leave(level),
        CSign::CloseBrace => leave(level),
        CSign::Comma => follow(level, Before::Other),
        CSign::Semicolon => follow(level, Before::Other),
        CSign::Colon => follow(level, Before::Other),
        CSign::Question => follow(level, Before::Other),
        CSign::Assign => follow(level, Before::Other),
    }
    Ok(())
}

/// Behind a type.
#[tactic(auto, unfolding(crate::specs::View::level_view))]
fn see_type(level: &mut Level)
    ensures { level_view level.new ≡ follow (type_behind level.old.before) (level_view level.old) }
{
    let before = type_behind(level.before);
    follow(level, before)
}

/// Behind a word that isn't deeper than a text may be. Want of memory is the only refusal.
#[tactic(auto, unfolding(crate::specs::View::level_view))]
pub(crate) fn see(level: &mut Level, word: CWordToken) -> Result<(), AllocError>
    requires { word_depth word (level_view level.old) ≤ depth_limit }
    ensures { OnOk result (level_view level.new ≡ see word (level_view level.old)) }
{
    match word {
        CWordToken::Sign(sign) => return see_sign(level, sign),
        CWordToken::Type(_) => see_type(level),
        CWordToken::Other => see_type(level),
        CWordToken::Var(_) => operand(level),
        CWordToken::Counter(_) => operand(level),
        CWordToken::Function => follow(level, Before::Other),
        CWordToken::Number(_) => follow(level, Before::Other),
        CWordToken::Array(_) => follow(level, Before::Other),
        CWordToken::Macro(_) => follow(level, Before::Other),
        CWordToken::Keyword(_) => follow(level, Before::Other),
        CWordToken::Rel(_) => follow(level, Before::Other),
        CWordToken::Op(_) => follow(level, Before::Other),
    }
    Ok(())
}

/// Whether a word is deeper than a text may be.
#[tactic(auto, unfolding(crate::specs::View::level_view))]
pub(crate) fn is_too_deep(level: &Level, word: CWordToken) -> bool
    ensures { IsTrue result ↔ (depth_limit < word_depth word (level_view level.now)) }
{
    if !opens(word) {
        return false;
    }
    DEPTH_LIMIT <= level.depth
}
