//! The statements that lowering has emitted.

ghost use Rattle.std.specs.Prelude.{◌≡◌, ◌≤◌, ◌+◌, ◌*◌, ◌++◌, length, OnOk};

use c_tree::{CExpr, CStmt, CWord};
use num_type::Memory;
use sqlite_items::Items;
use std::alloc::Global;

/// Statements that set variables, the types of these variables, and the number of nodes walked.
#[derive(Drop)]
pub struct Emitted {
    pub sets: Items<CStmt>,
    pub words: Items<CWord>,
    pub nodes: u32,
    ghost few: { length words ≤ 4097 * nodes },
    ghost limit: { nodes ≤ 200000 },
}

impl Emitted {
    ghost use Rattle.std.specs.Prelude.{◌≡◌, ◌<◌, ◌≤◌, ◌*◌, ◌++◌, ◌∷◌, [], length, map, OnOk, IfOk, nat_lt, ◌+◌, if◌then◌else◌, ◌^◌};
    ghost use Rattle.c_tree.specs.View.{expr_view, stmt_view};
    ghost use Rattle.c_tree.specs.Tree.{Set};
    ghost use Rattle.scalar_program.specs.Lowered.{nothing_emitted};
    ghost use Rattle.scalar_walk.specs.View.{emitted_view};

    /// Nothing emitted, and no node walked.
    pub fn new(alloc: Global) -> Emitted
        ensures emitted { emitted_view result ≡ nothing_emitted }
        ensures nodes { result.nodes ≡ 0 }
    {
        Emitted {
            sets: Items::new(alloc),
            words: Items::new(alloc),
            nodes: 0,
        }
    }

    /// Counts a node. False exactly where the limit of nodes is reached; nothing is changed then.
    pub fn count(&mut self) -> bool
        ensures counts { result ≡ nat_lt self.old.nodes 200000 }
        ensures nodes { self.new.nodes ≡ self.old.nodes + (if result then 1 else 0) }
        ensures same { emitted_view self.new ≡ emitted_view self.old }
        ensures words { self.new.words ≡ self.old.words }
    {
        if self.nodes < 200_000 {
            self.nodes += 1;
            true
        } else {
            false
        }
    }

    /// The number of the next variable.
    pub fn fresh(&self) -> u32
        ensures value { result ≡ length self.now.words }
        ensures room { result ≤ 2 ^ 30 }
    {
        self.words.len() as u32
    }

    /// Adds variables of these types, and statements. Want of memory is the only refusal.
    pub fn append(&mut self, words: Items<CWord>, sets: Items<CStmt>) -> Result<(), Memory>
        requires { length self.old.words + length words ≤ 4097 * self.old.nodes }
        ensures sets { OnOk result (map stmt_view self.new.sets ≡ map stmt_view self.old.sets ++ map stmt_view sets) }
        ensures words { OnOk result (self.new.words ≡ self.old.words ++ words) }
        ensures nodes { self.new.nodes ≡ self.old.nodes }
    {
        extend(&mut self.words, words.as_slice())?;
        self.sets.append(sets)?;
        Ok(())
    }

    /// Sets the next variable, of this type, and answers its number. Want of memory is the only refusal.
    pub fn set_next(&mut self, word: CWord, value: CExpr) -> Result<u32, Memory>
        requires { length self.old.words < 4097 * self.old.nodes }
        ensures number { IfOk result (λ k. k ≡ length self.old.words) }
        ensures sets { OnOk result (map stmt_view self.new.sets ≡ map stmt_view self.old.sets ++ (Set (length self.old.words) (expr_view value) ∷ [])) }
        ensures words { OnOk result (self.new.words ≡ self.old.words ++ (word ∷ [])) }
        ensures nodes { self.new.nodes ≡ self.old.nodes }
    {
        let number = self.words.len() as u32;
        self.words.push(word)?;
        self.sets.push(c_tree::set(number, value))?;
        Ok(number)
    }
}

// Adds types at the end. There are never more than both lists have.
fn extend(words: &mut Items<CWord>, more: &[CWord]) -> Result<(), Memory>
    ensures all { OnOk result (words.new ≡ words.old ++ more.now) }
    ensures few { length words.new ≤ length words.old + length more.now }
{
    for word in more {
        words.push(*word)?;
    }
    Ok(())
}
