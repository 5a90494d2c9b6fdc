//! The words of tokens.

ghost use Rattle.std.specs.Prelude.{◌≡◌, IfOk, drop, take};
ghost use Rattle.c_tree.specs.Tree.{Signature};
ghost use Rattle.c_tree.specs.View.{interface_view};
ghost use Rattle.c_tree.specs.WellFormed.{IsInterface};
ghost use Rattle.c_token.specs.Scan.{lexemes_of, texts_of};
ghost use Rattle.c_grammar.specs.Spelled.{AreWordsOf, IsWordOf};
ghost use Rattle.c_word.specs.Table.{IsTableOf};

use crate::numbered::read_numbered;
use crate::table::WordTable;
use c_grammar::CWordToken;
use c_token::CToken;
use c_tree::Interface;
use num_type::Memory;
use std::alloc::Global;

/// The word of a text beside the interface of a table: `Other` exactly where the text is that of no token of the interface. It takes no
/// memory.
pub fn word_of(table: &WordTable, text: &[u8]) -> CWordToken
    ensures { (i : Signature) → IsTableOf i table.now → IsWordOf i text.now result }
{
    match read_numbered(text) {
        Some(word) => word,
        None => match table.find(text) {
            Some(word) => word,
            None => CWordToken::Other,
        },
    }
}

/// The bytes from an offset on.
fn from_offset(bytes: &[u8], offset: usize) -> &[u8]
    ensures { result.now ≡ drop offset bytes.now }
{
    if offset < bytes.len() {
        bytes.split_at(offset).1
    } else {
        b""
    }
}

/// So many of the first bytes, or all where there are fewer.
fn first_bytes(bytes: &[u8], len: usize) -> &[u8]
    ensures { result.now ≡ take len bytes.now }
{
    if len < bytes.len() {
        bytes.split_at(len).0
    } else {
        bytes
    }
}

/// The words of the tokens of bytes beside an interface. Want of memory is the only refusal, and an interface with 2^32 arrays of inputs or
/// of outputs counts as such.
pub fn words_of(
    alloc: Global,
    interface: &Interface,
    bytes: &[u8],
    tokens: &[CToken],
) -> Result<Vec<CWordToken>, Memory>
    requires { IsInterface (interface_view interface.now) }
    ensures { IfOk result (λ words. AreWordsOf (interface_view interface.now) (texts_of (lexemes_of bytes.now tokens.now)) words.items) }
{
    let table = WordTable::of(alloc, interface)?;
    let mut words = Vec::new(alloc);
    for token in tokens {
        let text = first_bytes(from_offset(bytes, token.offset), token.len);
        words.push(word_of(&table, text))?;
    }
    Ok(words)
}
