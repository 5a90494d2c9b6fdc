//! The token list of a source.

ghost use Rattle.std.specs.Prelude.{◌≡◌, IfOk, IfErr};
ghost use Rattle.mat_token.specs.Reads.{Gives, Refuses, RefusesOnly, Outcome};
ghost use Rattle.mat_token.specs.Outcome.{IsOutcome};
ghost use Rattle.mat_token.specs.Kept.{AreTokensOf};

use crate::scan::{refused, scan};
use crate::separate::separate;
use crate::token::Token;
use fic_base::{Code, Place, Refusal, Text};
use num_type::Stop;
use std::alloc::Global;
use std::marker::Model;

/// The most bytes of a source.
const SOURCE_MAX: usize = 1_048_576;

/// The tokens of a source in their order. Clauses see it as their list.
#[derive(Debug, Drop)]
pub struct TokenList {
    tokens: Vec<Token>,
}

impl Model for TokenList {
    ghost use Rattle.std.specs.Prelude.{List};
    ghost use Rattle.mat_token.specs.declared.token.Token.{Token};
    ghost use Rattle.std.specs.Coded.{coded_list};
    ghost use Rattle.mat_token.specs.contracts.token.Token as token;

    ghost Value = { List Token };

    ghost coded = { coded_list token.the_row.coded };

    ghost view = { λ l. l.tokens.items };
}

impl TokenList {
    /// The tokens.
    pub fn tokens(&self) -> &[Token]
        ensures { result.now ≡ self.now }
    {
        &self.tokens
    }
}

/// The tokens of a source, the last of which is the only one of the kind `Finish`.
///
/// A text is cut from its start on: at each place the rule that its first bytes call for gives the longest piece that it can. Pieces are
/// blanks, comments, lines of block comments, continued lines and tokens. Blanks between two elements of a bracket then become separators.
///
/// Refused, with the place of what is refused:
/// - `Limit` showing `1048576`, at the first byte, if there are more bytes than that;
/// - else at the first place at which no piece begins: `Unclosed` showing the opening, at a text or a block comment that isn't closed;
///   `Limit` showing `63`, at a name of more bytes than that; `BadByte` showing the byte in base 16, at a byte that begins no token.
pub fn tokens(alloc: Global, bytes: &[u8]) -> Result<TokenList, Stop<Refusal>>
    ensures tokens { IfOk result (λ ts. IsOutcome bytes.now (Gives ts)) }
    ensures kept { IfOk result (λ ts. AreTokensOf bytes.now ts) }
    ensures refusal { IfErr result (λ stop. RefusesOnly stop (λ r. IsOutcome bytes.now (Refuses r))) }
{
    if SOURCE_MAX < bytes.len() {
        let shown = Text::from_bytes(alloc, b"1048576");
        return Err(refused(Code::Limit, Place::START, shown));
    }
    let read = scan(alloc, bytes)?;
    let tokens = separate(alloc, bytes, &read)?;
    Ok(TokenList { tokens })
}
