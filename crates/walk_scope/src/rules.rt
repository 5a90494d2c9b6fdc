//! The refusals of rules at a node.

ghost use Rattle.std.specs.Prelude.{◌≡◌, ◌++◌, codes, IfOk, option_map, unwrap_or};
ghost use Rattle.mat_ast.specs.View.{expr_view};
ghost use Rattle.fi_rules.specs.Texts.{shown_text};
ghost use Rattle.fi_rules.specs.View.{shown_view};
ghost use Rattle.walk_scope.specs.Rules.{around_one, around_pair};
ghost use Rattle.walk_scope.specs.Rules as rules;
ghost use Rattle.walk_scope.specs.View.{RuleAnswers, IsStop, scope_view};

use crate::scope::{Scope, refused, text_at};
use fi_rules::Missing;
use fic_base::{Place, Refusal};
use mat_ast::{Expr, ExprKind, UnOp};
use num_type::{Memory, Stop};
use rule_texts::put_shown;
use std::alloc::Global;

/// What a rule comes to at an operator with one operand, or at a called name, of this text. Refused exactly where a condition is missing; want
/// of memory is the free answer.
pub fn rule_of_one<R>(
    alloc: Global,
    at: Place,
    itself: &[u8],
    rule: Result<R, Missing>,
) -> Result<R, Stop<Refusal>>
    ensures { RuleAnswers result rule at (around_one itself.now) }
{
    match rule {
        Ok(x) => Ok(x),
        Err(missing) => Err(missing_at(alloc, at, itself, itself, itself, &missing)),
    }
}

/// The same at an operator with two operands.
pub fn rule_of_pair<R>(
    alloc: Global,
    scope: &Scope<'_>,
    at: Place,
    a: &Expr,
    b: &Expr,
    rule: Result<R, Missing>,
) -> Result<R, Stop<Refusal>>
    ensures { RuleAnswers result rule at (around_pair ((scope_view scope.now).shown at) (expr_view a.now) (expr_view b.now)) }
{
    match rule {
        Ok(x) => Ok(x),
        Err(missing) => Err(missing_pair(alloc, scope, at, a, b, &missing)),
    }
}

// The refusal at an operator with two operands.
fn missing_pair(
    alloc: Global,
    scope: &Scope<'_>,
    at: Place,
    a: &Expr,
    b: &Expr,
    missing: &Missing,
) -> Stop<Refusal>
    ensures { IsStop result missing.now.code at (shown_text (around_pair ((scope_view scope.now).shown at) (expr_view a.now) (expr_view b.now)) (shown_view missing.now.shown)) }
{
    let operator = text_at(scope.bytes, scope.tokens, at);
    match constant_or(alloc, a, operator) {
        Ok(left) => match constant_or(alloc, b, operator) {
            Ok(right) => {
                missing_at(
                    alloc,
                    at,
                    operator,
                    left.as_slice(),
                    right.as_slice(),
                    missing,
                )
            }
            Err(_) => Stop::Memory,
        },
        Err(_) => Stop::Memory,
    }
}

// The refusal where this stands in the source.
fn missing_at(
    alloc: Global,
    at: Place,
    itself: &[u8],
    left: &[u8],
    right: &[u8],
    missing: &Missing,
) -> Stop<Refusal>
    ensures { IsStop result missing.now.code at (shown_text (record { itself = itself.now; left = left.now; right = right.now }) (shown_view missing.now.shown)) }
{
    match missing_text(alloc, itself, left, right, missing) {
        Ok(text) => refused(alloc, missing.code, at, text.as_slice()),
        Err(_) => Stop::Memory,
    }
}

fn missing_text(
    alloc: Global,
    itself: &[u8],
    left: &[u8],
    right: &[u8],
    missing: &Missing,
) -> Result<Vec<u8>, Memory>
    ensures { IfOk result (λ v. v.items ≡ shown_text (record { itself = itself.now; left = left.now; right = right.now }) (shown_view missing.now.shown)) }
{
    let mut text = Vec::new(alloc);
    put_shown(itself, left, right, missing.shown, &mut text)?;
    Ok(text)
}

// The text of a literal behind at most one minus, or else the operator.
fn constant_or(alloc: Global, e: &Expr, operator: &[u8]) -> Result<Vec<u8>, Memory>
    ensures { IfOk result (λ v. v.items ≡ unwrap_or (rules.constant_in (expr_view e.now)) operator.now) }
{
    match constant_in(e, alloc)? {
        Some(text) => Ok(text),
        None => {
            let text = Vec::from_slice(alloc, operator)?;
            Ok(text)
        }
    }
}

// The text of a literal behind at most one minus, inside any parentheses.
#[tactic(auto, unfolding(crate::specs::Rules::constant_in))]
fn constant_in(e: &Expr, alloc: Global) -> Result<Option<Vec<u8>>, Memory>
    ensures { IfOk result (λ o. option_map (λ v. v.items) o ≡ rules.constant_in (expr_view e.now)) }
{
    match &e.kind {
        ExprKind::Unary(UnOp::Minus, part) => match literal_in(part.get()) {
            Some(text) => {
                let text = minus(alloc, text)?;
                Ok(Some(text))
            }
            None => Ok(None),
        },
        ExprKind::Paren(part) => constant_in(part.get(), alloc),
        _ => match literal_in(e) {
            Some(text) => {
                let text = Vec::from_slice(alloc, text)?;
                Ok(Some(text))
            }
            None => Ok(None),
        },
    }
}

// A text behind a minus.
fn minus(alloc: Global, text: &[u8]) -> Result<Vec<u8>, Memory>
    ensures { IfOk result (λ v. v.items ≡ codes "-" ++ text.now) }
{
    let mut all = Vec::new(alloc);
    all.extend_from_slice(b"-")?;
    all.extend_from_slice(text)?;
    Ok(all)
}

// The text of a literal inside any parentheses.
#[tactic(auto, unfolding(crate::specs::Rules::literal_in))]
fn literal_in(e: &Expr) -> Option<&[u8]>
    ensures { option_map (λ t. t.now) result ≡ rules.literal_in (expr_view e.now) }
{
    match &e.kind {
        ExprKind::Number { text, .. } => Some(text.as_bytes()),
        ExprKind::Paren(part) => literal_in(part.get()),
        _ => None,
    }
}
