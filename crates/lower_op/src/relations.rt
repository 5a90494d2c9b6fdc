//! Relations of comparisons.

ghost use Rattle.std.specs.Prelude.{◌≡◌};
ghost use Rattle.std.specs.declared.cmp.Ordering.TheVariants.{Less, Greater};
ghost use Rattle.lower_op.specs.Comparisons;
ghost use Rattle.lower_op.specs.Comparisons.{holds_in};
ghost use Rattle.lower_op.specs.CompareShapes;
ghost use Rattle.lower_op.specs.CompareShapes.{digit};

use array_ir::Op;
use c_tree::CRel;

/// The relation that a comparison tests, and None for another operation.
pub fn relation_of(op: Op) -> Option<CRel>
    ensures { result ≡ Comparisons.relation_of op }
{
    match op {
        Op::Eq => Some(CRel::Eq),
        Op::Ne => Some(CRel::Ne),
        Op::Lt => Some(CRel::Lt),
        Op::Le => Some(CRel::Le),
        Op::Gt => Some(CRel::Gt),
        Op::Ge => Some(CRel::Ge),
        _ => None,
    }
}

/// The same relation with its sides exchanged.
pub fn turned(rel: CRel) -> CRel
    ensures { result ≡ CompareShapes.turned rel }
{
    match rel {
        CRel::Eq => CRel::Eq,
        CRel::Ne => CRel::Ne,
        CRel::Lt => CRel::Gt,
        CRel::Le => CRel::Ge,
        CRel::Gt => CRel::Lt,
        CRel::Ge => CRel::Le,
    }
}

/// 1 where the relation holds between a number and a greater one, and else 0.
pub fn holds_below(rel: CRel) -> u64
    ensures { result ≡ digit (holds_in rel Less) }
{
    match rel {
        CRel::Ne | CRel::Lt | CRel::Le => 1,
        CRel::Eq | CRel::Gt | CRel::Ge => 0,
    }
}

/// 1 where the relation holds between a number and a lesser one, and else 0.
pub fn holds_above(rel: CRel) -> u64
    ensures { result ≡ digit (holds_in rel Greater) }
{
    match rel {
        CRel::Ne | CRel::Gt | CRel::Ge => 1,
        CRel::Eq | CRel::Lt | CRel::Le => 0,
    }
}
