//! The program of a part.

ghost use Rattle.std.specs.Prelude.{◌≡◌, ◌∷◌, ◌++◌, [], IfOk, map};
ghost use Rattle.num_type.specs.View.{type_of};
ghost use Rattle.c_tree.specs.View.{expr_view, interface_view, program_view, slot_view, stmt_view};
ghost use Rattle.c_tree.specs.Whole;
ghost use Rattle.lower_scalar.specs.Part.{part_view};
ghost use Rattle.part_run.specs.PartProgram;
ghost use Rattle.part_run.specs.PartProgram.{Computes, part_program, input, slot, statements, variables};

use c_tree::{CArray, CExpr, CKind, CPart, CProgram, CSlot, CStmt, CTree, CWord, Interface};
use fic_base::Text;
use lower_scalar::word_for;
use num_type::{Memory, NumType};
use shape_rules::Shape;
use sqlite_items::Items;
use std::alloc::Global;

/// The program whose two inputs, one number of the type `first` and one of the type `second`, go to variables 0 and 1, and whose one
/// output, a number of the type `to`, takes the value of the part. Want of memory is the only refusal.
pub(crate) fn program_of(
    alloc: Global,
    part: CPart,
    first: NumType,
    second: NumType,
    to: NumType,
) -> Result<CProgram, Memory>
    requires { Computes (type_of first) (type_of second) to.signed (part_view part) }
    ensures { IfOk result (λ p. Whole.program_of p ≡ part_program (type_of first) (type_of second) (type_of to) (part_view part)) }
{
    let tree = tree_of(alloc, part, first, second, to)?;
    Ok(CProgram::of(tree))
}

// The tree of that program.
fn tree_of(
    alloc: Global,
    part: CPart,
    first: NumType,
    second: NumType,
    to: NumType,
) -> Result<CTree, Memory>
    ensures { IfOk result (λ t. program_view t ≡ part_program (type_of first) (type_of second) (type_of to) (part_view part)) }
{
    let CPart {
        words,
        before,
        value,
    } = part;
    let interface = interface_of(alloc, first, second, to)?;
    let words = words_of(alloc, first, second, words)?;
    let body = body_of(alloc, before, value)?;
    Ok(CTree::plain(alloc, interface, words, body))
}

// What the program takes and gives.
fn interface_of(
    alloc: Global,
    first: NumType,
    second: NumType,
    to: NumType,
) -> Result<Interface, Memory>
    ensures { IfOk result (λ i. interface_view i ≡ PartProgram.interface (type_of first) (type_of second) (type_of to)) }
{
    let mut inputs = Items::new(alloc);
    inputs.push(slot_of(alloc, "a", first)?)?;
    inputs.push(slot_of(alloc, "b", second)?)?;
    let mut outputs = Items::new(alloc);
    outputs.push(slot_of(alloc, "y", to)?)?;
    Ok(Interface {
        entry: Text::from_str(alloc, "f")?,
        inputs,
        outputs,
    })
}

// One number of a type.
fn slot_of(alloc: Global, name: &str, num: NumType) -> Result<CSlot, Memory>
    ensures { IfOk result (λ s. slot_view s ≡ slot name.now (type_of num)) }
{
    Ok(CSlot {
        name: Text::from_str(alloc, name)?,
        kind: CKind::Fi {
            num,
            complex: false,
        },
        shape: Shape::scalar(),
    })
}

// The types of the variables: those that hold the inputs, and the part's own.
fn words_of(
    alloc: Global,
    first: NumType,
    second: NumType,
    own: Items<CWord>,
) -> Result<Items<CWord>, Memory>
    ensures { IfOk result (λ words. words ≡ variables (type_of first) (type_of second) own) }
{
    let mut words = Items::new(alloc);
    words.push(word_for(first.signed()))?;
    words.push(word_for(second.signed()))?;
    words.append(own)?;
    Ok(words)
}

// The statements of the program, where these are the part's.
fn body_of(alloc: Global, before: Items<CStmt>, value: CExpr) -> Result<Items<CStmt>, Memory>
    ensures { IfOk result (λ body. map stmt_view body ≡ statements (record { words = []; before = map stmt_view before; value = expr_view value })) }
{
    let mut body = Items::new(alloc);
    body.push(c_tree::set(0, input_of(alloc, 0)?))?;
    body.push(c_tree::set(1, input_of(alloc, 1)?))?;
    body.append(before)?;
    body.push(c_tree::store(CArray::Output(0), c_tree::signed(0), value))?;
    body.push(c_tree::give_back(0))?;
    Ok(body)
}

// The element of an input.
fn input_of(alloc: Global, k: u32) -> Result<CExpr, Memory>
    ensures { IfOk result (λ e. expr_view e ≡ input k) }
{
    let e = c_tree::element(alloc, CArray::Input(k), c_tree::signed(0))?;
    Ok(e)
}
