//! The program of an entry.

ghost use Rattle.fi_rules.specs.Texts.{counts_text};
ghost use Rattle.std.specs.Prelude.{◌≡◌, ◌<◌, ◌^◌, ◌++◌, ◌∷◌, [], List, length, nat_eq, IfOk, OnOk, Some, map};
ghost use Rattle.fic_base.specs.declared.code.Code.TheVariants as code;
ghost use Rattle.num_type.specs.Types.{NumericType};
ghost use Rattle.num_type.specs.View.{type_of};
ghost use Rattle.mat_ast.specs.View.{func_view};
ghost use Rattle.c_tree.specs.View.{program_view, slot_view, stmt_view};
ghost use Rattle.scalar_program.specs.Lowered.{IsFunctionLowered, inputs_from, no_names, real_slots, stores_from, program_of};
ghost use Rattle.scalar_program.specs.Correspondence.{form_of, real_form};
ghost use Rattle.scalar_program.specs.Right.{IsRight};
ghost use Rattle.walk_scope.specs.Told.{Passes, Refuses, choose};
ghost use Rattle.scalar_walk.specs.Walk as walk;
ghost use Rattle.walk_scope.specs.View.{Tells, scope_view};
ghost use Rattle.scalar_walk.specs.View.{TellsTypes, names_view, operand_view, emitted_view};

use crate::emitted::Emitted;
use crate::operand::{Held, Operand, Spot, read};
use crate::statements::{lower_block, lower_outputs};
use crate::variables::Variables;
use c_tree::{CArray, CKind, CSlot, CStmt, CTree, Interface};
use fi_rules::Ty;
use fic_base::{Refusal, Text};
use mat_ast::{Func, Ident};
use num_type::{Memory, NumType, Stop};
use shape_rules::Shape;
use sqlite_items::Items;
use std::alloc::Global;
use walk_scope::{Scope, arg_count};

/// The program of a function at these types of its inputs. Well formed, at most 500 deep, and for every input, every contents of the
/// outputs and every bound on turns never undefined and what evaluation of the function gives. Its outputs have the types that the walk tells.
/// Refused exactly as its definition tells: at the first node with a missing condition. Want of memory is the free answer.
pub fn lower_function(
    alloc: Global,
    scope: &Scope<'_>,
    f: &Func,
    types: &[NumType],
) -> Result<CTree, Stop<Refusal>>
    ensures told { TellsTypes result (walk.function_walked (scope_view scope.now) (func_view f.now) (map type_of types.now)) }
    ensures counts { IfOk result (λ t. length f.now.inputs ≡ length types.now) }
    ensures lowered { IfOk result (λ t. IsFunctionLowered (scope_view scope.now).context (func_view f.now) (map type_of types.now) (program_view t)) }
    ensures right { IfOk result (λ t. IsRight (scope_view scope.now).context (func_view f.now) (map type_of types.now) (program_view t)) }
    ensures outputs { IfOk result (λ t. (us : List NumericType) → walk.function_walked (scope_view scope.now) (func_view f.now) (map type_of types.now) ≡ Passes us → map form_of (program_view t).interface.outputs ≡ map real_form us) }
    ensures few { IfOk result (λ t. length t.words < 2 ^ 32) }
{
    check_count(alloc, f, types)?;
    let mut names = Variables::new(alloc);
    set_inputs(f.inputs.as_slice(), alloc, types, &mut names)?;
    let mut out = Emitted::new(alloc);
    lower_block(f.body.as_slice(), alloc, scope, &mut names, &mut out)?;
    let outputs = lower_outputs(f.outputs.as_slice(), alloc, &names)?;
    let program = assemble(alloc, f, types, out, outputs.as_slice())?;
    Ok(program)
}

// There are as many types as inputs.
#[tactic(auto, using(walk_scope::proofs::Tell::stop_tells), unfolding(walk_scope::specs::Told::choose))]
fn check_count(alloc: Global, f: &Func, types: &[NumType]) -> Result<(), Stop<Refusal>>
    ensures told { Tells result (λ u. length types.now) (choose (nat_eq (length types.now) (length f.now.inputs)) (Passes (length types.now)) (Refuses code.ArgCount f.now.name.place (counts_text (length types.now) (length f.now.inputs)))) }
    ensures counts { IfOk result (λ u. length types.now ≡ length f.now.inputs) }
{
    let want = f.inputs.as_slice().len();
    if types.len() == want {
        Ok(())
    } else {
        Err(arg_count(alloc, f.name.place, types.len(), want))
    }
}

// Gives the inputs their places.
fn set_inputs(
    inputs: &[Ident],
    alloc: Global,
    types: &[NumType],
    names: &mut Variables,
) -> Result<(), Memory>
    ensures { OnOk result (names_view names.new ≡ inputs_from 0 inputs.now (map type_of types.now) (names_view names.old)) }
{
    let count = inputs.len().min(types.len());
    for k in 0..count {
        let held = Held {
            spot: Spot::Input(number(k)?),
            ty: Ty::Fi(types[k], None),
        };
        names.set(alloc, inputs[k].text.as_bytes(), held)?;
    }
    Ok(())
}

// The slots of names with their types, one element each.
fn slots(names: &[Ident], alloc: Global, types: &[NumType]) -> Result<Items<CSlot>, Memory>
    ensures { IfOk result (λ s. map slot_view s ≡ real_slots names.now (map type_of types.now)) }
{
    let mut all = Items::new(alloc);
    let count = names.len().min(types.len());
    for k in 0..count {
        all.push(CSlot {
            name: Text::from_bytes(alloc, names[k].text.as_bytes())?,
            kind: CKind::Fi {
                num: types[k],
                complex: false,
            },
            shape: Shape::scalar(),
        })?;
    }
    Ok(all)
}

// Adds the stores of the outputs.
fn put_stores(alloc: Global, outputs: &[Operand], body: &mut Items<CStmt>) -> Result<(), Memory>
    ensures { OnOk result (map stmt_view body.new ≡ map stmt_view body.old ++ stores_from 0 (map operand_view outputs.now)) }
{
    for k in 0..outputs.len() {
        let value = read(alloc, outputs[k].spot)?;
        body.push(c_tree::store(CArray::Output(number(k)?), c_tree::signed(0), value))?;
    }
    Ok(())
}

// A number of an array. There are fewer than 2^32 of them wherever there is memory for their names.
fn number(k: usize) -> Result<u32, Memory>
    ensures { IfOk result (λ n. n ≡ k) }
{
    if k < 1 << 32 {
        Ok(k as u32)
    } else {
        Err(Memory)
    }
}

// The program from what the body and the outputs give.
fn assemble(
    alloc: Global,
    f: &Func,
    types: &[NumType],
    out: Emitted,
    outputs: &[Operand],
) -> Result<CTree, Memory>
    ensures program { IfOk result (λ t. program_view t ≡ program_of (func_view f.now) (map type_of types.now) (emitted_view out) (map operand_view outputs.now)) }
    ensures few { IfOk result (λ t. length t.words < 2 ^ 32) }
{
    let output_types = types_of(outputs, alloc)?;
    let interface = Interface {
        entry: Text::from_bytes(alloc, f.name.text.as_bytes())?,
        inputs: slots(f.inputs.as_slice(), alloc, types)?,
        outputs: slots(f.outputs.as_slice(), alloc, output_types.as_slice())?,
    };
    let Emitted {
        sets,
        words,
        nodes: _,
    } = out;
    let mut body = sets;
    put_stores(alloc, outputs, &mut body)?;
    body.push(c_tree::give_back(0))?;
    Ok(CTree::plain(alloc, interface, words, body))
}

// The types of operands.
fn types_of(operands: &[Operand], alloc: Global) -> Result<Vec<NumType>, Memory>
    ensures { IfOk result (λ v. map type_of v.items ≡ map (λ o. o.num) (map operand_view operands.now)) }
{
    let mut types = Vec::new(alloc);
    for o in operands {
        types.push(o.num)?;
    }
    Ok(types)
}
