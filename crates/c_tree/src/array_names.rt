//! The arrays of a program, by their names.

ghost use Rattle.std.specs.Prelude.{◌≡◌, ◌++◌, ◌∷◌, [], IfOk, OnOk, map, string_bytes};
ghost use Rattle.std.specs.Option.{option_copied};
ghost use Rattle.c_tree.specs.View.{program_view, slot_view, kind_view};
ghost use Rattle.c_tree.specs.Names;
ghost use Rattle.c_tree.specs.Names.{kind_container, slot_arrays, locals_from, Fronts, slots_arrays};

use crate::interface::{CKind, CSlot};
use crate::tree::{CArray, CTree, LocalArray};
use fic_base::Text;
use num_type::{Container, Memory};
use sqlite_items::Items;
use std::alloc::Global;

/// An array: its name, the type of its elements, and how many it has.
#[derive(Drop)]
pub struct Array {
    pub name: Text,
    pub container: Container,
    pub extent: u32,
}

/// The arrays of a program: the parameters in their order, and the local arrays.
#[derive(Drop)]
pub struct Arrays {
    pub inputs: Items<Array>,
    pub outputs: Items<Array>,
    pub locals: Items<Array>,
}

impl Arrays {
    /// The arrays of a tree, their names with what stands before a slot's name. Want of memory is the only refusal.
    pub fn of(alloc: Global, tree: &CTree) -> Result<Arrays, Memory>
        ensures { IfOk result (λ all. all ≡ Names.arrays_of (program_view tree.now)) }
    {
        let inputs = arrays_of_slots(
            alloc,
            "in_",
            "inr_",
            "ini_",
            tree.interface.inputs.as_slice(),
        )?;
        let outputs = arrays_of_slots(
            alloc,
            "out_",
            "outr_",
            "outi_",
            tree.interface.outputs.as_slice(),
        )?;
        let locals = local_arrays(alloc, tree.arrays.as_slice())?;
        Ok(Arrays {
            inputs,
            outputs,
            locals,
        })
    }

    /// The array of this kind and number, or None where there is none.
    pub fn find(&self, array: CArray) -> Option<&Array>
        ensures { option_copied result ≡ Names.array_at self.now array }
    {
        match array {
            CArray::Input(k) => sqlite_items::at(self.inputs.as_slice(), k as usize),
            CArray::Output(k) => sqlite_items::at(self.outputs.as_slice(), k as usize),
            CArray::Local(k) => sqlite_items::at(self.locals.as_slice(), k as usize),
        }
    }
}

fn arrays_of_slots(
    alloc: Global,
    plain: &str,
    re: &str,
    im: &str,
    slots: &[CSlot],
) -> Result<Items<Array>, Memory>
    ensures { IfOk result (λ all. all ≡ slots_arrays (record { plain = plain.now; re = re.now; im = im.now }) (map slot_view slots.now)) }
{
    let mut found = Items::new(alloc);
    for slot in slots {
        push_slot(alloc, &mut found, plain, re, im, slot)?;
    }
    Ok(found)
}

fn push_slot(
    alloc: Global,
    found: &mut Items<Array>,
    plain: &str,
    re: &str,
    im: &str,
    slot: &CSlot,
) -> Result<(), Memory>
    ensures { OnOk result (found.new ≡ found.old ++ slot_arrays (record { plain = plain.now; re = re.now; im = im.now }) (slot_view slot.now)) }
{
    let container = container_of(slot.kind);
    let extent = slot.shape.elements();
    if is_complex(slot.kind) {
        found.push(make_array(alloc, re, slot.name.as_bytes(), container, extent)?)?;
        found.push(make_array(alloc, im, slot.name.as_bytes(), container, extent)?)?;
    } else {
        found.push(make_array(alloc, plain, slot.name.as_bytes(), container, extent)?)?;
    }
    Ok(())
}

fn make_array(
    alloc: Global,
    front: &str,
    name: &[u8],
    container: Container,
    extent: u32,
) -> Result<Array, Memory>
    ensures { IfOk result (λ a. a ≡ record { name = front.now ++ name.now; container = container; extent = extent }) }
{
    let mut text = Vec::from_slice(alloc, front.as_bytes())?;
    text.extend_from_slice(name)?;
    Ok(Array {
        name: Text::from_vec(text),
        container,
        extent,
    })
}

fn is_complex(kind: CKind) -> bool
    ensures { result ≡ Names.is_complex (kind_view kind) }
{
    match kind {
        CKind::Fi { num: _, complex } => complex,
        CKind::Logical => false,
    }
}

fn container_of(kind: CKind) -> Container
    ensures { result ≡ kind_container (kind_view kind) }
{
    match kind {
        CKind::Fi { num, complex: _ } => num.container(),
        CKind::Logical => Container::U8,
    }
}

fn local_arrays(alloc: Global, arrays: &[LocalArray]) -> Result<Items<Array>, Memory>
    ensures { IfOk result (λ all. all ≡ locals_from 0 arrays.now) }
{
    let mut found = Items::new(alloc);
    for (k, local) in arrays.iter().enumerate() {
        let number = k.to_string(alloc)?;
        found.push(make_array(alloc, "m", number.as_bytes(), local.container, local.count)?)?;
    }
    Ok(found)
}
