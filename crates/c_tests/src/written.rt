//! Texts of programs, worked by hand.

use c_tree::{
    CArray, CExpr, CKind, COp, CRel, CSlot, CStmt, CTree, CWord, Counter, CounterKind, Interface,
    LocalArray, binary, compare, counted, element, for_each, give_back, if_only, set, signed,
    store, variable,
};
use c_write::write_tree;
use fic_base::Text;
use num_type::{Container, Memory, NumType};
use shape_rules::Shape;
use sqlite_items::Items;
use std::alloc::Global;
use std::test::Fail;

fn slot(alloc: Global, name: &str, word: u32, fraction: i32, cols: u32) -> Result<CSlot, Memory> {
    let Some(num) = NumType::make(true, word, fraction) else {
        return Err(Memory);
    };
    let Some(shape) = Shape::make(1, cols) else {
        return Err(Memory);
    };
    Ok(CSlot {
        name: Text::from_str(alloc, name)?,
        kind: CKind::Fi {
            num,
            complex: false,
        },
        shape,
    })
}

fn input(alloc: Global, number: u32) -> Result<CExpr, Memory> {
    element(alloc, CArray::Input(number), signed(0))
}

/// `y = a*b + a` on two numbers of 8 bits, 4 of them behind the point.
fn product_and_sum(alloc: Global) -> Result<CTree, Memory> {
    let mut inputs = Items::new(alloc);
    inputs.push(slot(alloc, "a", 8, 4, 1)?)?;
    inputs.push(slot(alloc, "b", 8, 4, 1)?)?;
    let mut outputs = Items::new(alloc);
    outputs.push(slot(alloc, "y", 17, 8, 1)?)?;
    let product = binary(alloc, COp::Mul, input(alloc, 0)?, input(alloc, 1)?)?;
    let scaled = binary(alloc, COp::Mul, input(alloc, 0)?, signed(16))?;
    let mut body = Items::new(alloc);
    body.push(set(0, product))?;
    body.push(set(1, binary(alloc, COp::Add, variable(0), scaled)?))?;
    body.push(store(CArray::Output(0), signed(0), variable(1)))?;
    body.push(give_back(0))?;
    let mut words = Items::new(alloc);
    words.push(CWord::I64)?;
    words.push(CWord::I64)?;
    Ok(CTree {
        interface: Interface {
            entry: Text::from_str(alloc, "f")?,
            inputs,
            outputs,
        },
        arrays: Items::new(alloc),
        words,
        groups: 0,
        barriers: 0,
        sources: 0,
        turns: 0,
        body,
    })
}

/// A loop over eight elements, and a fault.
fn loop_and_fault(alloc: Global) -> Result<CTree, Memory> {
    let counter = Counter {
        kind: CounterKind::Group,
        number: 0,
    };
    let mut turn = Items::new(alloc);
    turn.push(store(CArray::Output(0), counted(counter), variable(0)))?;
    let mut fault = Items::new(alloc);
    fault.push(give_back(30))?;
    let mut body = Items::new(alloc);
    body.push(for_each(counter, 8, turn))?;
    body.push(if_only(compare(CRel::Lt, variable(0), signed(1)), fault))?;
    body.push(give_back(0))?;
    let mut arrays = Items::new(alloc);
    arrays.push(LocalArray {
        container: Container::U32,
        count: 8,
    })?;
    let mut outputs = Items::new(alloc);
    outputs.push(slot(alloc, "y", 16, -3, 8)?)?;
    let mut words = Items::new(alloc);
    words.push(CWord::I64)?;
    Ok(CTree {
        interface: Interface {
            entry: Text::from_str(alloc, "g")?,
            inputs: Items::new(alloc),
            outputs,
        },
        arrays,
        words,
        groups: 1,
        barriers: 0,
        sources: 0,
        turns: 0,
        body,
    })
}

#[test]
fn layout_of_a_product_and_a_sum(rt: HostRuntime) -> Result<(), Fail> {
    let alloc = rt.alloc();
    let tree = product_and_sum(alloc)?;
    let mut out = Vec::new(alloc);
    write_tree(alloc, &tree, &mut out)?;
    let want = b"#include <stdint.h>
/* fic f a:s8.4:1x1 b:s8.4:1x1 -> y:s17.8:1x1 */
int32_t fic_f(const int8_t in_a[1], const int8_t in_b[1], int32_t out_y[1]) {
  int64_t v0 = INT64_C(0);
  int64_t v1 = INT64_C(0);
  v0 = ((int64_t)in_a[INT64_C(0)] * (int64_t)in_b[INT64_C(0)]);
  v1 = (v0 + ((int64_t)in_a[INT64_C(0)] * INT64_C(16)));
  out_y[INT64_C(0)] = (int32_t)v1;
  return INT32_C(0);
}
";
    assert_eq!(rt; out.as_slice(), want.as_slice());
    Ok(())
}

#[test]
fn layout_of_a_loop_and_a_fault(rt: HostRuntime) -> Result<(), Fail> {
    let alloc = rt.alloc();
    let tree = loop_and_fault(alloc)?;
    let mut out = Vec::new(alloc);
    write_tree(alloc, &tree, &mut out)?;
    let want = b"#include <stdint.h>
/* fic g -> y:s16.-3:1x8 */
int32_t fic_g(int16_t out_y[8]) {
  uint32_t m0[8] = {0};
  int64_t v0 = INT64_C(0);
  int64_t g0 = INT64_C(0);
  for (g0 = INT64_C(0); g0 < INT64_C(8); g0 = (g0 + INT64_C(1))) {
    out_y[g0] = (int16_t)v0;
  }
  if (v0 < INT64_C(1)) {
    return INT32_C(30);
  }
  return INT32_C(0);
}
";
    assert_eq!(rt; out.as_slice(), want.as_slice());
    Ok(())
}
