//! Many arrays at once.

ghost use Rattle.std.specs.Prelude.{◌≡◌, map, IfOk, vec_items};
ghost use Rattle.c_tree.specs.Run.{zeros};
ghost use Rattle.c_run.specs.Start.{cleared, refilled, AreFilling};

use crate::store::Store;
use c_tree::Array;
use num_type::{Int, Memory};
use std::alloc::Global;

/// Arrays with zeros. Want of memory is the only refusal.
pub fn zero_stores(alloc: Global, arrays: &[Array]) -> Result<Vec<Store>, Memory>
    ensures { IfOk result (λ v. v.items ≡ map zeros arrays.now) }
{
    let mut stores = Vec::new(alloc);
    for array in arrays {
        let store = Store::zeros(alloc, array.container, array.extent)?;
        stores.push(store)?;
    }
    Ok(stores)
}

/// Zeros in all places of all arrays.
pub fn clear_stores(stores: &mut [Store])
    ensures { stores.new ≡ map cleared stores.old }
{
    let mut k = 0;
    while k < stores.len() {
        let store = &mut stores[k];
        store.clear();
        k += 1;
    }
}

/// These elements in all places of all arrays.
pub fn fill_stores(stores: &mut [Store], lists: &[Vec<Int>])
    requires { AreFilling stores.old (map vec_items lists.now) }
    ensures { stores.new ≡ refilled stores.old (map vec_items lists.now) }
{
    let mut k = 0;
    while k < stores.len() {
        let list = &lists[k];
        let store = &mut stores[k];
        store.fill(list.as_slice());
        k += 1;
    }
}
