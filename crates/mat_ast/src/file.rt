//! Whole files.

ghost use Rattle.std.specs.Prelude.{◌≡◌, ◌<◌, ◌≤◌, MatchOption};
ghost use Rattle.mat_ast.specs.View.{funcs_view};
ghost use Rattle.mat_ast.specs.Depth.{file_depth};
ghost use Rattle.mat_ast.specs.Source.{KeepsFuns, IsFile};

use crate::depth::are_funcs_within;
use crate::tree::Func;
use std::marker::Model;

/// The greatest depth of a file's tree.
pub const DEPTH_MAX: u32 = 100;

/// The functions of a source in their order. The tree is not too deep, each number is written as a decimal, and each place is in a source
/// of at most 1,048,576 bytes.
#[derive(Drop)]
pub struct File {
    funcs: Vec<Func>,
}

impl Model for File {
    ghost use Rattle.std.specs.Prelude.{List};
    ghost use Rattle.mat_ast.specs.declared.tree.Func.{Func};
    ghost use Rattle.std.specs.Coded.{coded_list};
    ghost use Rattle.mat_ast.specs.contracts.tree.Func as func;

    ghost Value = { List Func };

    ghost coded = { coded_list func.the_row.coded };

    ghost use Rattle.mat_ast.specs.View.{funcs_view};
    ghost use Rattle.mat_ast.specs.Source.{IsFile};

    ghost view = { λ f. f.funcs.items };

    ghost invariant = { λ f. IsFile (funcs_view f.funcs.items) };
}

impl File {
    /// The file of these functions; None exactly if their depth is over 100. A leaf has the depth 1, any other node and any statement
    /// 1 more than its deepest part, and all arms of an `if` together count 1.
    pub fn make(funcs: Vec<Func>) -> Option<File>
        requires { KeepsFuns (funcs_view funcs.items) }
        ensures { MatchOption result (100 < file_depth (funcs_view funcs.items)) (λ f. (f ≡ funcs.items) × (file_depth (funcs_view funcs.items) ≤ 100)) }
    {
        if are_funcs_within(&funcs, DEPTH_MAX) {
            Some(File { funcs })
        } else {
            None
        }
    }

    /// The functions.
    pub fn funcs(&self) -> &[Func]
        ensures funcs { result.now ≡ self.now }
        ensures kept { IsFile (funcs_view self.now) }
    {
        &self.funcs
    }
}
