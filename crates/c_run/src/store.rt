//! The elements of an array.

ghost use Rattle.std.specs.Prelude.{◌≡◌, ◌<◌, ◌^◌, pos, length, replicate, slice_set, slice_get, IfOk};
ghost use Rattle.c_tree.specs.Meaning;
ghost use Rattle.c_tree.specs.Meaning.{Cells, whole_of};
ghost use Rattle.c_run.specs.View.{word_view, word_told, told};
ghost use Rattle.c_run.specs.Fit.{IsFit, AreFit};

use crate::containers::{kept, loaded};
use crate::word::Word;
use num_type::{Container, Int, Memory};
use std::alloc::Global;
use std::marker::Model;

/// The elements of an array, each in the range of its type.
#[derive(Drop)]
pub struct Store {
    container: Container,
    elements: Vec<Int>,
}

impl Model for Store {
    ghost use Rattle.c_tree.specs.Meaning.{Cells};
    ghost use Rattle.c_run.specs.Fit.{AreFit};

    ghost Value = { Cells };

    ghost view = { λ s. record { container = s.container; items = s.elements.items } };

    ghost invariant = { λ s. AreFit s.container s.elements.items };
}

impl Store {
    /// So many zeros. Want of memory is the only refusal.
    pub fn zeros(alloc: Global, container: Container, count: u32) -> Result<Store, Memory>
        ensures { IfOk result (λ s. s ≡ record { container = container; items = replicate count (pos 0) }) }
    {
        let mut elements = Vec::new(alloc);
        elements.resize(count as usize, Int::from_i128(0))?;
        Ok(Store {
            container,
            elements,
        })
    }

    /// The type of the elements.
    pub fn container(&self) -> Container
        ensures { result ≡ self.now.container }
    {
        self.container
    }

    /// The elements.
    pub fn elements(&self) -> &[Int]
        ensures { result.now ≡ self.now.items }
    {
        &self.elements
    }

    /// An element at a subscript, at the opening bracket (ISO/IEC 9899:1999, 6.5.2.1). Undefined out of the array.
    #[tactic(auto, unfolding(c_tree::specs::Meaning::element, c_tree::specs::Outcome::bind, c_tree::specs::Outcome::found_at))]
    pub fn element(&self, token: u64, subscript: Word) -> Result<Word, u64>
        ensures { word_told result ≡ Meaning.element token self.now (word_view subscript) }
    {
        match subscript {
            Word::Unsigned(_) => Err(token),
            Word::Signed(k) => {
                if k < 0 {
                    return Err(token);
                }
                match self.elements.get(k as usize) {
                    None => Err(token),
                    Some(element) => Ok(loaded(self.container, *element)),
                }
            }
        }
    }

    /// Another element at this place.
    pub fn set(&mut self, place: usize, element: Int)
        requires within { place < length self.old.items }
        requires fit { IsFit self.old.container element }
        ensures { self.new ≡ record self.old { items = slice_set self.old.items place element } }
    {
        self.elements[place] = element;
    }

    /// Zeros in all places.
    pub fn clear(&mut self)
        ensures { self.new ≡ record self.old { items = replicate (length self.old.items) (pos 0) } }
    {
        self.elements.fill(Int::from_i128(0));
    }

    /// These elements in all places.
    pub fn fill(&mut self, elements: &[Int])
        requires count { length elements.now ≡ length self.old.items }
        requires fit { AreFit self.old.container elements.now }
        ensures { self.new ≡ record self.old { items = elements.now } }
    {
        self.elements.copy_from_slice(elements);
    }
}
