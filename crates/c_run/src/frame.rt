//! What a running function holds.

ghost use Rattle.std.specs.Prelude.{◌≡◌, ◌<◌, slice_get, slice_set, Some, length, map, IfOk, vec_items};
ghost use Rattle.std.specs.Option.{option_copied};
ghost use Rattle.c_tree.specs.Names.{arrays_of};
ghost use Rattle.c_tree.specs.View.{program_view};
ghost use Rattle.c_tree.specs.Outcome.{bind, found_at, Completes};
ghost use Rattle.c_tree.specs.Meaning.{Cells, counts_of, count_in, cells_in, writable_in, with_word, with_count, with_cells, assigned, stored, Went};
ghost use Rattle.c_run.specs.View.{word_view, word_told, told, flow_told};
ghost use Rattle.c_run.specs.Shape.{shape_of};
ghost use Rattle.c_run.specs.Fit.{IsFit};
ghost use Rattle.c_run.specs.Start.{blank, restarted, AreFilling};

use crate::flow::Flow;
use crate::setup::zero_words;
use crate::store::Store;
use crate::stores::{clear_stores, fill_stores, zero_stores};
use crate::tallies::{Tallies, clear_tallies, zero_tallies};
use crate::tally::Tally;
use crate::word::Word;
use c_tree::{Arrays, CArray, CTree, Counter, CounterKind};
use num_type::{Int, Memory};
use std::alloc::Global;
use std::marker::Model;

/// The variables, the counters and the arrays of a running function.
#[derive(Drop)]
pub struct Frame {
    words: Vec<Word>,
    groups: Vec<Tally>,
    barriers: Vec<Tally>,
    sources: Vec<Tally>,
    turns: Vec<Tally>,
    inputs: Vec<Store>,
    outputs: Vec<Store>,
    locals: Vec<Store>,
}

impl Model for Frame {
    ghost use Rattle.std.specs.Prelude.{map};
    ghost use Rattle.c_tree.specs.Meaning.{State};
    ghost use Rattle.c_run.specs.View.{word_view};

    ghost Value = { State };

    ghost view = { λ f. record {
      words = map word_view f.words.items;
      counts = record { groups = f.groups.items; barriers = f.barriers.items; sources = f.sources.items; turns = f.turns.items };
      inputs = f.inputs.items;
      outputs = f.outputs.items;
      locals = f.locals.items;
    } };
}

impl Frame {
    /// The frame of a tree, with zeros everywhere. Want of memory is the only refusal.
    pub fn new(alloc: Global, tree: &CTree, all: &Arrays) -> Result<Frame, Memory>
        requires { all.now ≡ arrays_of (program_view tree.now) }
        ensures { IfOk result (λ f. f ≡ blank (program_view tree.now)) }
    {
        let words = zero_words(alloc, tree.words.as_slice())?;
        let Tallies {
            groups,
            barriers,
            sources,
            turns,
        } = zero_tallies(alloc, tree)?;
        let inputs = zero_stores(alloc, all.inputs.as_slice())?;
        let outputs = zero_stores(alloc, all.outputs.as_slice())?;
        let locals = zero_stores(alloc, all.locals.as_slice())?;
        Ok(Frame {
            words,
            groups,
            barriers,
            sources,
            turns,
            inputs,
            outputs,
            locals,
        })
    }

    // These words and these elements of the input arrays, and zeros else.
    fn refill(&mut self, words: &[Word], lists: &[Vec<Int>])
        requires words { length (map word_view words.now) ≡ length self.old.words }
        requires lists { AreFilling self.old.inputs (map vec_items lists.now) }
        ensures { self.new ≡ restarted self.old (map word_view words.now) (map vec_items lists.now) }
    {
        set_words(&mut self.words, words);
        clear_tallies(&mut self.groups);
        clear_tallies(&mut self.barriers);
        clear_tallies(&mut self.sources);
        clear_tallies(&mut self.turns);
        fill_stores(&mut self.inputs, lists);
        clear_stores(&mut self.outputs);
        clear_stores(&mut self.locals);
    }

    /// These words and these elements of the input arrays, and zeros else.
    #[tactic(auto, using(crate::proofs::Lists::restart_shaped))]
    pub fn restart(&mut self, words: &[Word], lists: &[Vec<Int>])
        requires words { length (map word_view words.now) ≡ length self.old.words }
        requires lists { AreFilling self.old.inputs (map vec_items lists.now) }
        ensures start { self.new ≡ restarted self.old (map word_view words.now) (map vec_items lists.now) }
        ensures shaped { shape_of self.new ≡ shape_of self.old }
    {
        self.refill(words, lists);
    }

    /// The elements of an output array.
    pub fn output(&self, k: usize) -> &[Int]
        requires { k < length self.now.outputs }
        ensures { slice_get (map (λ cells. cells.items) self.now.outputs) k ≡ Some result.now }
    {
        let store = &self.outputs[k];
        store.elements()
    }

    /// The word of a variable, or the token where there is none.
    pub fn word(&self, token: u64, number: u32) -> Result<Word, u64>
        ensures { word_told result ≡ found_at token (slice_get self.now.words number) }
    {
        word_at(self.words.as_slice(), token, number as usize)
    }

    // The counters of one kind.
    fn tallies(&self, kind: CounterKind) -> &[Tally]
        ensures { result.now ≡ counts_of self.now.counts kind }
    {
        match kind {
            CounterKind::Group => self.groups.as_slice(),
            CounterKind::Barrier => self.barriers.as_slice(),
            CounterKind::Source => self.sources.as_slice(),
            CounterKind::Turn => self.turns.as_slice(),
        }
    }

    /// What a counter is at, or the token where there is no such counter.
    #[tactic(auto, unfolding(c_tree::specs::Outcome::found_at))]
    pub fn tally(&self, token: u64, counter: Counter) -> Result<Tally, u64>
        ensures { told result ≡ found_at token (count_in self.now counter) }
    {
        match sqlite_items::at(self.tallies(counter.kind), counter.number as usize) {
            None => Err(token),
            Some(tally) => Ok(*tally),
        }
    }

    /// An array, or None where there is none.
    pub fn cells(&self, array: CArray) -> Option<&Store>
        ensures { option_copied result ≡ cells_in self.now array }
    {
        match array {
            CArray::Input(k) => self.inputs.get(k as usize),
            CArray::Output(k) => self.outputs.get(k as usize),
            CArray::Local(k) => self.locals.get(k as usize),
        }
    }

    /// An array that isn't const, or None where there is none.
    pub fn writable(&self, array: CArray) -> Option<&Store>
        ensures { option_copied result ≡ writable_in self.now array }
    {
        match array {
            CArray::Input(_) => None,
            CArray::Output(k) => self.outputs.get(k as usize),
            CArray::Local(k) => self.locals.get(k as usize),
        }
    }

    // Another word of a variable, if there is such a variable.
    fn set_word(&mut self, number: u32, word: Word)
        ensures { self.new ≡ with_word self.old number (word_view word) }
    {
        set_word_at(&mut self.words, number as usize, word)
    }

    /// A variable takes a word of its type. Undefined at the token where there is no such variable, or where the word has another type.
    #[tactic(auto, using(crate::proofs::Frames::word_shaped), unfolding(c_tree::specs::Outcome::bind, c_tree::specs::Meaning::assigned))]
    pub fn assign(&mut self, token: u64, number: u32, word: Word) -> Flow
        ensures told { flow_told result self.new ≡ bind (found_at token (slice_get self.old.words number)) (λ old. bind (assigned token old (word_view word)) (λ new. Completes (Went (with_word self.old number new)))) }
        ensures shaped { shape_of self.new ≡ shape_of self.old }
    {
        match self.word(token, number) {
            Err(token) => Flow::Undefined(token),
            Ok(old) => match (old, word) {
                (Word::Signed(_), Word::Signed(_)) => {
                    self.set_word(number, word);
                    Flow::Went
                }
                (Word::Unsigned(_), Word::Unsigned(_)) => {
                    self.set_word(number, word);
                    Flow::Went
                }
                _ => Flow::Undefined(token),
            },
        }
    }

    // A counter at another number, if there is such a counter.
    fn set_tally(&mut self, counter: Counter, tally: Tally)
        ensures { self.new ≡ with_count self.old counter tally }
    {
        let place = counter.number as usize;
        match counter.kind {
            CounterKind::Group => set_tally_at(&mut self.groups, place, tally),
            CounterKind::Barrier => set_tally_at(&mut self.barriers, place, tally),
            CounterKind::Source => set_tally_at(&mut self.sources, place, tally),
            CounterKind::Turn => set_tally_at(&mut self.turns, place, tally),
        }
    }

    /// A counter at another number.
    #[tactic(auto, using(crate::proofs::Frames::count_shaped))]
    pub fn set_count(&mut self, counter: Counter, tally: Tally)
        ensures count { self.new ≡ with_count self.old counter tally }
        ensures shaped { shape_of self.new ≡ shape_of self.old }
    {
        self.set_tally(counter, tally);
    }

    // Another element of an array that isn't const.
    fn set_element(&mut self, array: CArray, place: usize, element: Int)
        requires { (cells : Cells) → writable_in self.old array ≡ Some cells → (place < length cells.items) × IsFit cells.container element }
        ensures { (cells : Cells) → writable_in self.old array ≡ Some cells → self.new ≡ with_cells self.old array (record cells { items = slice_set cells.items place element }) }
    {
        match array {
            CArray::Input(_) => {}
            CArray::Output(k) => set_element_at(&mut self.outputs, k as usize, place, element),
            CArray::Local(k) => set_element_at(&mut self.locals, k as usize, place, element),
        }
    }

    /// Another element of an array at a subscript, at the opening bracket (ISO/IEC 9899:1999, 6.5.2.1). Undefined out of the array.
    #[tactic(auto, using(crate::proofs::Frames::cells_shaped), unfolding(c_tree::specs::Outcome::choose, c_tree::specs::Meaning::stored))]
    pub fn put(&mut self, token: u64, array: CArray, element: Int, subscript: Word) -> Flow
        requires { (cells : Cells) → writable_in self.old array ≡ Some cells → IsFit cells.container element }
        ensures told { (cells : Cells) → writable_in self.old array ≡ Some cells → flow_told result self.new ≡ stored token self.old array cells element (word_view subscript) }
        ensures shaped { shape_of self.new ≡ shape_of self.old }
    {
        let Word::Signed(subscript) = subscript else {
            return Flow::Undefined(token);
        };
        if subscript < 0 {
            return Flow::Undefined(token);
        }
        let place = subscript as usize;
        match self.writable(array) {
            None => Flow::Undefined(token),
            Some(cells) => {
                if place < cells.elements().len() {
                    self.set_element(array, place, element);
                    Flow::Went
                } else {
                    Flow::Undefined(token)
                }
            }
        }
    }
}

// The word at a place, or the token where there is none.
#[tactic(auto, using(crate::proofs::Frames::get_word), unfolding(c_tree::specs::Outcome::found_at))]
fn word_at(words: &[Word], token: u64, place: usize) -> Result<Word, u64>
    ensures { word_told result ≡ found_at token (slice_get (map word_view words.now) place) }
{
    match sqlite_items::at(words, place) {
        None => Err(token),
        Some(word) => Ok(*word),
    }
}

// Another word at a place, if there is such a place.
#[tactic(auto, using(crate::proofs::Frames::set_word, crate::proofs::Frames::set_past))]
fn set_word_at(words: &mut [Word], place: usize, word: Word)
    ensures { map word_view words.new ≡ slice_set (map word_view words.old) place (word_view word) }
{
    if place < words.len() {
        words[place] = word;
    }
}

// Another number of a counter, if there is such a counter.
fn set_tally_at(tallies: &mut [Tally], place: usize, tally: Tally)
    ensures { tallies.new ≡ slice_set tallies.old place tally }
{
    if place < tallies.len() {
        tallies[place] = tally;
    }
}

// Another element at a place of an array among some, if there is such an array.
fn set_element_at(stores: &mut [Store], k: usize, place: usize, element: Int)
    requires { (cells : Cells) → slice_get stores.old k ≡ Some cells → (place < length cells.items) × IsFit cells.container element }
    ensures { (cells : Cells) → slice_get stores.old k ≡ Some cells → stores.new ≡ slice_set stores.old k (record cells { items = slice_set cells.items place element }) }
{
    if k < stores.len() {
        let store = &mut stores[k];
        store.set(place, element);
    }
}

// These words in all places.
fn set_words(words: &mut [Word], others: &[Word])
    requires { length (map word_view others.now) ≡ length (map word_view words.old) }
    ensures { map word_view words.new ≡ map word_view others.now }
{
    words.copy_from_slice(others);
}
