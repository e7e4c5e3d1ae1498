ghost use Rattle.std.specs.Prelude.{◌≡◌, ◌<◌, None, Some, ◌++◌, ◌∷◌, [], length, slice_get, OnOk};
ghost use Rattle.std.specs.Map.{lookup, values_of};
ghost use Rattle.lvdc_asm.specs.Pool.{is_same_literal};

use indexmap::IndexMap;
use lvdc_map::Address;
use lvdc_word::{NoMemory, Word};
use std::alloc::Global;
use std::marker::Model;

/// A literal's word, and the pair and the sector that it stands in.
#[derive(Clone, Copy, PartialEq, Eq, Hash)]
pub(crate) struct Literal {
    pub(crate) pair: u8,
    pub(crate) sector: u8,
    pub(crate) word: Word,
}

/// The pooled words, each with its address, in the order of their first use.
#[derive(Drop)]
pub(crate) struct Pool {
    words: IndexMap<Literal, Address>,
}

impl Model for Pool {
    ghost use Rattle.std.specs.Prelude.{List};
    ghost use Rattle.lvdc_map.specs.Address.{Spot};
    ghost use Rattle.lvdc_asm.specs.declared.pool.Literal.{Literal};

    ghost Value = { List (Literal × Spot) };

    ghost view = { λ p. p.words.entries };
}

impl Pool {
    /// No word is pooled.
    pub(crate) fn new(alloc: Global) -> Pool
        ensures { result ≡ [] }
    {
        Pool {
            words: IndexMap::new(alloc),
        }
    }

    /// Where a literal's word stands, where it is pooled.
    pub(crate) fn address(&self, literal: &Literal) -> Option<Address>
        ensures { result ≡ lookup (is_same_literal literal.now) self.now }
    {
        self.words.get(literal).copied()
    }

    /// How many words are pooled.
    pub(crate) fn size(&self) -> usize
        ensures { result ≡ length self.now }
    {
        self.words.len()
    }

    /// Where a pooled word stands, counted from 0 in the order of their first use.
    pub(crate) fn at(&self, index: usize) -> Address
        requires { index < length self.now }
        ensures { slice_get (values_of self.now) index ≡ Some result }
    {
        self.words[index]
    }

    /// Pools a word at an address.
    pub(crate) fn add(&mut self, literal: Literal, at: Address) -> Result<(), NoMemory>
        requires { lookup (is_same_literal literal) self.old ≡ None }
        ensures { OnOk result (self.new ≡ self.old ++ (literal, at) ∷ []) }
    {
        self.words.insert(literal, at)?;
        Ok(())
    }
}
