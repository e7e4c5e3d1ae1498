ghost use Rattle.std.specs.Prelude.{◌≡◌, [], ◌∷◌, ◌++◌, None, OnOk, OnErr};
ghost use Rattle.std.specs.Map.{lookup};
ghost use Rattle.std.specs.Str.{bytes_eq};

use lvdc_word::NoMemory;
use std::alloc::Global;
use std::collections::BTreeMap;
use std::marker::Model;

/// Values by their names, each name once. Contracts see them in the order in which they were added. What a call costs grows with
/// the logarithm of how many there are, whatever their names are.
#[derive(Drop)]
pub struct Index<T> {
    entries: Vec<(Vec<u8>, T)>,
    places: BTreeMap<Vec<u8>, T>,
}

impl<T> Model for Index<T> {
    ghost use Rattle.std.specs.Prelude.{ℕ, List, map};
    ghost use Rattle.lvdc_text.specs.Lookups.{FindsSame};

    ghost Value = { List (List ℕ × T) };

    ghost view = { λ i. map (λ e. (e.0.items, e.1)) i.entries.items };

    ghost invariant = { λ i. FindsSame (λ k. k.items) i.places.entries i.entries.items };
}

impl<T: Copy> Index<T> {
    /// No value yet.
    pub fn new(alloc: Global) -> Index<T>
        ensures { result ≡ [] }
    {
        Index {
            entries: Vec::new(alloc),
            places: BTreeMap::new(alloc),
        }
    }

    /// The value of this name, where there is one.
    pub fn get(&self, name: &[u8]) -> Option<T>
        ensures { result ≡ lookup (bytes_eq name.now) self.now }
    {
        self.places.get(name).copied()
    }

    /// Adds a value of a new name behind the others.
    pub fn add(&mut self, alloc: Global, name: &[u8], value: T) -> Result<(), NoMemory>
        requires new { lookup (bytes_eq name.now) self.old ≡ None }
        ensures added { OnOk result (self.new ≡ self.old ++ (name.now, value) ∷ []) }
        ensures kept { OnErr result (self.new ≡ self.old) }
    {
        let entry = (Vec::from_slice(alloc, name)?, value);
        let key = Vec::from_slice(alloc, name)?;
        self.entries.reserve(1)?;
        self.places.insert(key, value)?;
        self.entries.push_reserved(entry);
        Ok(())
    }
}
