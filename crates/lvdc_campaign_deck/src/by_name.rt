//! Scripts that are found by their names, fast among many.

ghost use Rattle.std.specs.Prelude.{◌≡◌, ◌<◌, ◌^◌, ◌++◌, ◌∷◌, [], false, length, OnOk, OnErr};
ghost use Rattle.lvdc_campaign_deck.specs.Scripts.{is_taken};

use lvdc_fault::Named;
use lvdc_text::Index;
use lvdc_word::NoMemory;
use std::alloc::Global;
use std::marker::Model;

/// Scripts in their order, no two of one name.
#[derive(Drop)]
pub(crate) struct ByName {
    alloc: Global,
    scripts: Vec<Named>,
    names: Index<()>,
}

impl Model for ByName {
    ghost use Rattle.std.specs.Prelude.{◌≡◌, List, map};
    ghost use Rattle.std.specs.Map.{keys_of};
    ghost use Rattle.lvdc_fault.specs.declared.named.Named.{Named};

    ghost Value = { List Named };

    ghost view = { λ s. s.scripts.items };

    ghost invariant = { λ s. keys_of s.names ≡ map (λ named. named.name) s.scripts.items };
}

impl ByName {
    /// No script yet.
    pub(crate) fn new(alloc: Global) -> ByName
        ensures { result ≡ [] }
    {
        ByName {
            alloc,
            scripts: Vec::new(alloc),
            names: Index::new(alloc),
        }
    }

    /// How many there are.
    pub(crate) fn count(&self) -> usize
        ensures count { result ≡ length self.now }
        ensures small { result < 2 ^ 63 }
    {
        self.scripts.len()
    }

    /// Has one of them this name?
    pub(crate) fn is_taken(&self, name: &[u8]) -> bool
        ensures { result ≡ is_taken name.now self.now }
    {
        self.names.get(name).is_some()
    }

    /// Adds a script behind the others.
    pub(crate) fn add(&mut self, script: Named) -> Result<(), NoMemory>
        requires new { is_taken script.name self.old ≡ false }
        ensures added { OnOk result (self.new ≡ self.old ++ script ∷ []) }
        ensures kept { OnErr result (self.new ≡ self.old) }
    {
        self.scripts.reserve(1)?;
        self.names.add(self.alloc, script.name.items(), ())?;
        self.scripts.push_reserved(script);
        Ok(())
    }

    /// All of them, in their order. It takes no memory.
    pub(crate) fn into_vec(self) -> Vec<Named>
        ensures { result.items ≡ self }
    {
        let ByName {
            alloc: _,
            scripts,
            names: _,
        } = self;
        scripts
    }
}
