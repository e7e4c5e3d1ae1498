ghost use Rattle.std.specs.Prelude.{◌≡◌, ◌≢◌, ◌++◌, true, false, IfOk, OnOk, IfErr, Ok, Err};
ghost use Rattle.std.specs.Map.{keys_of};
ghost use Rattle.lvdc_source.specs.Items.{IsProgram};
ghost use Rattle.lvdc_asm.specs.Faults.{IsOwn};
ghost use Rattle.lvdc_asm.specs.Names.{entry_of, is_among, names_in, definition_of};
ghost use Rattle.lvdc_asm.specs.declared.fault.AsmFault.TheVariants.{NoMemory as WantsMemory, DuplicateName};

use crate::AsmFault;
use crate::data::DataPlace;
use lvdc_source::Item;
use lvdc_text::Index;
use std::alloc::Global;
use std::marker::Model;

/// What a name stands for: the item that it labels, and the data place that is assumed there.
#[derive(Clone, Copy)]
pub(crate) struct Definition {
    pub(crate) item: usize,
    pub(crate) assumed: DataPlace,
}

/// The names of a source, in the order of their definition.
#[derive(Drop)]
pub(crate) struct Names {
    table: Index<Definition>,
}

impl Model for Names {
    ghost use Rattle.std.specs.Prelude.{ℕ, List};
    ghost use Rattle.lvdc_asm.specs.declared.names.Definition.{Definition};

    ghost Value = { List (List ℕ × Definition) };

    ghost view = { λ n. n.table };
}

impl Names {
    /// The names that the items of a source define, unless one is defined twice.
    pub(crate) fn of_items(alloc: Global, items: &[Item]) -> Result<Names, AsmFault>
        requires { IsProgram items.now }
        ensures names { IfOk result (λ names. names_in items.now ≡ Ok names) }
        ensures refusal { IfErr result (λ fault. fault ≢ WantsMemory → names_in items.now ≡ Err fault) }
        ensures own { IfErr result IsOwn }
    {
        let mut names = Names {
            table: Index::new(alloc),
        };
        let mut assumed = DataPlace::first();
        for (number, item) in items.iter().enumerate() {
            let definition = Definition {
                item: number,
                assumed,
            };
            names.define(alloc, item.label.items(), definition, item.line)?;
            assumed = assumed.after(&item.body);
        }
        Ok(names)
    }

    /// Adds the label of a line, where it has one that isn't defined yet.
    fn define(
        &mut self,
        alloc: Global,
        label: &[u8],
        definition: Definition,
        line: u32,
    ) -> Result<(), AsmFault>
        ensures added { OnOk result (self.new ≡ self.old ++ entry_of label.now definition) }
        ensures new { OnOk result (is_among (keys_of self.old) label.now ≡ false) }
        ensures refusal { IfErr result (λ fault. fault ≢ WantsMemory →
            (fault ≡ DuplicateName line) × (is_among (keys_of self.old) label.now ≡ true)) }
        ensures own { IfErr result IsOwn }
    {
        if label.is_empty() {
            return Ok(());
        }
        if self.table.get(label).is_some() {
            return Err(AsmFault::DuplicateName(line));
        }
        self.table.add(alloc, label, definition)?;
        Ok(())
    }

    /// What a name stands for, where it is defined.
    pub(crate) fn definition(&self, name: &[u8]) -> Option<Definition>
        ensures { result ≡ definition_of self.now name.now }
    {
        self.table.get(name)
    }
}
