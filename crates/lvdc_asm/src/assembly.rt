ghost use Rattle.std.specs.Prelude.{◌≡◌, ◌≢◌, ◌<◌, ◌-◌, ◌^◌, None, Ok, Err, IfOk, IfErr, Some, is_some, length, slice_get, slice_index_or, All};
ghost use Rattle.std.specs.Map.{values_of};
ghost use Rattle.lvdc_text.specs.Lines.{IsWithin, numbered};
ghost use Rattle.lvdc_place.specs.Placement.{IsInPairs};
ghost use Rattle.lvdc_place.specs.Slots.{set_of};
ghost use Rattle.lvdc_asm.specs.Assembly.{by_plan, by_names, assembly_of};
ghost use Rattle.lvdc_asm.specs.Faults.{IsOwn};
ghost use Rattle.lvdc_asm.specs.Hop.{plan_at, start_of};
ghost use Rattle.lvdc_asm.specs.Names.{AreKnown, definition_of, names_in};
ghost use Rattle.lvdc_asm.specs.declared.fault.AsmFault.TheVariants.{NoMemory as WantsMemory};

use crate::AsmFault;
use crate::lines::Assembler;
use crate::names::Names;
use crate::places::Places;
use crate::pool::Pool;
use crate::table::Table;
use lvdc_image::Image;
use lvdc_map::{Address, Hop};
use lvdc_place::{Layout, Spot, place};
use lvdc_source::{Item, Program, parse_source};
use lvdc_text::Line;
use std::alloc::Global;
use std::marker::Model;

/// A source that was assembled: its items and where they stand, its names in the order of their definition, its pooled
/// words in the order of their first use, and its image.
pub struct Assembly {
    program: Program,
    places: Places,
    pool: Pool,
    image: Image,
}

impl Model for Assembly {
    ghost use Rattle.std.specs.Prelude.{◌≡◌, None, length};
    ghost use Rattle.lvdc_asm.specs.Assembly.{Assembled};
    ghost use Rattle.lvdc_asm.specs.Hop.{plan_at};

    ghost Value = { Assembled };

    ghost view = { λ a. record { items = a.program; plan = plan_at a.places.names a.places.layout; pool = a.pool; words = a.image.words } };

    ghost invariant = { λ a. (a.image.start ≡ None) × (a.image.banks ≡ 0) × (length a.places.layout.spots ≡ length a.program) };
}

/// Its parts go in one call, which whoever lets an assembly go doesn't look into.
impl Drop for Assembly {
    fn drop(self) {
        let Assembly {
            program: _,
            places: _,
            pool: _,
            image: _,
        } = self;
    }
}

impl Assembly {
    /// The image of the source, of version 1.
    pub fn image(&self) -> &Image
        ensures { result.now ≡ record { words = self.now.words; start = None; banks = 0 } }
    {
        &self.image
    }

    /// The same, as a value of its own. It takes no memory.
    pub fn into_image(self) -> Image
        ensures { result ≡ record { words = self.words; start = None; banks = 0 } }
    {
        let Assembly {
            program: _,
            places: _,
            pool: _,
            image,
        } = self;
        image
    }

    /// The HOP constant of a line of code by its name, with the data place that is assumed on the line that defines it; none
    /// exactly where the name isn't that of a line of code.
    pub fn hop_of(&self, name: &[u8]) -> Option<Hop>
        ensures { result ≡ start_of self.now.plan name.now }
    {
        self.places.start(name)
    }

    /// Does a line of the source define the name?
    pub fn defines(&self, name: &[u8]) -> bool
        ensures { result ≡ is_some (definition_of self.now.plan.names name.now) }
    {
        self.places.names.definition(name).is_some()
    }

    /// The items of the source, in the order of their lines.
    pub fn items(&self) -> &[Item]
        ensures items { result.now ≡ self.now.items }
        ensures stand { length self.now.plan.spots ≡ length result.now }
    {
        self.program.items()
    }

    /// Where an item stands, counted from 0; none for one that takes no place.
    pub fn spot(&self, item: usize) -> Option<Spot>
        requires { item < length self.now.items }
        ensures value { result ≡ slice_index_or self.now.plan.spots item None }
        ensures pairs { IsInPairs result }
    {
        self.places.layout.spot(item)
    }

    /// How many words are pooled.
    pub fn pool_size(&self) -> usize
        ensures { result ≡ length self.now.pool }
    {
        self.pool.size()
    }

    /// Where a pooled word stands, counted from 0 in the order of their first use.
    pub fn pooled(&self, index: usize) -> Address
        requires { index < length self.now.pool }
        ensures { slice_get (values_of self.now.pool) index ≡ Some result }
    {
        self.pool.at(index)
    }
}

/// The assembly of a program's lines, once their names and places are known.
fn assemble_lines(
    alloc: Global,
    program: Program,
    names: Names,
    layout: Layout,
) -> Result<Assembly, AsmFault>
    requires places { length layout.spots ≡ length program }
    requires known { AreKnown names layout.spots }
    ensures assembly { IfOk result (λ assembly. by_plan program (plan_at names layout) (set_of layout.bits) ≡ Ok assembly) }
    ensures refusal { IfErr result (λ fault. fault ≢ WantsMemory → by_plan program (plan_at names layout) (set_of layout.bits) ≡ Err fault) }
    ensures own { IfErr result IsOwn }
{
    let mut assembler = Assembler {
        places: Places { names, layout },
        pool: Pool::new(alloc),
        table: Table::empty(alloc)?,
    };
    match assembler.put_lines(program.items()) {
        Ok(()) => (),
        Err(fault) => return Err(fault),
    }
    let words = assembler.table.words(alloc)?;
    Ok(Assembly {
        program,
        places: assembler.places,
        pool: assembler.pool,
        image: Image::from_words(words),
    })
}

/// The assembly of a program.
fn assemble_program(alloc: Global, program: Program) -> Result<Assembly, AsmFault>
    ensures assembly { IfOk result (λ assembly. by_names program (names_in program) ≡ Ok assembly) }
    ensures refusal { IfErr result (λ fault. fault ≢ WantsMemory → by_names program (names_in program) ≡ Err fault) }
    ensures own { IfErr result IsOwn }
{
    let names = match Names::of_items(alloc, program.items()) {
        Ok(names) => names,
        Err(fault) => return Err(fault),
    };
    let layout = match place(alloc, &program) {
        Ok(layout) => layout,
        Err(fault) => return Err(AsmFault::from(fault)),
    };
    assemble_lines(alloc, program, names, layout)
}

/// Assembles the source that these lines of the bytes are.
pub fn assemble(alloc: Global, bytes: &[u8], lines: &[Line]) -> Result<Assembly, AsmFault>
    requires size { length bytes.now < 2 ^ 32 - 1 }
    requires within { All (IsWithin bytes.now) lines.now }
    ensures assembly { IfOk result (λ assembly. assembly_of (numbered bytes.now lines.now) ≡ Ok assembly) }
    ensures refusal { IfErr result (λ fault. fault ≢ WantsMemory → assembly_of (numbered bytes.now lines.now) ≡ Err fault) }
    // Want of memory is never told as a fault of the layers below.
    ensures own { IfErr result IsOwn }
{
    let program = match parse_source(alloc, bytes, lines) {
        Ok(program) => program,
        Err(fault) => return Err(AsmFault::from(fault)),
    };
    assemble_program(alloc, program)
}
