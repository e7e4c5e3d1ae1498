ghost use Rattle.std.specs.Prelude.{◌≡◌, ◌≢◌, ◌-◌, ◌^◌, ◌<◌, length, true, unwrap_or, IfOk, IfErr, All, Ok, Err};
ghost use Rattle.lvdc_map.specs.Memory.{are_rising, AllThere};
ghost use Rattle.lvdc_text.specs.Lines.{IsWithin};
ghost use Rattle.lvdc_map.specs.Hop.{hop_of};
ghost use Rattle.lvdc_deck.specs.Deck.{program_of, image_in, constant_of, start_in};
ghost use Rattle.lvdc_deck.specs.declared.section.ProgramKind.TheVariants as kinds;
ghost use Rattle.lvdc_deck.specs.declared.fault.DeckFault.TheVariants.{NoMemory as WantsMemory};

use crate::DeckFault;
use crate::entry::EntryPoint;
use crate::section::ProgramKind;
use lvdc_asm::{AsmFault, Assembly, assemble};
use lvdc_image::{Image, ImageFault, read_image};
use lvdc_map::Hop;
use lvdc_text::Line;
use lvdc_word::Word;
use std::alloc::Global;

/// The program of a deck, which was read.
#[derive(Drop)]
pub(crate) enum DeckProgram {
    Image(Image),
    Source(Assembly),
}

/// Reads an image.
fn read_words(alloc: Global, bytes: &[u8], text: &[Line]) -> Result<DeckProgram, DeckFault>
    requires size { length bytes.now < 2 ^ 32 - 1 }
    requires within { All (IsWithin bytes.now) text.now }
    ensures program { IfOk result (λ program. program_of kinds.Image bytes.now text.now ≡ Ok program) }
    ensures refusal { IfErr result (λ fault. fault ≢ WantsMemory → program_of kinds.Image bytes.now text.now ≡ Err fault) }
{
    match read_image(alloc, bytes, text) {
        Ok(image) => Ok(DeckProgram::Image(image)),
        Err(ImageFault::NoMemory) => Err(DeckFault::NoMemory),
        Err(fault) => Err(DeckFault::Image(fault)),
    }
}

/// Assembles a source.
fn read_source(alloc: Global, bytes: &[u8], text: &[Line]) -> Result<DeckProgram, DeckFault>
    requires size { length bytes.now < 2 ^ 32 - 1 }
    requires within { All (IsWithin bytes.now) text.now }
    ensures program { IfOk result (λ program. program_of kinds.Source bytes.now text.now ≡ Ok program) }
    ensures refusal { IfErr result (λ fault. fault ≢ WantsMemory → program_of kinds.Source bytes.now text.now ≡ Err fault) }
{
    match assemble(alloc, bytes, text) {
        Ok(assembly) => Ok(DeckProgram::Source(assembly)),
        Err(AsmFault::NoMemory) => Err(DeckFault::NoMemory),
        Err(fault) => Err(DeckFault::Asm(fault)),
    }
}

impl DeckProgram {
    /// Reads the program that these lines of the bytes are.
    pub(crate) fn read(
        alloc: Global,
        kind: ProgramKind,
        bytes: &[u8],
        text: &[Line],
    ) -> Result<DeckProgram, DeckFault>
        requires size { length bytes.now < 2 ^ 32 - 1 }
        requires within { All (IsWithin bytes.now) text.now }
        ensures program { IfOk result (λ program. program_of kind bytes.now text.now ≡ Ok program) }
        ensures refusal { IfErr result (λ fault. fault ≢ WantsMemory → program_of kind bytes.now text.now ≡ Err fault) }
    {
        match kind {
            ProgramKind::Image => read_words(alloc, bytes, text),
            ProgramKind::Source => read_source(alloc, bytes, text),
        }
    }

    /// The HOP constant of the line of code of this name, which START names on the line of this number.
    fn constant(&self, number: u32, name: &[u8]) -> Result<Hop, DeckFault>
        ensures { result ≡ constant_of self.now number name.now }
    {
        let DeckProgram::Source(assembly) = self else {
            return Err(DeckFault::Asm(AsmFault::UndefinedName(number)));
        };
        match assembly.hop_of(name) {
            Some(start) => Ok(start),
            None if assembly.defines(name) => { Err(DeckFault::Asm(AsmFault::OutOfSector(number))) }
            None => Err(DeckFault::Asm(AsmFault::UndefinedName(number))),
        }
    }

    /// Where a run of the program starts, by START.
    pub(crate) fn start(&self, entry: &Option<EntryPoint>) -> Result<Hop, DeckFault>
        ensures { result ≡ start_in self.now entry.now }
    {
        match entry {
            None => Ok(self.usual_start()),
            Some(EntryPoint::Constant(start)) => Ok(*start),
            Some(EntryPoint::Name { number, name }) => self.constant(*number, name.items()),
        }
    }

    /// Where a run of the program starts without START.
    fn usual_start(&self) -> Hop
        ensures { result ≡ unwrap_or (image_in self.now).start (hop_of 0o16) }
    {
        let said = match self {
            DeckProgram::Image(image) => image.start(),
            DeckProgram::Source(_) => None,
        };
        said.unwrap_or(Hop::of(Word::within(0o16)))
    }

    /// The image of the program. It takes no memory.
    pub(crate) fn into_image(self) -> Image
        ensures image { result ≡ image_in self }
        ensures rising { are_rising result.words ≡ true }
        ensures there { AllThere result.banks result.words }
    {
        match self {
            DeckProgram::Image(image) => image,
            DeckProgram::Source(assembly) => assembly.into_image(),
        }
    }
}
