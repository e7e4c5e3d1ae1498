ghost use Rattle.std.specs.Prelude.{◌≡◌, ◌≢◌, ◌<◌, true, length, slice_index_or, None, IfOk, IfErr, OnOk, Ok, Err};
ghost use Rattle.lvdc_source.specs.Items.{IsProgram, takes};
ghost use Rattle.lvdc_source.specs.declared.item.Body.TheVariants.{Instruction};
ghost use Rattle.lvdc_asm.specs.DataPlace.{first_data};
ghost use Rattle.lvdc_asm.specs.declared.fault.AsmFault.TheVariants.{NoMemory as WantsMemory};
ghost use Rattle.lvdc_asm.specs.Faults.{IsOwn};
ghost use Rattle.lvdc_asm.specs.Operands.{constant_word};
ghost use Rattle.lvdc_asm.specs.Pool.{literal_place};
ghost use Rattle.lvdc_asm.specs.Lines.{word_address, operand_address, with_constant, line_at, line_done, lines_after, HasOperand};
ghost use Rattle.lvdc_asm.specs.AssemblerState.{plan_of, progress_of};

use crate::AsmFault;
use crate::data::DataPlace;
use crate::operand::{
    decimal_word, name_address, name_word, number_address, octal_word, pair_address,
};
use crate::places::Places;
use crate::pool::{Literal, Pool};
use crate::table::Table;
use lvdc_isa::{Instr, Op, encode};
use lvdc_map::Address;
use lvdc_place::{PlaceFault, Spot};
use lvdc_source::{Body, Constant, Item, Operand};
use lvdc_word::Word;

/// What has been assembled so far.
#[derive(Drop)]
pub(crate) struct Assembler {
    pub(crate) places: Places,
    pub(crate) pool: Pool,
    pub(crate) table: Table,
}

impl Assembler {
    /// The word that a constant on a line is.
    fn word(&self, line: u32, constant: &Constant) -> Result<Word, AsmFault>
        ensures value { result ≡ constant_word (plan_of self.now) line constant.now }
        ensures own { IfErr result IsOwn }
    {
        match constant {
            Constant::Oct(n) => octal_word(*n).ok_or(AsmFault::OutOfRange(line)),
            Constant::Dec(n) => decimal_word(*n).ok_or(AsmFault::OutOfRange(line)),
            Constant::HopOf(name) => name_word(line, self.places.target(name.items())),
        }
    }

    /// Where a literal of a line stands, which is pooled if it isn't yet.
    fn store(&mut self, line: u32, literal: Literal) -> Result<Address, AsmFault>
        requires pair { literal.pair < 4 }
        requires sector { literal.sector < 16 }
        ensures place { IfOk result (λ at.
            literal_place line (progress_of self.old) literal
            ≡ Ok (record { at = at; progress = progress_of self.new })) }
        ensures refusal { IfErr result (λ fault. fault ≢ WantsMemory →
            literal_place line (progress_of self.old) literal ≡ Err fault) }
        ensures own { IfErr result IsOwn }
        ensures plan { plan_of self.new ≡ plan_of self.old }
    {
        if let Some(at) = self.pool.address(&literal) {
            return Ok(at);
        }
        let Some(at) = self.places.layout.pool(literal.pair, literal.sector) else {
            return Err(AsmFault::Place(PlaceFault::NoRoom(line)));
        };
        self.pool.add(literal, at)?;
        self.table.put_word(at, literal.word);
        Ok(at)
    }

    /// The address of a literal, whose word is pooled if it isn't yet.
    fn literal_address(
        &mut self,
        line: u32,
        assumed: DataPlace,
        constant: &Constant,
    ) -> Result<u16, AsmFault>
        ensures address { IfOk result (λ address.
            word_address line assumed (progress_of self.old)
            (constant_word (plan_of self.old) line constant.now)
            ≡ Ok (record { address = address; progress = progress_of self.new })) }
        ensures refusal { IfErr result (λ fault. fault ≢ WantsMemory →
            word_address line assumed (progress_of self.old)
            (constant_word (plan_of self.old) line constant.now) ≡ Err fault) }
        ensures own { IfErr result IsOwn }
        ensures plan { plan_of self.new ≡ plan_of self.old }
        ensures small { IfOk result (λ address. address < 512) }
    {
        let word = match self.word(line, constant) {
            Ok(word) => word,
            Err(fault) => return Err(fault),
        };
        let literal = Literal {
            pair: assumed.pair,
            sector: assumed.sector,
            word,
        };
        let at = match self.store(line, literal) {
            Ok(at) => at,
            Err(fault) => return Err(fault),
        };
        Ok(u16::from(at.loc))
    }

    /// The nine address bits of an operand on a line, for an instruction that stands here.
    fn operand_address(
        &mut self,
        line: u32,
        op: Op,
        here: Address,
        assumed: DataPlace,
        operand: &Operand,
    ) -> Result<u16, AsmFault>
        ensures address { IfOk result (λ address.
            operand_address (plan_of self.old) line op here assumed
            (progress_of self.old) operand.now
            ≡ Ok (record { address = address; progress = progress_of self.new })) }
        ensures refusal { IfErr result (λ fault. fault ≢ WantsMemory →
            operand_address (plan_of self.old) line op here assumed
            (progress_of self.old) operand.now ≡ Err fault) }
        ensures own { IfErr result IsOwn }
        ensures plan { plan_of self.new ≡ plan_of self.old }
        ensures small { IfOk result (λ address. address < 512) }
    {
        match operand {
            Operand::Number(n) => number_address(op, *n).ok_or(AsmFault::OutOfRange(line)),
            Operand::Pair(pair, sector) => {
                pair_address(*pair, *sector).ok_or(AsmFault::OutOfRange(line))
            }
            Operand::Name { name, offset } => {
                let target = self.places.target(name.items());
                name_address(line, op, here, assumed, *offset, target)
            }
            Operand::Literal(constant) => self.literal_address(line, assumed, constant),
        }
    }

    /// Puts an instruction of a line into its slot.
    fn put_instruction(
        &mut self,
        line: u32,
        op: Op,
        operand: &Operand,
        assumed: DataPlace,
        here: Spot,
    ) -> Result<(), AsmFault>
        requires pair { here.at.pair < 4 }
        requires takes { takes op operand.now ≡ true }
        ensures done { OnOk result (
            line_at (plan_of self.old) line assumed here (Instruction op operand.now)
            (progress_of self.old)
            ≡ Ok (progress_of self.new)) }
        ensures refusal { IfErr result (λ fault. fault ≢ WantsMemory →
            line_at (plan_of self.old) line assumed here (Instruction op operand.now)
            (progress_of self.old) ≡ Err fault) }
        ensures own { IfErr result IsOwn }
        ensures plan { plan_of self.new ≡ plan_of self.old }
    {
        let address = match self.operand_address(line, op, here.at, assumed, operand) {
            Ok(address) => address,
            Err(fault) => return Err(fault),
        };
        let syllable = encode(Instr { op, address });
        self.table
            .put_code(here.at, here.syl.unwrap_or(0), syllable);
        Ok(())
    }

    /// Puts a constant of a line into its location.
    fn put_constant(&mut self, line: u32, constant: &Constant, here: Spot) -> Result<(), AsmFault>
        requires pair { here.at.pair < 4 }
        ensures done { OnOk result (
            with_constant here.at (progress_of self.old)
            (constant_word (plan_of self.old) line constant.now)
            ≡ Ok (progress_of self.new)) }
        ensures refusal { IfErr result (λ fault.
            with_constant here.at (progress_of self.old)
            (constant_word (plan_of self.old) line constant.now) ≡ Err fault) }
        ensures own { IfErr result IsOwn }
        ensures places { self.new.places ≡ self.old.places }
    {
        match self.word(line, constant) {
            Ok(word) => {
                self.table.put_word(here.at, word);
                Ok(())
            }
            Err(fault) => Err(fault),
        }
    }

    /// Puts what an item says where it stands; one that takes no place adds nothing.
    fn put_line(&mut self, number: usize, assumed: DataPlace, item: &Item) -> Result<(), AsmFault>
        requires number { number < length self.old.places.layout.spots }
        requires operand { HasOperand item.now.body }
        ensures done { OnOk result (
            line_done (plan_of self.old) assumed
            (slice_index_or self.old.places.layout.spots number None) item.now
            (progress_of self.old)
            ≡ Ok (progress_of self.new)) }
        ensures refusal { IfErr result (λ fault. fault ≢ WantsMemory →
            line_done (plan_of self.old) assumed
            (slice_index_or self.old.places.layout.spots number None) item.now
            (progress_of self.old) ≡ Err fault) }
        ensures own { IfErr result IsOwn }
        ensures plan { plan_of self.new ≡ plan_of self.old }
    {
        let Some(here) = self.places.layout.spot(number) else {
            return Ok(());
        };
        match &item.body {
            Body::Constant(constant) => self.put_constant(item.line, constant, here),
            Body::Instruction { op, operand } => {
                self.put_instruction(item.line, *op, operand, assumed, here)
            }
            _ => Ok(()),
        }
    }

    /// Puts all lines in order, up to the first that is wrong.
    pub(crate) fn put_lines(&mut self, items: &[Item]) -> Result<(), AsmFault>
        requires program { IsProgram items.now }
        requires places { length self.old.places.layout.spots ≡ length items.now }
        ensures done { OnOk result (
            lines_after (plan_of self.old) 0 first_data items.now
            (Ok (progress_of self.old))
            ≡ Ok (progress_of self.new)) }
        ensures refusal { IfErr result (λ fault. fault ≢ WantsMemory →
            lines_after (plan_of self.old) 0 first_data items.now
            (Ok (progress_of self.old)) ≡ Err fault) }
        ensures own { IfErr result IsOwn }
        ensures plan { plan_of self.new ≡ plan_of self.old }
    {
        let mut assumed = DataPlace::first();
        for (number, item) in items.iter().enumerate() {
            match self.put_line(number, assumed, item) {
                Ok(()) => assumed = assumed.after(&item.body),
                Err(fault) => return Err(fault),
            }
        }
        Ok(())
    }
}
