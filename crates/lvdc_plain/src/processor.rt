//! The registers and the memory, and what an instruction does to them.

ghost use Rattle.std.specs.Prelude.{◌≡◌, ◌-◌, ◌<◌, None, if◌then◌else◌};
ghost use Rattle.lvdc_isa.specs.Instr.{takes_operand};
ghost use Rattle.lvdc_map.specs.Hop.{after, word_of_hop};
ghost use Rattle.lvdc_map.specs.Memory.{Memory, IsMemory};
ghost use Rattle.lvdc_map.specs.Place.{with_data};
ghost use Rattle.lvdc_plain.specs.Plain.{PlainState, started};
ghost use Rattle.lvdc_plain.specs.Processor.{Holds, LeavesResults};
ghost use Rattle.lvdc_plain.specs.Table.{effect, fetched_instr, goes_on, landed_a, landed_pq, later, makes, operand_place, pending_after, pq_after, request_by, stores, transfers, waits, word_of_place};
ghost use Rattle.lvdc_plain.specs.View.{ByInstruction};

use crate::records::{Pending, Stop};
use lvdc_isa::{Instr, Op, decode, shifted};
use lvdc_map::{Banks, Hop, Place, Words, is_a9, low_bits, operand_place};
use lvdc_port::PortRequest;
use lvdc_word::{Word, product, quotient};

/// The registers, the result on its way, the times left to hold, and the memory.
pub struct Processor {
    pub banks: Banks,
    pub place: Hop,
    pub a: Word,
    pub pq: Word,
    pub saver: Word,
    pub pending: Option<Pending>,
    pub hold: u8,
    pub words: Words,
}

/// Its parts go in one call, which whoever lets it go doesn't look into.
impl Drop for Processor {
    fn drop(self) {
        let Processor {
            banks: _,
            place: _,
            a: _,
            pq: _,
            saver: _,
            pending: _,
            hold: _,
            words: _,
        } = self;
    }
}

impl Processor {
    /// At the start: registers of 0, and nothing pending.
    pub fn started(banks: Banks, start: Hop, words: Words) -> Processor
        ensures holds { (m : Memory) → IsMemory words m → Holds result (started banks start m) }
        ensures banks { result.banks ≡ banks }
    {
        Processor {
            banks,
            place: start,
            a: Word::ZERO,
            pq: Word::ZERO,
            saver: Word::ZERO,
            pending: None,
            hold: 0,
            words,
        }
    }

    /// The instruction at the fetch address.
    pub fn fetched(&self) -> Instr
        ensures value { (p : PlainState) → Holds self.now p → result ≡ fetched_instr p }
        ensures small { result.address < 512 }
    {
        let word = self.words.word(self.place.fetch(self.banks));
        decode(self.place.syllable(word))
    }

    /// What an instruction asks of the ports.
    pub fn request(&self, instr: Instr) -> Option<PortRequest>
        requires { instr.address < 512 }
        ensures { (p : PlainState) → Holds self.now p
            → result ≡ request_by instr.op p instr.address }
    {
        match instr.op {
            Op::Pio => {
                let port = low_bits(instr.address);
                Some(if is_a9(instr.address) {
                    PortRequest::Read { port }
                } else {
                    PortRequest::Write { port, word: self.a }
                })
            }
            _ => None,
        }
    }

    /// The word at the place that an address names.
    fn operand(&self, address: u16) -> Word
        requires { address < 512 }
        ensures { (p : PlainState) → Holds self.now p
            → result ≡ word_of_place p (operand_place p address) }
    {
        match operand_place(self.place, address, self.banks) {
            Place::Memory(at) | Place::Saver(at) => self.words.word(at),
            Place::Pq => self.pq,
        }
    }

    /// The word that an instruction takes, where the ports answered this one.
    pub fn taken(&self, instr: Instr, answer: Word) -> Word
        requires { instr.address < 512 }
        ensures { (p : PlainState) → Holds self.now p → result ≡
            (if takes_operand instr.op then word_of_place p (operand_place p instr.address)
            else answer) }
    {
        if instr.op.takes_operand() {
            self.operand(instr.address)
        } else {
            answer
        }
    }

    /// Goes on to the next location.
    fn go_on(&mut self)
        ensures { self.new ≡ record self.old { place = after self.old.place } }
    {
        self.place = self.place.after();
    }

    /// Goes on with this word in the accumulator.
    fn take(&mut self, word: Word)
        ensures { self.new ≡ record self.old { place = after self.old.place; a = word } }
    {
        self.place = self.place.after();
        self.a = word;
    }

    /// Goes to a place, and saves the place after this instruction with the data place as it was.
    fn go_to(&mut self, place: Hop)
        ensures { self.new
            ≡ record self.old { place = place; saver = word_of_hop (after self.old.place) } }
    {
        self.saver = self.place.after().to_word();
        self.place = place;
    }

    /// Goes to the syllable and location of an address in the same sector.
    fn transfer(&mut self, address: u16)
        ensures holds { (p : PlainState) → Holds self.old p → Holds self.new (transfers p address) }
        ensures results { LeavesResults self.old self.new }
    {
        self.go_to(self.place.jumped(address));
    }

    /// Transfers where a condition is met, and else goes on.
    fn transfer_where(&mut self, met: bool, address: u16)
        ensures holds { (p : PlainState) → Holds self.old p
            → Holds self.new (if met then transfers p address else goes_on p) }
        ensures results { LeavesResults self.old self.new }
    {
        if met {
            self.transfer(address);
        } else {
            self.go_on();
        }
    }

    /// Takes another data module, data sector and DUPDN from an address.
    fn set_data(&mut self, address: u16)
        ensures { self.new ≡ record self.old { place = with_data (after self.old.place) address } }
    {
        self.place = self.place.after().with_data(address);
    }

    /// Stores by place. What is stored in PQ has to wait for the landing.
    fn store(&mut self, address: u16)
        requires { address < 512 }
        ensures holds { (p : PlainState) → Holds self.old p
            → Holds self.new (stores p (operand_place p address)) }
        ensures results { LeavesResults self.old self.new }
    {
        match operand_place(self.place, address, self.banks) {
            Place::Memory(at) => self.words.store(at, self.a),
            Place::Saver(at) => self.words.store(at, self.saver),
            Place::Pq => {}
        }
        self.go_on();
    }

    /// Does what an instruction does before the landing, its word taken. Answers why it stops, where it does.
    fn make(&mut self, instr: Instr, m: Word) -> Option<Stop>
        requires { instr.address < 512 }
        ensures holds { (p : PlainState) → Holds self.old p
            → Holds self.new (effect instr.op p instr.address m) }
        ensures stop { (p : PlainState) → p.stop ≡ None
            → result ≡ (effect instr.op p instr.address m).stop }
        ensures cause { ByInstruction result }
        ensures results { LeavesResults self.old self.new }
    {
        match instr.op {
            Op::Hop => self.go_to(Hop::of(m)),
            Op::Mpy | Op::Div => self.go_on(),
            Op::Sub => self.take(self.a.minus(m)),
            Op::Tnz => self.transfer_where(self.a.value() != 0, instr.address),
            Op::Mph => {
                self.go_on();
                self.hold = 4;
            }
            Op::And => self.take(self.a.both(m)),
            Op::Add => self.take(self.a.plus(m)),
            Op::Tra => self.transfer(instr.address),
            Op::Xor => self.take(self.a.differ(m)),
            Op::Pio => self.take(if is_a9(instr.address) { m } else { self.a }),
            Op::Sto => self.store(instr.address),
            Op::Tmi => self.transfer_where(self.a.is_negative(), instr.address),
            Op::Rsu => self.take(m.minus(self.a)),
            Op::Cds => self.set_data(instr.address),
            Op::Shf => self.take(shifted(self.a, instr.address & 127)),
            Op::WrongShift => return Some(Stop::Shift),
            Op::Exm => return Some(Stop::Exm),
            Op::Cla => self.take(m),
        }
        None
    }

    /// What was pending loses one of its times left, and lands where one was left.
    fn land(&mut self)
        ensures { self.new ≡ record self.old {
          a = landed_a self.old.pending self.old.a;
          pq = landed_pq self.old.pending self.old.pq;
          pending = later self.old.pending;
        } }
    {
        if let Some(pending) = self.pending {
            if pending.left == 1 {
                self.pq = pending.result;
                if pending.to_a {
                    self.a = pending.result;
                }
                self.pending = None;
            } else {
                self.pending = Some(Pending {
                    left: pending.left.saturating_sub(1),
                    ..pending
                });
            }
        }
    }

    /// Puts a finished result on its way.
    fn issue(&mut self, left: u8, word: Word, to_a: bool)
        ensures { self.new ≡ record self.old { pending = Some (record { left = left; result = word; to_a = to_a }) } }
    {
        self.pending = Some(Pending {
            left,
            result: word,
            to_a,
        });
    }

    /// Issues what an instruction computes, or stores in PQ. The accumulator and the place are those before it.
    fn finish(&mut self, instr: Instr, a: Word, place: Hop, m: Word)
        requires { instr.address < 512 }
        ensures banks { self.new.banks ≡ self.old.banks }
        ensures finished { (p : PlainState) → p.banks ≡ self.old.banks → p.place ≡ place → p.a ≡ a
            → self.new ≡ record self.old {
              pq = pq_after instr.op p instr.address self.old.pq;
              pending = pending_after instr.op p instr.address m self.old.pending;
            } }
    {
        match instr.op {
            Op::Mpy => self.issue(4, product(a, m), false),
            Op::Mph => self.issue(4, product(a, m), true),
            Op::Div => self.issue(8, quotient(a, m), false),
            Op::Sto => {
                if let Place::Pq = operand_place(place, instr.address, self.banks) {
                    self.pq = a;
                    self.pending = None;
                }
            }
            _ => {}
        }
    }

    /// Makes an instruction that takes this word. Answers why it stops, where it does.
    pub fn execute(&mut self, instr: Instr, m: Word) -> Option<Stop>
        requires { instr.address < 512 }
        ensures holds { (p : PlainState) → Holds self.old p → Holds self.new (makes instr p m) }
        ensures stop { (p : PlainState) → p.stop ≡ None → result ≡ (makes instr p m).stop }
        ensures cause { ByInstruction result }
        ensures banks { self.new.banks ≡ self.old.banks }
    {
        let (a, place) = (self.a, self.place);
        let stop = self.make(instr, m);
        self.land();
        self.finish(instr, a, place, m);
        stop
    }

    /// Waits for one time of a hold.
    pub fn wait(&mut self)
        requires { 0 < self.old.hold }
        ensures holds { (p : PlainState) → Holds self.old p
            → Holds self.new (waits (self.old.hold - 1) p) }
        ensures banks { self.new.banks ≡ self.old.banks }
    {
        self.land();
        self.hold -= 1;
    }
}
