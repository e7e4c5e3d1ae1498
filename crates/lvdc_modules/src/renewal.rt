//! Each module goes on to what follows for it, in place. The instruction is decoded once at most, and what can't change in the
//! phase isn't written.

ghost use Rattle.std.specs.Prelude.{◌≡◌};
ghost use Rattle.lvdc_modules.specs.declared.seen.Phase.TheVariants.{C};
ghost use Rattle.lvdc_modules.specs.declared.seen.Doing.TheVariants.{Fetching, Taking, Waiting};
ghost use Rattle.lvdc_modules.specs.Seen.{phase, hold, doing};
ghost use Rattle.lvdc_modules.specs.Next.{next_states, renewed, after_unit, after_operation};

use crate::accumulator::{a_landed, accumulated, operand_named};
use crate::decoder::decoder_at;
use crate::exchange::{requested, stopped};
use crate::locator::located;
use crate::multiplier::{after_phase, latched, working};
use crate::seen::{Doing, doing_of, here_of, instruction_of};
use crate::selector::selected;
use crate::timer::{held_timer, timer_after};
use crate::{AccumulatorState, Bus};
use lvdc_isa::Instr;
use lvdc_mul::Kind;
use lvdc_word::Word;

impl Bus {
    /// Goes on to the next phase: all modules do so side by side, and no words have come yet.
    pub fn renew(&mut self)
        ensures { self.new ≡ renewed self.old }
    {
        match doing_of(self) {
            Doing::Waiting => self.wait(),
            Doing::Fetching => self.fetch(),
            Doing::Taking => self.take(),
            Doing::Executing => self.execute(),
        }
        self.memory = Word::ZERO;
        self.port = Word::ZERO;
    }

    /// A phase of a hold.
    fn wait(&mut self)
        requires { doing self.old ≡ Waiting }
        ensures { self.new ≡ next_states self.old }
    {
        self.timer = timer_after(self);
        self.exchange.request = Word::ZERO;
        self.run_unit();
    }

    /// Phase A: the instruction is fetched.
    fn fetch(&mut self)
        requires { doing self.old ≡ Fetching }
        ensures { self.new ≡ next_states self.old }
    {
        self.timer = timer_after(self);
        self.decoder = decoder_at(self);
        self.exchange.request = Word::ZERO;
        self.run_unit();
    }

    /// Phase B: the operand is taken, and what phase C exchanges is requested.
    fn take(&mut self)
        requires { doing self.old ≡ Taking }
        ensures { self.new ≡ next_states self.old }
    {
        let Instr { op, address } = instruction_of(self);
        self.timer = timer_after(self);
        self.exchange.request = requested(op, here_of(self), address).to_word();
        if op.takes_operand() {
            self.accumulator.operand = operand_named(self, address);
        }
        self.run_unit();
    }

    /// Phase C: the instruction is executed.
    #[inline(never)]
    fn execute(&mut self)
        requires hold { hold self.old ≡ 0 }
        requires phase { phase self.old ≡ C }
        ensures { self.new ≡ next_states self.old }
    {
        let instruction = instruction_of(self);
        let Instr { op, address } = instruction;
        let selector = selected(op, self, address);
        self.timer = held_timer(op);
        self.locator = located(op, self, address);
        self.selector = selector;
        self.exchange.stop = stopped(op, self.exchange.stop);
        self.exchange.request = Word::ZERO;
        self.operate(instruction);
    }

    /// The arithmetic unit makes its phase, and no instruction is executed.
    fn run_unit(&mut self)
        ensures { self.new ≡ after_unit self.old }
    {
        if working(self).kind() != Kind::Idle {
            self.work();
        }
    }

    /// The arithmetic unit makes its phase, whatever it works on. All of the phase is compiled in, so that no latches are copied.
    #[inline(never)]
    fn work(&mut self)
        ensures { self.new ≡ after_unit self.old }
    {
        self.accumulator.a = a_landed(self, self.accumulator.a);
        let (pq, unit) = after_phase(self);
        self.multiplier = latched(pq, unit);
    }

    /// The arithmetic unit makes its phase, and then the instruction is executed.
    fn operate(&mut self, instruction: Instr)
        ensures { self.new ≡ after_operation instruction self.old }
    {
        let Instr { op, address } = instruction;
        let AccumulatorState { a, operand } = self.accumulator;
        self.accumulator.a = accumulated(op, self, address);
        self.run_unit();
        self.multiplier.issue(op, address, a, operand);
    }
}
