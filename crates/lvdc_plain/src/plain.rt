//! The plain machine.

ghost use Rattle.std.specs.Prelude.{◌≡◌, ◌≢◌, ℕ, ◌+◌, ◌-◌, ◌*◌, ◌/◌, ◌≤◌, ◌<◌, length, map, true, IsSome, IsNone, slice_index, vec_len, vec_capacity, OnOk, OnErr, IfOk, IfErr, Some, None};
ghost use Rattle.lvdc_map.specs.Address.{number_of};
ghost use Rattle.lvdc_map.specs.Banks.{is_there};
ghost use Rattle.lvdc_map.specs.Memory.{Memory, word_at, IsMemory, are_rising, AllThere};
ghost use Rattle.lvdc_port.specs.Causes.{Rose};
ghost use Rattle.lvdc_port.specs.Device.{word_of_time};
ghost use Rattle.lvdc_port.specs.Devices.{count_at, HasSpare, HoldWords, AreDistinct};
ghost use Rattle.lvdc_plain.specs.Calls.{times_left, Begins, Keeps, Leaves, PlainEndHasCause, Answers};
ghost use Rattle.lvdc_plain.specs.Lists.{AreFit};
ghost use Rattle.lvdc_plain.specs.Plain.{PlainState};
ghost use Rattle.lvdc_plain.specs.Processor.{end_of};
ghost use Rattle.lvdc_plain.specs.Run.{Opening};
ghost use Rattle.lvdc_plain.specs.Stands.{Shows, Names, Stands};
ghost use Rattle.lvdc_plain.specs.Table.{answered, exchanged, logged, makes, waits};
ghost use Rattle.lvdc_plain.specs.View.{visible_of, answer_of_end, ByInstruction, IsPlainEnd};
ghost use Rattle.lvdc_plain.specs.declared.records.PlainEnd.TheVariants.{Device};

use crate::processor::Processor;
use crate::records::{Exchange, PlainEnd, Stop, Unplug, Visible};
use crate::unplugs::unplug_all;
use lvdc_isa::{Instr, Op};
use lvdc_map::{Address, Banks, Hop, Placed, Words, is_a9, low_bits};
use lvdc_port::{DeviceFault, PortDevice, PortRequest, exchange, prepare_all, word_of_time};
use lvdc_word::{NoMemory, Word};
use std::alloc::Global;
use std::marker::Model;

/// The machine of one copy, without its devices. Steps are counted as the voted machine counts them: instruction time k
/// has the steps 3k to 3k + 2, and an exchange or a stop falls into the last of them.
pub struct Plain {
    processor: Processor,
    log: Vec<Exchange>,
    times: u64,
    limit: u64,
    unplugs: Vec<Unplug>,
    end: Option<PlainEnd>,
}

impl Model for Plain {
    ghost use Rattle.std.specs.Prelude.{◌≤◌, vec_len, vec_capacity};
    ghost use Rattle.lvdc_plain.specs.View.{View, answer_of_end, IsPlainEnd};

    ghost Value = { View };

    ghost view = { λ p. record {
      banks = p.processor.banks;
      place = p.processor.place;
      a = p.processor.a;
      pq = p.processor.pq;
      saver = p.processor.saver;
      pending = p.processor.pending;
      hold = p.processor.hold;
      words = p.processor.words;
      log = p.log.items;
      times = p.times;
      limit = p.limit;
      unplugs = p.unplugs.items;
      end = p.end;
    } };

    // The log has an entry for each time at most, and room for one in each time that may be made.
    ghost invariant = { λ p. (vec_len p.log ≤ p.times) × (p.times ≤ p.limit) × (p.limit ≤ vec_capacity p.log) × (p.limit ≤ 1000000) × IsPlainEnd (answer_of_end p.end) };
}

/// Makes the exchange that is asked for. Where none is, and after a write, the answer is 0.
fn answer(
    devices: &mut Vec<Box<dyn PortDevice>>,
    times: u64,
    request: Option<PortRequest>,
) -> Result<Word, DeviceFault>
    requires { HasSpare spare 1 devices.old.items }
    ensures word { IfOk result (λ word. word
        ≡ answered request (word_of_time times) (map device_of devices.old.items)) }
    ensures ok { OnOk result (map device_of devices.new.items
        ≡ exchanged request (map device_of devices.old.items)) }
    ensures err { OnErr result (map device_of devices.new.items ≡ map device_of devices.old.items) }
    ensures spare { (n : ℕ) → HasSpare spare (n + 1) devices.old.items
        → HasSpare spare n devices.new.items }
    ensures spare_err { OnErr result (map spare devices.new.items ≡ map spare devices.old.items) }
    ensures faults { OnOk result (map faults devices.new.items ≡ map faults devices.old.items) }
    ensures fault { IfErr result (λ fault. Names request fault.port
        × Rose (count_at device_of faults fault.port devices.old.items)
        (count_at device_of faults fault.port devices.new.items)) }
    ensures others { IfErr result (λ fault. (port : ℕ) → port ≢ fault.port
        → count_at device_of faults port devices.new.items
        ≡ count_at device_of faults port devices.old.items) }
{
    match request {
        None => Ok(Word::ZERO),
        Some(request) => match exchange(devices, word_of_time(times), request) {
            Ok(word) => Ok(word),
            Err(fault) => Err(fault),
        },
    }
}

/// Logs the exchange that an instruction made, if it made one. A written word is the accumulator, a read one is taken.
fn log_exchange(log: &mut Vec<Exchange>, instr: Instr, time: u64, a: Word, m: Word)
    requires small { instr.address < 512 }
    requires room { vec_len log.old < vec_capacity log.old }
    ensures items { (p : PlainState) → p.log ≡ log.old.items → p.times ≡ time → p.a ≡ a
        → log.new.items ≡ logged instr.op p instr.address m }
    ensures len { vec_len log.new ≤ vec_len log.old + 1 }
    ensures capacity { vec_capacity log.old ≤ vec_capacity log.new }
{
    if let Op::Pio = instr.op {
        let reading = is_a9(instr.address);
        let pushed = log.push(Exchange {
            time,
            port: low_bits(instr.address),
            reading,
            word: if reading { m } else { a },
        });
        prove!(pushed.is_ok());
    }
}

/// Keeps the end that a stop in this time is. A stop is rare, so that a time doesn't make room for one.
#[inline(never)]
fn keep_stop(end: &mut Option<PlainEnd>, time: u64, stop: Stop)
    requires small { time ≤ 1000000 }
    requires cause { ByInstruction (Some stop) }
    ensures end { end.new ≡ end_of time (Some stop) }
    ensures cause { IsPlainEnd (answer_of_end end.new) }
{
    *end = Some(PlainEnd::Stopped {
        step: 3 * time + 2,
        stop,
    });
}

/// Its parts go in one call, which whoever lets a machine go doesn't look into.
impl Drop for Plain {
    fn drop(self) {
        let Plain {
            processor: _,
            log: _,
            times: _,
            limit: _,
            unplugs: _,
            end: _,
        } = self;
    }
}

impl Plain {
    /// The most instruction times that a machine may be made for.
    pub const LIMIT: u64 = 1_000_000;

    /// A machine before its first time, with the words of the image, which rise by address. It makes room for the log and
    /// the devices' words of all `limit` times. After a want of memory no device holds anything else than before.
    pub fn new(
        alloc: Global,
        image: &[Placed],
        banks: Banks,
        start: Hop,
        unplugs: Vec<Unplug>,
        limit: u64,
        devices: &mut Vec<Box<dyn PortDevice>>,
    ) -> Result<Plain, NoMemory>
        requires limit { limit ≤ Self.LIMIT }
        requires rising { are_rising image.now ≡ true }
        requires there { AllThere banks image.now }
        requires distinct { AreDistinct (map device_of devices.old.items) }

        // It stands at the start of the opening that these arguments are, and the devices are fit for all times.
        ensures begins { IfOk result (λ plain. Begins
            (record { image = image.now; banks = banks; start = start; unplugs = unplugs.items; devices = map device_of devices.old.items })
            limit plain (map device_of devices.new.items)) }
        ensures fit { IfOk result (λ plain. AreFit device_of spare (times_left plain) devices.new.items) }
        ensures words { OnOk result (HoldWords (map device_of devices.new.items)) }

        // In every case.
        ensures devices { map device_of devices.new.items ≡ map device_of devices.old.items }
        ensures faults { map faults devices.new.items ≡ map faults devices.old.items }
    {
        let log = Vec::with_capacity(alloc, limit as usize)?;
        let words = Words::of_image(alloc, image)?;
        prepare_all(devices, limit)?;
        Ok(Plain {
            processor: Processor::started(banks, start, words),
            log,
            times: 0,
            limit,
            unplugs,
            end: None,
        })
    }

    /// Waits for one time of a hold.
    fn wait(&mut self)
        requires hold { 0 < self.old.hold }
        requires left { self.old.times < self.old.limit }
        ensures shows { (p : PlainState) → Shows self.old p
            → Shows self.new (waits (self.old.hold - 1) p) }
        ensures times { self.new.times ≡ self.old.times + 1 }
        ensures keeps { Keeps self.old self.new }
        ensures end { self.new.end ≡ self.old.end }
    {
        self.processor.wait();
        self.times += 1;
    }

    /// Makes an instruction, which takes this word.
    fn execute(&mut self, instr: Instr, m: Word)
        requires running { self.old.end ≡ None }
        requires small { instr.address < 512 }
        requires left { self.old.times < self.old.limit }
        ensures shows { (p : PlainState) → Shows self.old p → p.stop ≡ None
            → Shows self.new (makes instr p m) }
        ensures end { (p : PlainState) → p.stop ≡ None
            → self.new.end ≡ end_of self.old.times (makes instr p m).stop }
        ensures times { self.new.times ≡ self.old.times + 1 }
        ensures keeps { Keeps self.old self.new }
    {
        log_exchange(&mut self.log, instr, self.times, self.processor.a, m);
        if let Some(stop) = self.processor.execute(instr, m) {
            keep_stop(&mut self.end, self.times, stop);
        }
        self.times += 1;
    }

    /// Keeps the end that a failed device is. The state is that before the time.
    fn fail(&mut self, port: u8)
        requires { self.old.times < self.old.limit }
        ensures new { self.new
            ≡ record self.old { end = Some (Device (3 * self.old.times + 2) port) } }
    {
        self.end = Some(PlainEnd::Device {
            step: 3 * self.times + 2,
            port,
        });
    }

    /// Makes the next time of a machine that runs.
    #[inline(always)]
    fn advance(&mut self, devices: &mut Vec<Box<dyn PortDevice>>)
        requires running { self.old.end ≡ None }
        requires left { self.old.times < self.old.limit }
        requires fit { AreFit device_of spare (times_left self.old) devices.old.items }
        ensures stands { (o : Opening) (t : ℕ)
            → Stands o t self.old (map device_of devices.old.items)
            → Stands o (t + 1) self.new (map device_of devices.new.items) }
        ensures cause { PlainEndHasCause device_of faults (answer_of_end self.new.end) devices.old.items devices.new.items }
        ensures leaves { Leaves device_of spare 1 self.old self.new devices.old.items devices.new.items }
    {
        unplug_all(&self.unplugs, self.times, devices);
        if self.processor.hold > 0 {
            self.wait();
            return;
        }
        let instr = self.processor.fetched();
        let request = self.processor.request(instr);
        match answer(devices, self.times, request) {
            Ok(answer) => {
                let m = self.processor.taken(instr, answer);
                self.execute(instr, m)
            }
            Err(fault) => self.fail(fault.port),
        }
    }

    /// Makes one instruction time, or answers the end that has come.
    pub fn step(&mut self, devices: &mut Vec<Box<dyn PortDevice>>) -> PlainEnd
        requires left { self.old.times < self.old.limit }
        requires fit { AreFit device_of spare (times_left self.old) devices.old.items }

        // It goes on by one time of the plain run, for each opening for which it stood.
        ensures stands { (o : Opening) (t : ℕ)
            → Stands o t self.old (map device_of devices.old.items)
            → Stands o (t + 1) self.new (map device_of devices.new.items) }

        // It answers the end that it keeps. One that had come is kept, and nothing is changed; a failed device has failed in this
        // call, and no other that is left has; every other end comes only where no device that is left has failed.
        ensures answers { Answers device_of faults result self.old self.new devices.old.items devices.new.items }

        // What stays, and what the next call asks for.
        ensures leaves { Leaves device_of spare 1 self.old self.new devices.old.items devices.new.items }
    {
        self.run(1, devices)
    }

    /// Makes so many instruction times, or fewer where an end comes. It takes no memory.
    pub fn run(&mut self, times: u64, devices: &mut Vec<Box<dyn PortDevice>>) -> PlainEnd
        requires left { self.old.times + times ≤ self.old.limit }
        requires fit { AreFit device_of spare (times_left self.old) devices.old.items }

        // It goes on by so many times of the plain run, for each opening for which it stood.
        ensures stands { (o : Opening) (t : ℕ)
            → Stands o t self.old (map device_of devices.old.items)
            → Stands o (t + times) self.new (map device_of devices.new.items) }

        // It answers the end that it keeps. One that had come is kept, and nothing is changed; a failed device has failed in this
        // call, and no other that is left has; every other end comes only where no device that is left has failed.
        ensures answers { Answers device_of faults result self.old self.new devices.old.items devices.new.items }

        // What stays, and what the next call asks for.
        ensures leaves { Leaves device_of spare times self.old self.new devices.old.items devices.new.items }
    {
        if let Some(end) = self.end {
            return end;
        }
        for _made in 0..times {
            self.advance(devices);
            if let Some(end) = self.end {
                return end;
            }
        }
        PlainEnd::Done
    }

    /// The registers that a report shows, and the times made.
    pub fn visible(&self) -> Visible
        ensures { result ≡ visible_of self.now }
    {
        Visible {
            place: self.processor.place,
            a: self.processor.a,
            pq: self.processor.pq,
            saver: self.processor.saver,
            times: self.times,
        }
    }

    /// The word at an address whose bank is there.
    pub fn word(&self, at: Address) -> Word
        requires { is_there self.now.banks at ≡ true }
        ensures value { result ≡ slice_index self.now.words (number_of at) }
        ensures memory { (m : Memory) → IsMemory self.now.words m → result ≡ word_at m at }
    {
        self.processor.words.word(at)
    }

    /// Is 0 the word of each address of a sector, of the 128 in the order of addresses? False says nothing: it tells in which sectors
    /// nothing was loaded or stored.
    pub fn is_blank(&self, sector: usize) -> bool
        requires { sector < 128 }
        ensures { result ≡ true → (number : ℕ) → number < 32768 → number / 256 ≡ sector → slice_index self.now.words number ≡ 0 }
    {
        self.processor.words.is_blank(sector)
    }

    /// The port exchanges that were made, the oldest first.
    pub fn log(&self) -> &[Exchange]
        ensures log { result.now ≡ self.now.log }
        ensures few { length result.now ≤ Self.LIMIT }
    {
        &self.log
    }

    /// Which pairs of memory modules are simplex, as it was given.
    pub fn banks(&self) -> Banks
        ensures { result ≡ self.now.banks }
    {
        self.processor.banks
    }

    /// What the calls answer by the end that has come: it, or `Done` where none has.
    pub fn outcome(&self) -> PlainEnd
        ensures { result ≡ answer_of_end self.now.end }
    {
        match self.end {
            Some(end) => end,
            None => PlainEnd::Done,
        }
    }

    /// The end that has come; none where every call has answered `Done`.
    pub fn end(&self) -> Option<PlainEnd>
        ensures end { result ≡ self.now.end }
        ensures plain { IsPlainEnd (answer_of_end result) }
    {
        self.end
    }
}
