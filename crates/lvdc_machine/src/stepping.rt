//! One step of the voted machine.

ghost use Rattle.std.specs.Prelude.{◌≡◌, ℕ, ◌+◌, ◌-◌, ◌*◌, ◌/◌, ◌%◌, ◌≤◌, ◌<◌, ◌==◌, ◌≢◌, List, map, true, false, IsSome, OnOk, OnErr, IfOk, IfErr, IfSome, Option, Some, None};
ghost use Rattle.lvdc_map.specs.Banks.{is_there};
ghost use Rattle.lvdc_port.specs.Device as device;
ghost use Rattle.lvdc_port.specs.Devices.{HasSpare, AreDistinct};
ghost use Rattle.lvdc_port.specs.declared.requests.PortRequest.TheVariants as requests;
ghost use Rattle.lvdc_modules.specs.Wish.{wish, IsThereFor};
ghost use Rattle.lvdc_plain.specs.Lists.{Since, AreFit};
ghost use Rattle.lvdc_machine.specs.Calls.{LeavesAfterSteps};
ghost use Rattle.lvdc_fault.specs.Script.{two_wrong};
ghost use Rattle.lvdc_fault.specs.declared.verdict.Verdict.{Verdict};
ghost use Rattle.lvdc_fault.specs.declared.verdict.Verdict.TheVariants.{Admissible};
ghost use Rattle.lvdc_model.specs.Exchanges.{stop_of, latches, exchanges, reading, storing, port_reading, port_writing, port_word, wished};
ghost use Rattle.lvdc_model.specs.Runs.{own_verdict, own_memory, read_of_wish};
ghost use Rattle.lvdc_model.specs.Trial.{Trial, devices_left};
ghost use Rattle.lvdc_model.specs.Twins.{read_answer};
ghost use Rattle.lvdc_model.specs.Voted.{Voted};
ghost use Rattle.lvdc_model.specs.declared.outcome.Outcome.TheVariants.{Stopped, Inadmissible, Device};
ghost use Rattle.lvdc_machine.specs.declared.mode.Mode.TheVariants.{Guarded, Through};
ghost use Rattle.lvdc_machine.specs.Causes.{Fails, EndHasCause};
ghost use Rattle.lvdc_machine.specs.Room.{exchanges_to_come, MayExchange, MayRepair, IsDue};
ghost use Rattle.lvdc_snapshot.specs.Notes.{IsRepairOfStep};
ghost use Rattle.lvdc_machine.specs.Made.{of_port, without_a_word, read_made, exchange_made, made_next, told_by};
ghost use Rattle.lvdc_modules.specs.declared.wanted.Wanted.TheVariants.{PortWrite};
ghost use Rattle.lvdc_modules.specs.declared.wanted.Wanted.TheVariants as wishes;
ghost use Rattle.lvdc_machine.specs.Resumed.{state_from, StandsFrom};
ghost use Rattle.lvdc_machine.specs.Shows.{Shows, HasBegun};
ghost use Rattle.lvdc_machine.specs.Steps.{verdict_of, repair_noted, noting, NamesPort, MayMake, IsMade, IsFoundSound, IsRecovered};
ghost use Rattle.lvdc_machine.specs.View.{bus_of_votes, answer_of_end, outcome_of, end_seen};

use crate::answers::answer;
use crate::kept_end::KeptEnd;
use crate::made::Made;
use crate::notes::note;
use crate::{Machine, Mode, Order};
use lvdc_fault::{Verdict, none_wrong};
use lvdc_map::Address;
use lvdc_model::{Outcome, Repair};
use lvdc_modules::{Wanted, wish};
use lvdc_plain::{Exchange, Stop, unplug_all};
use lvdc_port::{PortDevice, PortRequest};
use lvdc_twin::ReadOut;
use lvdc_word::Word;

/// What an exchange brings: the words on the bus, and what is noted of it.
#[derive(Drop)]
struct Brought {
    memory: Word,
    port: Word,
    line: Option<Exchange>,
    repair: Option<Repair>,
}

/// Keeps the end that the voted STOP means, by its low two bits.
#[inline(always)]
fn keep_end(end: &mut Option<KeptEnd>, stop: Word, step: u64)
    ensures { end_seen end.new ≡ stop_of (stop % 4) step }
{
    match stop.value() % 4 {
        0 => clear(end),
        1 => keep_stop(end, step, Stop::Shift),
        _ => keep_stop(end, step, Stop::Exm),
    }
}

/// Keeps that no end has come. Mostly none is kept, and then nothing is written.
#[inline(always)]
fn clear(end: &mut Option<KeptEnd>)
    ensures { end_seen end.new ≡ None }
{
    if end.is_some() {
        *end = None;
    }
}

/// Keeps that the machine stopped in a step. A stop is rare, so that a step doesn't make room for one.
#[inline(never)]
fn keep_stop(end: &mut Option<KeptEnd>, step: u64, stop: Stop)
    ensures { end_seen end.new ≡ Some (Stopped step stop) }
{
    *end = Some(KeptEnd::Stopped { step, stop });
}

impl Brought {
    /// Where no word was read and nothing is noted.
    fn nothing() -> Brought
        ensures { result ≡ record { memory = 0; port = 0; line = None; repair = None } }
    {
        Brought {
            memory: Word::ZERO,
            port: Word::ZERO,
            line: None,
            repair: None,
        }
    }
}

/// The repair that a read notes.
fn repair_of(step: u64, at: Address, read: &ReadOut) -> Option<Repair>
    ensures { result ≡ repair_noted read.now.repaired step at read.now.switched }
{
    match read.repaired {
        None => None,
        Some(twin) => Some(Repair {
            step,
            at,
            twin,
            switched: read.switched,
        }),
    }
}

/// The address that is to be read.
fn read_of(wanted: &Wanted) -> Option<Address>
    ensures value { result ≡ read_of_wish wanted.now }
    ensures there { (banks : ℕ) → IsThereFor banks wanted.now → IfSome result (λ at. is_there banks at ≡ true) }
{
    match *wanted {
        Wanted::Fetch(at) | Wanted::Operand(at) => Some(at),
        _ => None,
    }
}

impl Machine {
    /// Takes away the devices whose time has come with this step.
    #[inline(always)]
    fn unplug_due(&self, devices: &mut Vec<Box<dyn PortDevice>>)
        requires { AreDistinct (map device_of devices.old.items) }
        ensures devices { map device_of devices.new.items ≡ devices_left self.now.unplugs self.now.steps (map device_of devices.old.items) }
        ensures distinct { AreDistinct (map device_of devices.new.items) }
        ensures spare { (n : ℕ) → HasSpare spare n devices.old.items → HasSpare spare n devices.new.items }
        ensures since { Since device_of faults devices.old.items devices.new.items }
    {
        if !self.unplugs.is_empty() {
            self.unplug_listed(devices);
        }
    }

    /// The same where devices are to be taken away at some time.
    #[inline(never)]
    fn unplug_listed(&self, devices: &mut Vec<Box<dyn PortDevice>>)
        requires { AreDistinct (map device_of devices.old.items) }
        ensures devices { map device_of devices.new.items ≡ devices_left self.now.unplugs self.now.steps (map device_of devices.old.items) }
        ensures distinct { AreDistinct (map device_of devices.new.items) }
        ensures spare { (n : ℕ) → HasSpare spare n devices.old.items → HasSpare spare n devices.new.items }
        ensures since { Since device_of faults devices.old.items devices.new.items }
    {
        if self.steps % 3 == 0 {
            unplug_all(&self.unplugs, self.steps / 3, devices);
        }
    }

    /// Damages cells, and puts in force what is stuck and dead in this step, and what acts on the copies. Where no event begins or has
    /// ended with it, there is nothing to do.
    #[inline(always)]
    fn begin(&mut self)
        ensures { HasBegun self.old self.new }
    {
        self.forces.go_to(&self.script, self.steps);
        self.on_memory.begin(self.steps, &mut self.memory);
    }

    /// The exchange that the votes wish for.
    #[inline(always)]
    pub(crate) fn wanted(&self) -> Wanted
        ensures value { result ≡ wish (bus_of_votes self.now.copies) self.now.banks }
        ensures there { IsThereFor self.now.banks result }
        ensures due { IsDue self.now.pace self.now.steps result }
    {
        wish(self.logic.bus(), self.banks)
    }

    /// The word of the address that is to be read, where nothing is wrong with it: one look at the cells for the verdict and the read.
    #[inline(always)]
    fn sound_word(&self, at: Option<Address>) -> Option<Word>
        requires begun { self.now.on_memory.last ≡ Some self.now.steps }
        requires there { IfSome at (λ spot. is_there self.now.banks spot ≡ true) }
        ensures sound { IsFoundSound self.now at result }
        ensures read { IsSome result → IsSome at }
    {
        self.memory.sound_word(at?)
    }

    /// What is said of the address that is to be read, whether a sound word was found there or not.
    #[inline(always)]
    fn found_memory(&self, at: Option<Address>, is_sound: bool) -> Verdict
        requires begun { self.now.on_memory.last ≡ Some self.now.steps }
        requires there { IfSome at (λ spot. is_there self.now.banks spot ≡ true) }
        requires sound { is_sound ≡ true → IsRecovered self.now at }
        ensures { (o : Trial) (v : Voted) (ds : List device.Device) → Shows o self.now ds v → result ≡ own_memory o v at }
    {
        if is_sound {
            return Verdict::Admissible;
        }
        match at {
            None => Verdict::Admissible,
            Some(address) => {
                if self.memory.recoverable(address) {
                    Verdict::Admissible
                } else {
                    Verdict::Memory {
                        step: self.steps,
                        address,
                    }
                }
            }
        }
    }

    /// What is said of the step that was begun: a module with two wrong copies comes first.
    #[inline(always)]
    fn found(&self, wanted: &Wanted, is_sound: bool) -> Verdict
        requires begun { self.now.on_memory.last ≡ Some self.now.steps }
        requires there { IsThereFor self.now.banks wanted.now }
        requires sound { is_sound ≡ true → IsRecovered self.now (read_of_wish wanted.now) }
        ensures verdict { (o : Trial) (v : Voted) (ds : List device.Device) → Shows o self.now ds v → wanted.now ≡ wished o v
            → result ≡ own_verdict o v }
        ensures right { result ≡ Admissible → two_wrong self.now.script self.now.steps 1 ≡ false }
    {
        none_wrong();
        match self.forces.wrong_module() {
            Some(number) => Verdict::Logic {
                step: self.steps,
                module: number,
            },
            None => self.found_memory(read_of(wanted), is_sound),
        }
    }

    /// What the mode says of the step that was begun.
    #[inline(always)]
    fn verdict(&self, wanted: &Wanted, is_sound: bool) -> Verdict
        requires begun { self.now.on_memory.last ≡ Some self.now.steps }
        requires there { IsThereFor self.now.banks wanted.now }
        requires sound { is_sound ≡ true → IsRecovered self.now (read_of_wish wanted.now) }
        ensures verdict { (o : Trial) (v : Voted) (ds : List device.Device) → Shows o self.now ds v → wanted.now ≡ wished o v
            → result ≡ verdict_of self.now.mode o v }
        ensures right { result ≡ Admissible → self.now.mode ≡ Guarded → two_wrong self.now.script self.now.steps 1 ≡ false }
        ensures through { self.now.mode ≡ Through → result ≡ Admissible }
    {
        match self.mode {
            Mode::Guarded => self.found(wanted, is_sound),
            Mode::Through => Verdict::Admissible,
        }
    }

    /// Notes what an exchange brought, and lets all copies latch.
    #[inline(always)]
    fn make(&mut self, order: &Order, brought: Brought)
        requires may { MayMake self.old }
        requires line { IsSome brought.line → MayExchange self.old.pace self.old.steps }
        requires repair { IsSome brought.repair → MayRepair self.old.pace self.old.steps }
        requires dated { IfSome brought.line (λ line. line.time ≡ self.old.steps / 3) }
        requires noted { IfSome brought.repair (IsRepairOfStep self.old.banks self.old.steps) }
        ensures shows { (o : Trial) (v : Voted) (ds : List device.Device) → Shows o self.old ds v
            → Shows o self.new ds (latches o (noting v brought) brought.memory brought.port) }
        ensures made { IsMade self.old self.new }
        ensures steps { self.new.steps ≡ self.old.steps + 1 }
    {
        note(&mut self.log, brought.line);
        note(&mut self.repairs, brought.repair);
        self.logic.step_under(order, self.forces.in_force(), brought.memory, brought.port);
        keep_end(&mut self.end, self.logic.bus().exchange.stop, self.steps);
        self.steps += 1;
    }

    /// Reads an address for this exchange, where something may be wrong with it. Where no twin shows a good cell there the machine stops,
    /// and the step isn't made.
    #[inline(always)]
    fn read_any(&mut self, order: &Order, wanted: Wanted, at: Address) -> Option<Made>
        requires may { MayMake self.old }
        requires there { is_there self.old.banks at ≡ true }
        requires due { MayRepair self.old.pace self.old.steps }
        ensures shows { (o : Trial) (v : Voted) (ds : List device.Device) → Shows o self.old ds v
            → Shows o self.new ds (reading (read_answer o v.steps v.twins at) o v at) }
        ensures told { (o : Trial) (v : Voted) (ds : List device.Device) → Shows o self.old ds v
            → result ≡ read_made (read_answer o v.steps v.twins at) v.steps at wanted }
        ensures made { IsMade self.old self.new }
    {
        match self.memory.read(at) {
            Ok(read) => {
                let repair = repair_of(self.steps, at, &read);
                let made = Made {
                    wanted,
                    word: read.word,
                    repair,
                };
                self.make(
                    order,
                    Brought {
                        memory: made.word,
                        port: Word::ZERO,
                        line: None,
                        repair: made.repair,
                    },
                );
                Some(made)
            }
            Err(_) => {
                self.end = Some(KeptEnd::Stopped {
                    step: self.steps,
                    stop: Stop::Memory(at),
                });
                None
            }
        }
    }

    /// Takes the sound word that was found at the address that is to be read, and answers what was made.
    #[inline(always)]
    fn take(&mut self, order: &Order, wanted: Wanted, word: Word) -> Made
        requires may { MayMake self.old }
        requires sound { IsFoundSound self.old (read_of_wish wanted) (Some word) }
        requires read { IsSome (read_of_wish wanted) }
        ensures shows { (o : Trial) (v : Voted) (ds : List device.Device) → Shows o self.old ds v → Shows o self.new ds (exchanges o v wanted) }
        ensures told { (o : Trial) (v : Voted) (ds : List device.Device) → Shows o self.old ds v → Some result ≡ exchange_made o v wanted }
        ensures made { IsMade self.old self.new }
    {
        self.make(
            order,
            Brought {
                memory: word,
                ..Brought::nothing()
            },
        );
        Made {
            wanted,
            word,
            repair: None,
        }
    }

    /// Stores a word.
    #[inline(always)]
    fn store(&mut self, order: &Order, at: Address, word: Word)
        requires may { MayMake self.old }
        requires there { is_there self.old.banks at ≡ true }
        ensures shows { (o : Trial) (v : Voted) (ds : List device.Device) → Shows o self.old ds v
            → Shows o self.new ds (storing o v at word) }
        ensures made { IsMade self.old self.new }
    {
        self.memory.store(at, word);
        self.make(order, Brought::nothing());
    }

    /// Reads a port. An error is the port of the device that failed; then nothing has changed.
    #[inline(always)]
    fn read_port(
        &mut self,
        order: &Order,
        port: u8,
        devices: &mut Vec<Box<dyn PortDevice>>,
    ) -> Result<Option<Made>, u8>
        requires may { MayMake self.old }
        requires due { MayExchange self.old.pace self.old.steps }
        requires fit { AreFit device_of spare (exchanges_to_come self.old) devices.old.items }
        ensures shows { OnOk result ((o : Trial) (v : Voted) → Shows o self.old (map device_of devices.old.items) v
            → Shows o self.new (map device_of devices.new.items) (port_reading o v port)) }
        ensures told { IfOk result (λ made. (o : Trial) (v : Voted) → Shows o self.old (map device_of devices.old.items) v
            → made ≡ Some (of_port port (port_word v (requests.Read port)))) }
        ensures made { OnOk result (IsMade self.old self.new) }
        ensures since { OnOk result (Since device_of faults devices.old.items devices.new.items) }
        ensures named { IfErr result (λ failed. port ≡ failed) }
        ensures fails { IfErr result (λ failed. Fails device_of faults failed devices.old.items devices.new.items) }
        ensures unchanged { OnErr result (self.new ≡ self.old) }
        ensures fit { AreFit device_of spare (exchanges_to_come self.new) devices.new.items }
    {
        let time = self.steps / 3;
        match answer(devices, time, PortRequest::Read { port }) {
            Ok(word) => {
                let line = Exchange {
                    time,
                    port,
                    reading: true,
                    word,
                };
                self.make(
                    order,
                    Brought {
                        memory: Word::ZERO,
                        port: line.word,
                        line: Some(line),
                        repair: None,
                    },
                );
                Ok(Some(Made::of_port(port, word)))
            }
            Err(failed) => Err(failed),
        }
    }

    /// Writes the word to a port. An error is the port of the device that failed; then nothing has changed.
    #[inline(always)]
    fn write_port(
        &mut self,
        order: &Order,
        port: u8,
        word: Word,
        devices: &mut Vec<Box<dyn PortDevice>>,
    ) -> Result<Option<Made>, u8>
        requires may { MayMake self.old }
        requires due { MayExchange self.old.pace self.old.steps }
        requires fit { AreFit device_of spare (exchanges_to_come self.old) devices.old.items }
        ensures shows { OnOk result ((o : Trial) (v : Voted) → Shows o self.old (map device_of devices.old.items) v
            → Shows o self.new (map device_of devices.new.items) (port_writing o v port word)) }
        ensures told { IfOk result (λ made. made ≡ Some (without_a_word (PortWrite port word))) }
        ensures made { OnOk result (IsMade self.old self.new) }
        ensures since { OnOk result (Since device_of faults devices.old.items devices.new.items) }
        ensures named { IfErr result (λ failed. port ≡ failed) }
        ensures fails { IfErr result (λ failed. Fails device_of faults failed devices.old.items devices.new.items) }
        ensures unchanged { OnErr result (self.new ≡ self.old) }
        ensures fit { AreFit device_of spare (exchanges_to_come self.new) devices.new.items }
    {
        let time = self.steps / 3;
        match answer(devices, time, PortRequest::Write { port, word }) {
            Ok(_) => {
                self.make(
                    order,
                    Brought {
                        memory: Word::ZERO,
                        port: Word::ZERO,
                        line: Some(Exchange {
                            time,
                            port,
                            reading: false,
                            word,
                        }),
                        repair: None,
                    },
                );
                Ok(Some(Made::without_a_word(Wanted::PortWrite { port, word })))
            }
            Err(failed) => Err(failed),
        }
    }

    /// Makes the exchange that is wanted where there is one, and no sound word was found for it. It answers as `exchange` does.
    #[inline(always)]
    fn exchange_any(
        &mut self,
        order: &Order,
        wanted: &Wanted,
        devices: &mut Vec<Box<dyn PortDevice>>,
    ) -> Result<Option<Made>, u8>
        requires may { MayMake self.old }
        requires there { IsThereFor self.old.banks wanted.now }
        requires some { wanted.now ≢ wishes.Nothing }
        requires due { IsDue self.old.pace self.old.steps wanted.now }
        requires fit { AreFit device_of spare (exchanges_to_come self.old) devices.old.items }
        ensures shows { OnOk result ((o : Trial) (v : Voted) → Shows o self.old (map device_of devices.old.items) v
            → Shows o self.new (map device_of devices.new.items) (exchanges o v wanted.now)) }
        ensures told { IfOk result (λ made. (o : Trial) (v : Voted) → Shows o self.old (map device_of devices.old.items) v
            → made ≡ exchange_made o v wanted.now) }
        ensures made { OnOk result (IsMade self.old self.new) }
        ensures since { OnOk result (Since device_of faults devices.old.items devices.new.items) }
        ensures named { IfErr result (λ failed. NamesPort wanted.now failed) }
        ensures fails { IfErr result (λ failed. Fails device_of faults failed devices.old.items devices.new.items) }
        ensures unchanged { OnErr result (self.new ≡ self.old) }
        ensures fit { AreFit device_of spare (exchanges_to_come self.new) devices.new.items }
    {
        match *wanted {
            Wanted::Nothing => unreachable!(),
            Wanted::Fetch(at) => Ok(self.read_any(order, Wanted::Fetch(at), at)),
            Wanted::Operand(at) => Ok(self.read_any(order, Wanted::Operand(at), at)),
            Wanted::Store { at, word } => {
                self.store(order, at, word);
                Ok(Some(Made::without_a_word(Wanted::Store { at, word })))
            }
            Wanted::PortRead(port) => self.read_port(order, port, devices),
            Wanted::PortWrite { port, word } => self.write_port(order, port, word, devices),
        }
    }

    /// Makes the exchange that is wanted, for which a sound word was found or not, lets all copies latch, and answers what was made. An error is the port of the device that
    /// failed; then nothing has changed.
    #[inline(always)]
    pub(crate) fn exchange(
        &mut self,
        order: &Order,
        wanted: &Wanted,
        sound: Option<Word>,
        devices: &mut Vec<Box<dyn PortDevice>>,
    ) -> Result<Option<Made>, u8>
        requires may { MayMake self.old }
        requires there { IsThereFor self.old.banks wanted.now }
        requires sound { IsFoundSound self.old (read_of_wish wanted.now) sound }
        requires read { IsSome sound → IsSome (read_of_wish wanted.now) }
        requires due { IsDue self.old.pace self.old.steps wanted.now }
        requires fit { AreFit device_of spare (exchanges_to_come self.old) devices.old.items }
        ensures shows { OnOk result ((o : Trial) (v : Voted) → Shows o self.old (map device_of devices.old.items) v
            → Shows o self.new (map device_of devices.new.items) (exchanges o v wanted.now)) }
        ensures told { IfOk result (λ made. (o : Trial) (v : Voted) → Shows o self.old (map device_of devices.old.items) v
            → made ≡ exchange_made o v wanted.now) }
        ensures made { OnOk result (IsMade self.old self.new) }
        ensures since { OnOk result (Since device_of faults devices.old.items devices.new.items) }
        ensures named { IfErr result (λ failed. NamesPort wanted.now failed) }
        ensures fails { IfErr result (λ failed. Fails device_of faults failed devices.old.items devices.new.items) }
        ensures unchanged { OnErr result (self.new ≡ self.old) }
        ensures fit { AreFit device_of spare (exchanges_to_come self.new) devices.new.items }
    {
        if let Some(word) = sound {
            return Ok(Some(self.take(order, *wanted, word)));
        }
        match wanted {
            Wanted::Nothing => {
                self.make(order, Brought::nothing());
                Ok(Some(Made::without_a_word(Wanted::Nothing)))
            }
            _ => self.exchange_any(order, wanted, devices),
        }
    }

    /// Keeps an end of a step that was begun and isn't made.
    fn stop(&mut self, end: KeptEnd)
        ensures { self.new ≡ record self.old { end = Some (outcome_of end) } }
    {
        self.end = Some(end);
    }

    /// Keeps the end that a failed device is. The step isn't made.
    pub(crate) fn fail(&mut self, port: u8)
        ensures { self.new ≡ record self.old { end = Some (Device self.old.steps port) } }
    {
        self.stop(KeptEnd::Device {
            step: self.steps,
            port,
        });
    }

    /// Makes the next step of a machine that runs, and answers what was made, if the step was. It is compiled into its callers, and so
    /// are the parts of it that each step takes: whoever drops the answer has none made.
    #[inline(always)]
    pub(crate) fn advance(
        &mut self,
        order: &Order,
        devices: &mut Vec<Box<dyn PortDevice>>,
    ) -> Option<Made>
        requires running { self.old.end ≡ None }
        requires left { self.old.steps < 3 * self.old.limit }
        requires fit { AreFit device_of spare (exchanges_to_come self.old) devices.old.items }
        ensures stands { (o : Trial) (first : Voted) (n : ℕ) → StandsFrom o first n self.old (map device_of devices.old.items)
            → StandsFrom o first (n + 1) self.new (map device_of devices.new.items) }
        ensures told { (o : Trial) (first : Voted) (n : ℕ) → StandsFrom o first n self.old (map device_of devices.old.items)
            → result ≡ told_by self.new.end (made_next self.old.mode o (state_from self.old.end self.old.mode o first n)) }
        ensures through { self.old.mode ≡ Through → (verdict : Verdict) → self.new.end ≢ Some (Inadmissible verdict) }
        ensures cause { EndHasCause device_of faults (answer_of_end self.new.end) devices.old.items devices.new.items }
        ensures leaves { LeavesAfterSteps device_of spare 1 self.old self.new devices.old.items devices.new.items }
    {
        self.unplug_due(devices);
        self.begin();
        let wanted = self.wanted();
        let sound = self.sound_word(read_of(&wanted));
        match self.verdict(&wanted, sound.is_some()) {
            Verdict::Admissible => match self.exchange(order, &wanted, sound, devices) {
                Ok(made) => made,
                Err(port) => {
                    self.fail(port);
                    None
                }
            },
            verdict => {
                self.stop(KeptEnd::Inadmissible(verdict));
                None
            }
        }
    }
}
