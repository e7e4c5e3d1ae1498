ghost use Rattle.std.specs.Prelude.{◌≡◌, ◌+◌, ◌-◌, ◌^◌, ◌*◌, ◌++◌, ◌∷◌, [], ◌≤◌, ◌<◌, ◌==◌, ◌%◌, length, map, true, if◌then◌else◌, OnOk, IfOk, All};
ghost use Rattle.lvdc_twin.specs.Store.{slot_of};
ghost use Rattle.lvdc_port.specs.Supplies.{kind_at};
ghost use Rattle.std.specs.List.{list_any};
ghost use Rattle.lvdc_vote.specs.Bits.{majority};
ghost use Rattle.lvdc_fault.specs.Events.{TIMES, EVENTS, IsEvent};
ghost use Rattle.lvdc_snapshot.specs.Snapshot.{IsWhole};
ghost use Rattle.lvdc_orders.specs.Orders.{ORDERS};
ghost use Rattle.lvdc_save_read.specs.Sound.{IsSoundProgress};
ghost use Rattle.lvdc_save.specs.declared.entry.Entry.TheVariants as says;
ghost use Rattle.lvdc_save.specs.Entries.{entry_of};
ghost use Rattle.lvdc_save.specs.Reading.{nothing_said, section_of, place_of, holds_one, HasNext, least_after, least_in, is_at_rest, is_next_copy, agrees, fits, is_unplugged, line_in, without_words, without_device, lacking, latch_at, adds, after_entry, by_entry, saved_in, whole_of, Makes};

use crate::entries::entry_of;
use lvdc_fault::{MOST_EVENTS, Script};
use lvdc_map::{Banks, Placed};
use lvdc_model::Repair;
use lvdc_modules::latches;
use lvdc_orders::{COPIES, MOST_ORDERS, Order, Orders};
use lvdc_plain::{Exchange, Unplug};
use lvdc_port::{Kind, PortDevice, Supply, kind_at};
use lvdc_save::{CopyState, Entry, Mark, SaveFault, Saved, Section};
use lvdc_snapshot::Snapshot;
use lvdc_twin::Held;
use lvdc_vote::majority;
use lvdc_word::{Cell, NoMemory, Seq, Word};
use std::alloc::Global;
use std::marker::Model;

/// What the lines so far have said.
pub(crate) struct Reading {
    section: Section,
    least: u64,
    steps: u64,
    count: u64,
    banks: Banks,
    latches: Vec<Word>,
    differed: Vec<u64>,
    selected: Vec<u8>,
    cells: Vec<Held>,
    words: Vec<Placed>,
    log: Vec<Exchange>,
    repairs: Vec<Repair>,
    states: Vec<Supply>,
    marks: Vec<Mark>,
    unplugs: Vec<Unplug>,
    script: Script,
    orders: Orders,
}

/// Its parts go in one call, which whoever lets it go doesn't look into.
impl Drop for Reading {
    fn drop(self) {
        let Reading {
            section: _,
            least: _,
            steps: _,
            count: _,
            banks: _,
            latches: _,
            differed: _,
            selected: _,
            cells: _,
            words: _,
            log: _,
            repairs: _,
            states: _,
            marks: _,
            unplugs: _,
            script: _,
            orders: _,
        } = self;
    }
}

impl Model for Reading {
    ghost use Rattle.lvdc_save.specs.Reading.{Progress};

    ghost Value = { Progress };

    ghost view = { λ r. record {
      section = r.section;
      least = r.least;
      steps = r.steps;
      count = r.count;
      banks = r.banks;
      latches = r.latches.items;
      differed = r.differed.items;
      selected = r.selected.items;
      cells = r.cells.items;
      words = r.words.items;
      log = r.log.items;
      repairs = r.repairs.items;
      states = r.states.items;
      marks = r.marks.items;
      unplugs = r.unplugs.items;
      script = r.script;
      orders = r.orders;
    } };
}

/// The section of an entry.
fn section_of(entry: &Entry) -> Section
    ensures { result ≡ section_of entry.now }
{
    match entry {
        Entry::Title => Section::Title,
        Entry::Steps(_) => Section::Steps,
        Entry::Count(_) => Section::Count,
        Entry::Simplex(_) => Section::Simplex,
        Entry::Copy(_) => Section::Copies,
        Entry::Select(_) => Section::Select,
        Entry::Cell(_) => Section::Cells,
        Entry::Word(_) => Section::Words,
        Entry::Exchange(_) => Section::Log,
        Entry::Repair(_) => Section::Repairs,
        Entry::State(_) => Section::States,
        Entry::Unplug(_) => Section::Unplugs,
        Entry::Fault(_) => Section::Faults,
        Entry::Order(_) => Section::Orders,
        Entry::End => Section::End,
    }
}

/// The number of a twin's place in the order of all cells.
fn slot_of(held: &Held) -> u64
    ensures value { result ≡ slot_of held.now.twin held.now.at }
    ensures small { result < 2 ^ 23 }
{
    u64::from(held.twin) * 16_384 + held.at.number() as u64
}

/// The place of an entry among those of its section.
fn place_of(entry: &Entry) -> u64
    ensures { result ≡ place_of entry.now }
{
    match entry {
        Entry::Cell(held) => slot_of(held),
        Entry::Word(placed) => placed.at.number() as u64,
        Entry::Exchange(exchange) => exchange.time,
        Entry::Repair(repair) => repair.step,
        Entry::State(state) => u64::from(state.port),
        _ => 0,
    }
}

/// The kind of the device at this port. It stands for its clause alone, which proofs cite.
fn kind_in(devices: &Vec<Box<dyn PortDevice>>, port: u8) -> Option<Kind>
    requires { port < 2 ^ 8 }
    ensures { result ≡ kind_at (λ device. device) port (map device_of devices.now.items) }
{
    kind_at(devices, port)
}

/// Does a device of this kind hold one word alone?
fn holds_one(kind: Option<Kind>) -> bool
    ensures { result ≡ holds_one kind }
{
    kind == Some(Kind::Latch)
}

/// The least place that another STATE line may have after one of this port.
fn least_after_state(devices: &Vec<Box<dyn PortDevice>>, port: u8) -> u64
    requires { port < 2 ^ 8 }
    ensures { result ≡ (if holds_one (kind_at (λ device. device) port (map device_of devices.now.items)) then port + 1 else port) }
{
    if holds_one(kind_in(devices, port)) {
        u64::from(port) + 1
    } else {
        u64::from(port)
    }
}

/// The least place that may follow an entry in its section.
fn least_after(devices: &Vec<Box<dyn PortDevice>>, entry: &Entry) -> u64
    requires { HasNext entry.now }
    ensures { result ≡ least_after (map device_of devices.now.items) entry.now }
{
    match entry {
        Entry::Cell(held) => slot_of(held) + 1,
        Entry::Word(placed) => placed.at.number() as u64 + 1,
        Entry::Exchange(exchange) => exchange.time,
        Entry::Repair(repair) => repair.step + 1,
        Entry::State(state) => least_after_state(devices, state.port),
        _ => 0,
    }
}

/// Is the vote over these three latches 0 modulo 4?
fn votes_nothing(one: Word, two: Word, three: Word) -> bool
    ensures { result ≡ (majority one two three % 4 == 0) }
{
    majority(one, two, three).value() % 4 == 0
}

/// Adds an item to a list.
fn push<T: Copy>(list: &mut Vec<T>, item: T) -> Result<(), NoMemory>
    ensures { OnOk result (list.new.items ≡ list.old.items ++ item ∷ []) }
{
    list.push(item)?;
    Ok(())
}

/// The line that lacks a device with words, by the kind of the device there.
fn without_words(number: u32, kind: Option<Kind>) -> Option<u32>
    ensures { result ≡ without_words number kind }
{
    match kind {
        None | Some(Kind::Ticker) => Some(number),
        Some(Kind::Tape | Kind::Latch | Kind::Recorder) => None,
    }
}

impl Reading {
    /// Before the first line.
    pub(crate) fn new(alloc: Global) -> Reading
        ensures { result ≡ nothing_said }
    {
        Reading {
            section: Section::Nothing,
            least: 0,
            steps: 0,
            count: 0,
            banks: Banks::DUPLEX,
            latches: Vec::new(alloc),
            differed: Vec::new(alloc),
            selected: Vec::new(alloc),
            cells: Vec::new(alloc),
            words: Vec::new(alloc),
            log: Vec::new(alloc),
            repairs: Vec::new(alloc),
            states: Vec::new(alloc),
            marks: Vec::new(alloc),
            unplugs: Vec::new(alloc),
            script: Script::new(alloc),
            orders: Orders::plain(),
        }
    }

    /// The least place that an entry of this section may have.
    fn least_in(&self, next: Section) -> u64
        ensures { result ≡ least_in next self.now }
    {
        if next.rank() == self.section.rank() {
            self.least
        } else {
            0
        }
    }

    /// The latch at this index, with those of one more copy; 0 where its line is still to come.
    fn latch_with(&self, latches: &[Word], index: usize) -> Word
        ensures { result ≡ latch_at (self.now.latches ++ latches.now) index }
    {
        let had = self.latches.len();
        let found = if index < had {
            self.latches.get(index)
        } else {
            latches.get(index - had)
        };
        match found {
            Some(latch) => *latch,
            None => Word::ZERO,
        }
    }

    /// Do the votes say that a time begins and that nothing has stopped, as far as the latches have come with this copy?
    fn rests_with(&self, latches: &[Word]) -> bool
        ensures { result ≡ is_at_rest (self.now.latches ++ latches.now) }
    {
        votes_nothing(
            self.latch_with(latches, 0),
            self.latch_with(latches, 2),
            self.latch_with(latches, 4),
        ) && votes_nothing(
            self.latch_with(latches, 39),
            self.latch_with(latches, 41),
            self.latch_with(latches, 43),
        )
    }

    /// Is it the copy whose turn it is, whole and at rest?
    fn is_next_copy(&self, copy: &CopyState) -> bool
        ensures { result ≡ is_next_copy self.now copy.now }
    {
        let index = self.differed.len();
        index < COPIES
            && usize::from(copy.number) == index / 3 + 1
            && usize::from(copy.copy) == index % 3 + 1
            && copy.latches.items().len() == usize::from(latches(copy.number))
            && copy.count <= self.steps
            && self.rests_with(copy.latches.items())
    }

    /// Do the numbers of an entry go with those before it?
    fn agrees(&self, entry: &Entry) -> bool
        ensures value { result ≡ agrees self.now entry.now }
        ensures next { result ≡ true → HasNext entry.now }
    {
        match entry {
            Entry::Steps(steps) => steps % 3 == 0,
            Entry::Count(count) => self.steps <= count.saturating_mul(3),
            Entry::Copy(copy) => self.is_next_copy(copy),
            Entry::Select(_) => self.differed.len() == COPIES,
            Entry::Cell(held) => held.cell != Cell::encode(Word::ZERO),
            Entry::Word(placed) => placed.word != Word::ZERO && self.banks.has(placed.at),
            Entry::Exchange(exchange) => exchange.time < self.steps / 3,
            Entry::Repair(repair) => repair.step < self.steps && self.banks.has(repair.at),
            Entry::Fault(_) => self.script.len() < MOST_EVENTS,
            Entry::Order(_) => self.orders.count() < MOST_ORDERS,
            _ => true,
        }
    }

    /// May the entry stand here?
    fn fits(&self, entry: &Entry) -> bool
        ensures value { result ≡ fits self.now entry.now }
        ensures next { result ≡ true → HasNext entry.now }
    {
        let section = section_of(entry);
        section.follows(self.section)
            && self.least_in(section) <= place_of(entry)
            && self.agrees(entry)
    }

    /// Has an earlier line unplugged this port?
    fn is_unplugged(&self, port: u8) -> bool
        ensures { result ≡ is_unplugged self.now port }
    {
        self.unplugs.iter().any(|line| line.port == port)
    }

    /// The line of the first STATE line of this port.
    fn line_of(&self, port: u8) -> Option<u32>
        ensures { result ≡ line_in self.now.marks port }
    {
        for mark in self.marks.iter() {
            if mark.port == port {
                return Some(mark.line);
            }
        }
        None
    }

    /// The line that lacks a device for this UNPLUG line.
    fn lacks_device(
        &self,
        devices: &Vec<Box<dyn PortDevice>>,
        number: u32,
        unplug: &Unplug,
    ) -> Option<u32>
        requires { number < 2 ^ 32 }
        ensures { result ≡ without_device number self.now unplug.now (kind_at (λ device. device) unplug.now.port (map device_of devices.now.items)) }
    {
        if kind_in(devices, unplug.port).is_none() || self.is_unplugged(unplug.port) {
            return Some(number);
        }
        if unplug.time < self.steps / 3 {
            self.line_of(unplug.port)
        } else {
            None
        }
    }

    /// The line that names a device which isn't there for this entry.
    fn lacking(&self, devices: &Vec<Box<dyn PortDevice>>, number: u32, entry: &Entry) -> Option<u32>
        requires { number < 2 ^ 32 }
        ensures { result ≡ lacking (map device_of devices.now.items) number self.now entry.now }
    {
        match entry {
            Entry::State(state) => without_words(number, kind_in(devices, state.port)),
            Entry::Unplug(unplug) => self.lacks_device(devices, number, unplug),
            _ => None,
        }
    }

    /// Has the port a STATE line?
    fn has_mark(&self, port: u8) -> bool
        ensures { result ≡ list_any (λ mark. mark.port == port) self.now.marks }
    {
        self.marks.iter().any(|mark| mark.port == port)
    }

    /// Adds a STATE line, and its mark where it is the first of its port.
    fn add_state(&mut self, number: u32, state: Supply) -> Result<(), NoMemory>
        ensures { OnOk result (self.new ≡ adds number self.old (says.State state)) }
    {
        if !self.has_mark(state.port) {
            let mark = Mark {
                port: state.port,
                line: number,
            };
            push(&mut self.marks, mark)?;
        }
        push(&mut self.states, state)
    }

    /// Adds a copy.
    fn add_copy(&mut self, copy: CopyState) -> Result<(), NoMemory>
        ensures { OnOk result (self.new ≡ adds 0 self.old (says.Copy copy)) }
    {
        self.latches.extend_from_slice(copy.latches.items())?;
        push(&mut self.differed, copy.count)
    }

    /// Adds the twins that are selected.
    fn add_selected(&mut self, twins: [u8; 4]) -> Result<(), NoMemory>
        ensures { OnOk result (self.new ≡ adds 0 self.old (says.Select twins)) }
    {
        self.selected.clear();
        self.selected.extend_from_slice(&twins)?;
        Ok(())
    }

    /// Adds an order.
    fn add_order(&mut self, order: Order) -> Result<(), NoMemory>
        requires { length self.old.orders < ORDERS }
        ensures { OnOk result (self.new ≡ adds 0 self.old (says.Order order)) }
    {
        match self.orders.add(order) {
            Ok(()) => Ok(()),
            Err(_) => unreachable!(),
        }
    }

    /// Adds what an entry says.
    fn add(&mut self, number: u32, entry: Entry) -> Result<(), NoMemory>
        requires { agrees self.old entry ≡ true }
        ensures { OnOk result (self.new ≡ adds number self.old entry) }
    {
        match entry {
            Entry::Copy(copy) => self.add_copy(copy),
            Entry::Select(twins) => self.add_selected(twins),
            Entry::Cell(held) => push(&mut self.cells, held),
            Entry::Word(placed) => push(&mut self.words, placed),
            Entry::Exchange(exchange) => push(&mut self.log, exchange),
            Entry::Repair(repair) => push(&mut self.repairs, repair),
            Entry::State(state) => self.add_state(number, state),
            Entry::Unplug(unplug) => push(&mut self.unplugs, unplug),
            Entry::Fault(event) => self.script.push(event),
            Entry::Order(order) => self.add_order(order),
            Entry::Title | Entry::End => Ok(()),
            Entry::Steps(steps) => {
                self.steps = steps;
                Ok(())
            }
            Entry::Count(count) => {
                self.count = count;
                Ok(())
            }
            Entry::Simplex(banks) => {
                self.banks = banks;
                Ok(())
            }
        }
    }

    /// Takes what a line says.
    fn take_entry(
        &mut self,
        devices: &Vec<Box<dyn PortDevice>>,
        number: u32,
        entry: Entry,
    ) -> Result<(), SaveFault>
        requires { number < 2 ^ 32 }
        ensures { Makes result self.new (after_entry (map device_of devices.now.items) number self.old entry) }
    {
        if !self.fits(&entry) {
            return Err(SaveFault::BadSave(number));
        }
        if let Some(line) = self.lacking(devices, number, &entry) {
            return Err(SaveFault::NoDevice(line));
        }
        let section = section_of(&entry);
        let least = least_after(devices, &entry);
        self.add(number, entry)?;
        self.section = section;
        self.least = least;
        Ok(())
    }

    /// Takes one line.
    pub(crate) fn take_line(
        &mut self,
        alloc: Global,
        devices: &Vec<Box<dyn PortDevice>>,
        number: u32,
        text: &[u8],
    ) -> Result<(), SaveFault>
        requires { length text.now < 2 ^ 32 - 1 }
        ensures made { Makes result self.new (by_entry (map device_of devices.now.items) number self.old (entry_of text.now)) }
        ensures sound { IsSoundProgress self.old → OnOk result (IsSoundProgress self.new) }
    {
        match entry_of(alloc, text)? {
            Some(entry) => self.take_entry(devices, number, entry),
            None => Err(SaveFault::BadSave(number)),
        }
    }

    /// What all lines have said.
    fn into_whole(self) -> Saved
        ensures { result ≡ saved_in self }
    {
        let Reading {
            section: _,
            least: _,
            steps,
            count,
            banks,
            latches,
            differed,
            selected,
            cells,
            words,
            log,
            repairs,
            states,
            marks: _,
            unplugs,
            script,
            orders,
        } = self;
        Saved {
            snapshot: Snapshot {
                steps,
                latches: Seq::from_vec(latches),
                differed: Seq::from_vec(differed),
                selected: Seq::from_vec(selected),
                cells: Seq::from_vec(cells),
                words: Seq::from_vec(words),
                log: Seq::from_vec(log),
                repairs: Seq::from_vec(repairs),
                banks,
            },
            count,
            states: Seq::from_vec(states),
            unplugs: Seq::from_vec(unplugs),
            script,
            orders,
        }
    }

    /// What all lines have said, where END was the last; where it is missing, that is named at `next`.
    pub(crate) fn into_saved(self, next: u32) -> Result<Saved, SaveFault>
        requires { IsSoundProgress self }
        ensures saved { result ≡ whole_of next self }
        ensures whole { IfOk result (λ saved. IsWhole saved.snapshot) }
        ensures steps { IfOk result (λ saved. saved.snapshot.steps ≤ 3 * saved.count) }
        ensures count { IfOk result (λ saved. saved.count ≤ TIMES) }
        ensures few { IfOk result (λ saved. length saved.script ≤ EVENTS) }
        ensures events { IfOk result (λ saved. All IsEvent saved.script) }
    {
        if self.section.rank() != Section::End.rank() {
            return Err(SaveFault::BadSave(next));
        }
        Ok(self.into_whole())
    }
}
