ghost use Rattle.std.specs.Prelude.{◌≡◌, ◌≢◌, ℕ, List, ◌-◌, ◌^◌, ◌<◌, ◌≤◌, ◌∷◌, length, map, true, IfOk, IfErr, All, Ok, Err};
ghost use Rattle.lvdc_map.specs.Memory.{are_rising, AllThere};
ghost use Rattle.lvdc_text.specs.Lines.{IsWithin, part_of, LiesIn, token_text};
ghost use Rattle.lvdc_fault.specs.Events.{IsEvent};
ghost use Rattle.lvdc_lines.specs.Lines.{fault_in, order_in};
ghost use Rattle.lvdc_deck.specs.Sections.{nothing_said, entry_in, start_line, simplex_line, begun, ports_line, faults_line, order_line, run_line, debug_line, in_order, with_event, with_order, belongs, by_tokens, after_line, Makes};
ghost use Rattle.lvdc_deck.specs.Deck.{told_from, count_in, made_of};
ghost use Rattle.lvdc_text.specs.declared.comment.TheConstants.{LONGEST_LINE};
ghost use Rattle.lvdc_fault.specs.declared.TheConstants.{MOST_TIMES, MOST_EVENTS};
ghost use Rattle.lvdc_deck.specs.declared.fault.DeckFault.TheVariants.{NoMemory as WantsMemory};

use crate::commands::commands_in;
use crate::entry::EntryPoint;
use crate::fields::pairs_in;
use crate::layout::section_of;
use crate::program::DeckProgram;
use crate::section::{ProgramKind, Section};
use crate::{Deck, DeckFault};
use lvdc_fault::{MOST_EVENTS, MOST_TIMES, Script};
use lvdc_lines::{event_of, order_of};
use lvdc_map::{Banks, Hop};
use lvdc_orders::Orders;
use lvdc_plain::Unplug;
use lvdc_port::{PortDevice, Supply};
use lvdc_source::is_name;
use lvdc_text::{
    LONGEST_LINE, Line, Token, decimal, few_tokens, is_comment, is_long, octal_word, part,
    token_text,
};
use lvdc_word::{NoMemory, Seq};
use std::alloc::Global;
use std::marker::Model;

/// What the sections have said so far, after a program of this kind.
#[derive(Drop)]
pub(crate) struct Said {
    kind: ProgramKind,
    section: Section,
    start: Option<EntryPoint>,
    simplex: Banks,
    pub(crate) supplies: Vec<Supply>,
    pub(crate) unplugs: Vec<Unplug>,
    script: Script,
    orders: Orders,
    count: Option<u64>,
    run_line: u32,
    other_line: Option<u32>,
}

impl Model for Said {
    ghost use Rattle.std.specs.Prelude.{◌≤◌, length, IfSome, All};
    ghost use Rattle.lvdc_fault.specs.Events.{IsEvent};
    ghost use Rattle.lvdc_deck.specs.Sections.{Sections};
    ghost use Rattle.lvdc_fault.specs.declared.TheConstants.{MOST_TIMES, MOST_EVENTS};

    ghost Value = { Sections };

    ghost view = { λ s. record {
      kind = s.kind;
      section = s.section;
      start = s.start;
      simplex = s.simplex;
      supplies = s.supplies.items;
      unplugs = s.unplugs.items;
      script = s.script;
      orders = s.orders;
      count = s.count;
      run_line = s.run_line;
      other_line = s.other_line;
    } };

    ghost invariant = { λ s. IfSome s.count (λ count. count ≤ MOST_TIMES) × (length s.script ≤ MOST_EVENTS) × All IsEvent s.script };
}

impl Said {
    /// Before any section.
    pub(crate) fn new(alloc: Global, kind: ProgramKind) -> Said
        ensures { result ≡ nothing_said kind }
    {
        Said {
            kind,
            section: Section::Program,
            start: None,
            simplex: Banks::DUPLEX,
            supplies: Vec::new(alloc),
            unplugs: Vec::new(alloc),
            script: Script::new(alloc),
            orders: Orders::plain(),
            count: None,
            run_line: 0,
            other_line: None,
        }
    }

    /// The entry point that a token after START names.
    fn entry_in(
        &self,
        alloc: Global,
        number: u32,
        token: &[u8],
    ) -> Result<Option<EntryPoint>, NoMemory>
        ensures { IfOk result (λ entry. entry ≡ entry_in self.now.kind number token.now) }
    {
        if let Some(word) = octal_word(token) {
            return Ok(Some(EntryPoint::Constant(Hop::of(word))));
        }
        if self.kind == ProgramKind::Image || !is_name(token) {
            return Ok(None);
        }
        let name = Vec::from_slice(alloc, token)?;
        Ok(Some(EntryPoint::Name {
            number,
            name: Seq::from_vec(name),
        }))
    }

    fn start_line(
        &mut self,
        alloc: Global,
        number: u32,
        text: &[u8],
        tokens: &[Token],
    ) -> Result<(), DeckFault>
        requires { All (LiesIn text.now) tokens.now }
        ensures { Makes result self.new (start_line self.old number (map (token_text text.now) tokens.now)) }
    {
        let [token] = tokens else {
            return Err(DeckFault::BadLine(number));
        };
        let Some(entry) = self.entry_in(alloc, number, token_text(text, token))? else {
            return Err(DeckFault::BadLine(number));
        };
        self.section = Section::Start;
        self.start = Some(entry);
        Ok(())
    }

    fn simplex_line(&mut self, number: u32, text: &[u8], tokens: &[Token]) -> Result<(), DeckFault>
        requires { All (LiesIn text.now) tokens.now }
        ensures { Makes result self.new (simplex_line self.old number (map (token_text text.now) tokens.now)) }
    {
        if tokens.is_empty() {
            return Err(DeckFault::BadLine(number));
        }
        let Some(pairs) = pairs_in(text, tokens) else {
            return Err(DeckFault::BadLine(number));
        };
        self.section = Section::Simplex;
        self.simplex = pairs;
        Ok(())
    }

    /// Begins PORTS, FAULTS or DEBUG on this line.
    fn begin_other(&mut self, section: Section, number: u32)
        ensures { self.new ≡ begun section self.old number }
    {
        self.section = section;
        if let None = self.other_line {
            self.other_line = Some(number);
        }
    }

    fn ports_line(&mut self, number: u32, text: &[u8], tokens: &[Token]) -> Result<(), DeckFault>
        ensures { Makes result self.new (ports_line self.old number (map (token_text text.now) tokens.now)) }
    {
        if !tokens.is_empty() {
            return Err(DeckFault::BadLine(number));
        }
        self.begin_other(Section::Ports, number);
        Ok(())
    }

    fn faults_line(&mut self, number: u32, text: &[u8], tokens: &[Token]) -> Result<(), DeckFault>
        ensures { Makes result self.new (faults_line self.old number (map (token_text text.now) tokens.now)) }
    {
        if !tokens.is_empty() {
            return Err(DeckFault::BadLine(number));
        }
        self.begin_other(Section::Faults, number);
        Ok(())
    }

    fn order_line(&mut self, number: u32, text: &[u8], tokens: &[Token]) -> Result<(), DeckFault>
        ensures { Makes result self.new (order_line self.old number (map (token_text text.now) tokens.now)) }
    {
        if !tokens.is_empty() {
            return Err(DeckFault::BadLine(number));
        }
        self.section = Section::Order;
        Ok(())
    }

    fn run_line(&mut self, number: u32, text: &[u8], tokens: &[Token]) -> Result<(), DeckFault>
        requires { All (LiesIn text.now) tokens.now }
        ensures { Makes result self.new (run_line self.old number (map (token_text text.now) tokens.now)) }
    {
        let [token] = tokens else {
            return Err(DeckFault::BadLine(number));
        };
        let Some(count) = decimal(token_text(text, token), 9) else {
            return Err(DeckFault::BadLine(number));
        };
        if count > MOST_TIMES {
            return Err(DeckFault::CountTooLarge(number));
        }
        self.section = Section::Run;
        self.count = Some(count);
        self.run_line = number;
        Ok(())
    }

    fn debug_line(&mut self, number: u32, text: &[u8], tokens: &[Token]) -> Result<(), DeckFault>
        ensures { Makes result self.new (debug_line self.old number (map (token_text text.now) tokens.now)) }
    {
        if !tokens.is_empty() {
            return Err(DeckFault::BadLine(number));
        }
        self.begin_other(Section::Debug, number);
        Ok(())
    }

    /// Takes a line with the word of a section, in its order.
    fn open(
        &mut self,
        alloc: Global,
        section: Section,
        number: u32,
        text: &[u8],
        tokens: &[Token],
    ) -> Result<(), DeckFault>
        requires { All (LiesIn text.now) tokens.now }
        ensures { Makes result self.new (in_order section self.old number (map (token_text text.now) tokens.now)) }
    {
        if section.rank() <= self.section.rank() {
            return Err(DeckFault::BadSection(number));
        }
        match section {
            Section::Start => self.start_line(alloc, number, text, tokens),
            Section::Simplex => self.simplex_line(number, text, tokens),
            Section::Ports => self.ports_line(number, text, tokens),
            Section::Faults => self.faults_line(number, text, tokens),
            Section::Order => self.order_line(number, text, tokens),
            Section::Run => self.run_line(number, text, tokens),
            Section::Debug => self.debug_line(number, text, tokens),
            Section::Program => Err(DeckFault::BadLine(number)),
        }
    }

    /// Takes a line of FAULTS.
    fn take_event(&mut self, number: u32, text: &[u8], tokens: &[Token]) -> Result<(), DeckFault>
        requires { All (LiesIn text.now) tokens.now }
        ensures { Makes result self.new (with_event self.old number (fault_in (map (token_text text.now) tokens.now))) }
    {
        let Some(event) = event_of(text, tokens) else {
            return Err(DeckFault::BadLine(number));
        };
        if self.script.len() >= MOST_EVENTS {
            return Err(DeckFault::TooManyEvents(number));
        }
        self.script.push(event)?;
        Ok(())
    }

    /// Takes a line of ORDER.
    fn take_order(&mut self, number: u32, text: &[u8], tokens: &[Token]) -> Result<(), DeckFault>
        requires { All (LiesIn text.now) tokens.now }
        ensures { Makes result self.new (with_order self.old number (order_in (map (token_text text.now) tokens.now))) }
    {
        let Some(order) = order_of(text, tokens) else {
            return Err(DeckFault::BadLine(number));
        };
        if self.orders.add(order).is_err() {
            return Err(DeckFault::BadLine(number));
        }
        Ok(())
    }

    /// Takes a line with these tokens, of which the first is no section's word.
    fn take_other(
        &mut self,
        alloc: Global,
        devices: &Vec<Box<dyn PortDevice>>,
        number: u32,
        text: &[u8],
        tokens: &[Token],
    ) -> Result<(), DeckFault>
        requires within { All (LiesIn text.now) tokens.now }
        ensures { (first : List ℕ) (rest : List (List ℕ)) → map (token_text text.now) tokens.now ≡ first ∷ rest → Makes result self.new
            (belongs (map device_of devices.now.items) self.old.section self.old number first rest) }
    {
        match self.section {
            Section::Ports => self.port_line(alloc, devices, number, text, tokens),
            Section::Faults => self.take_event(number, text, tokens),
            Section::Order => self.take_order(number, text, tokens),
            _ => Err(DeckFault::BadSection(number)),
        }
    }

    fn take_tokens(
        &mut self,
        alloc: Global,
        devices: &Vec<Box<dyn PortDevice>>,
        number: u32,
        text: &[u8],
        tokens: &[Token],
    ) -> Result<(), DeckFault>
        requires within { All (LiesIn text.now) tokens.now }
        ensures { Makes result self.new (by_tokens (map device_of devices.now.items) self.old number (map (token_text text.now) tokens.now)) }
    {
        let [first, rest @ ..] = tokens else {
            return Ok(());
        };
        match section_of(token_text(text, first)) {
            Some(section) => self.open(alloc, section, number, text, rest),
            None => self.take_other(alloc, devices, number, text, tokens),
        }
    }

    /// Takes a line after the program that is no command.
    fn take_line(
        &mut self,
        alloc: Global,
        devices: &Vec<Box<dyn PortDevice>>,
        number: u32,
        text: &[u8],
    ) -> Result<(), DeckFault>
        requires { length text.now < 2 ^ 32 - 1 }
        ensures { Makes result self.new (after_line (map device_of devices.now.items) self.old number text.now) }
    {
        if is_long(text) {
            return Err(DeckFault::BadLine(number));
        }
        if is_comment(text) {
            return Ok(());
        }
        let Some(tokens) = few_tokens::<LONGEST_LINE>(text) else {
            return Err(DeckFault::BadLine(number));
        };
        self.take_tokens(alloc, devices, number, text, tokens.as_slice())
    }

    /// Takes the lines after the program, in order, and gives the commands among them.
    pub(crate) fn take_lines(
        &mut self,
        alloc: Global,
        devices: &Vec<Box<dyn PortDevice>>,
        bytes: &[u8],
        lines: &[Line],
    ) -> Result<Vec<Line>, DeckFault>
        requires size { length bytes.now < 2 ^ 32 - 1 }
        requires within { All (IsWithin bytes.now) lines.now }
        ensures told { IfOk result (λ commands. told_from (map device_of devices.now.items) bytes.now self.old lines.now
            ≡ Ok (record { sections = self.new; commands = commands.items })) }
        ensures refusal { IfErr result (λ fault. fault ≢ WantsMemory →
            told_from (map device_of devices.now.items) bytes.now self.old lines.now ≡ Err fault) }
        ensures within { IfOk result (λ commands. All (IsWithin bytes.now) commands.items) }
        ensures short { IfOk result (λ commands. All (λ line. length (part_of bytes.now line) ≤ LONGEST_LINE) commands.items) }
    {
        for (at, line) in lines.iter().enumerate() {
            match self.take_line(alloc, devices, line.number, part(bytes, line)) {
                Ok(()) => {}
                Err(fault) => return Err(fault),
            }
            if self.section.is_debug() {
                return commands_in(alloc, bytes, &lines[at + 1..]);
            }
        }
        Ok(Vec::new(alloc))
    }

    /// The count of RUN. Where it is missing, or DEBUG while a debugger's session is asked for, that is named at `next`.
    pub(crate) fn count(&self, debugging: bool, next: u32) -> Result<u64, DeckFault>
        ensures count { result ≡ count_in debugging next self.now }
        ensures few { IfOk result (λ count. count ≤ MOST_TIMES) }
    {
        if debugging && !self.section.is_debug() {
            return Err(DeckFault::BadSection(next));
        }
        match self.count {
            Some(count) => Ok(count),
            None => Err(DeckFault::BadSection(next)),
        }
    }

    /// The deck of these sections, of the program and of the commands.
    pub(crate) fn into_deck(
        self,
        program: DeckProgram,
        commands: Vec<Line>,
        count: u64,
    ) -> Result<Deck, DeckFault>
        requires { count ≤ MOST_TIMES }
        ensures deck { result ≡ made_of program (record { sections = self; commands = commands.items }) count }
        ensures commands { IfOk result (λ deck. deck.commands ≡ commands.items) }
        ensures count { IfOk result (λ deck. deck.count ≤ MOST_TIMES) }
        ensures rising { IfOk result (λ deck. are_rising deck.image.words ≡ true) }
        ensures there { IfOk result (λ deck. AllThere deck.banks deck.image.words) }
        ensures few { IfOk result (λ deck. length deck.script ≤ MOST_EVENTS) }
        ensures events { IfOk result (λ deck. All IsEvent deck.script) }
    {
        let start = match program.start(&self.start) {
            Ok(start) => start,
            Err(fault) => return Err(fault),
        };
        let image = program.into_image();
        let banks = image.banks().union(self.simplex);
        Ok(Deck {
            image,
            start,
            banks,
            supplies: Seq::from_vec(self.supplies),
            unplugs: Seq::from_vec(self.unplugs),
            script: self.script,
            orders: self.orders,
            count,
            commands: Seq::from_vec(commands),
            run_line: self.run_line,
            other_line: self.other_line,
        })
    }
}
