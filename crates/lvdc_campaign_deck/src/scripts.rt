//! The scripts of a campaign, line by line.

ghost use Rattle.std.specs.Prelude.{◌≡◌, ◌≢◌, ◌<◌, ◌≤◌, ◌-◌, ◌^◌, length, map, IfOk, IfErr, OnOk, All, Ok, Err, None, false, IsTrue};
ghost use Rattle.lvdc_text.specs.Lines.{IsWithin, LiesIn, token_text};
ghost use Rattle.lvdc_lines.specs.Lines.{fault_in};
ghost use Rattle.lvdc_source.specs.Names.{is_name};
ghost use Rattle.lvdc_fault.specs.declared.TheConstants.{MOST_EVENTS};
ghost use Rattle.lvdc_campaign_deck.specs.declared.fault.CampaignFault.TheVariants.{NoMemory as WantsMemory};
ghost use Rattle.lvdc_campaign_deck.specs.Scripts.{nothing_said, all_scripts, has_name, is_taken, with_script, script_line, fault_line, by_tokens, after_line, scripts_from, Makes, CanRun};

use crate::CampaignFault;
use crate::by_name::ByName;
use lvdc_fault::{MOST_EVENTS, Named, Script};
use lvdc_lines::event_of;
use lvdc_source::is_name;
use lvdc_text::{LONGEST_LINE, Line, Token, few_tokens, is_comment, is_long, part, token_text};
use lvdc_word::{NoMemory, Seq};
use std::alloc::Global;
use std::marker::Model;

/// What the lines after CAMPAIGN have said so far.
#[derive(Drop)]
struct Scripts {
    most: usize,
    before: ByName,
    last: Option<Named>,
    events: usize,
}

impl Model for Scripts {
    ghost use Rattle.std.specs.Prelude.{◌≡◌, ◌≤◌, false, length, IfSome, All};
    ghost use Rattle.lvdc_campaign_deck.specs.Scripts.{Scripts as Told, with_last, is_taken, CanRun};
    ghost use Rattle.lvdc_fault.specs.declared.TheConstants.{MOST_EVENTS};

    ghost Value = { Told };

    ghost view = { λ s. record {
      most = s.most;
      before = s.before;
      last = s.last;
      events = s.events;
    } };

    // The last script has no more events than there are in all, and a name of its own.
    ghost invariant = { λ s. All (CanRun MOST_EVENTS) s.before × IfSome s.last (CanRun s.events) × (s.events ≤ MOST_EVENTS)
        × (length (with_last s.before s.last) ≤ s.most) × IfSome s.last (λ named. is_taken named.name s.before ≡ false) };
}

/// Is it a name? It stands for its clauses alone, which proofs cite.
fn is_short_name(text: &[u8]) -> bool
    ensures name { result ≡ is_name text.now }
    ensures short { IsTrue result → length text.now ≤ 8 }
{
    is_name(text)
}

/// Has the script this name?
fn has_name(name: &[u8], named: &Named) -> bool
    ensures { result ≡ has_name name.now named.now }
{
    name == named.name.items()
}

impl Scripts {
    /// Before the first line.
    fn new(alloc: Global, most: usize) -> Scripts
        ensures { result ≡ nothing_said most }
    {
        Scripts {
            most,
            before: ByName::new(alloc),
            last: None,
            events: 0,
        }
    }

    /// How many scripts there are.
    fn count(&self) -> usize
        ensures { result ≡ length (all_scripts self.now) }
    {
        match self.last {
            Some(_) => self.before.count() + 1,
            None => self.before.count(),
        }
    }

    /// Has one of the scripts this name?
    fn is_taken(&self, name: &[u8]) -> bool
        ensures { result ≡ is_taken name.now (all_scripts self.now) }
    {
        match &self.last {
            Some(named) => self.before.is_taken(name) || has_name(name, named),
            None => self.before.is_taken(name),
        }
    }

    /// Puts the last script behind those before it.
    fn close(&mut self) -> Result<(), NoMemory>
        ensures before { OnOk result (self.new.before ≡ all_scripts self.old) }
        ensures last { OnOk result (self.new.last ≡ None) }
        ensures most { OnOk result (self.new.most ≡ self.old.most) }
        ensures events { OnOk result (self.new.events ≡ self.old.events) }
    {
        if let Some(named) = self.last.take() {
            self.before.add(named)?;
        }
        Ok(())
    }

    /// All scripts, in their order.
    fn into_all(mut self) -> Result<Vec<Named>, NoMemory>
        ensures all { IfOk result (λ all. all.items ≡ all_scripts self) }
        ensures few { IfOk result (λ all. length all.items ≤ self.most) }
        ensures run { IfOk result (λ all. All (CanRun MOST_EVENTS) all.items) }
    {
        self.close()?;
        let Scripts { before, .. } = self;
        Ok(before.into_vec())
    }

    /// Begins a further script.
    fn begin(&mut self, alloc: Global, number: u32, name: &[u8]) -> Result<(), CampaignFault>
        requires short { length name.now ≤ 8 }
        requires new { is_taken name.now (all_scripts self.old) ≡ false }
        ensures made { Makes result self.new (with_script self.old number name.now) }
        ensures most { OnOk result (self.new.most ≡ self.old.most) }
    {
        if self.count() >= self.most {
            return Err(CampaignFault::TooManyScripts(number));
        }
        let named = Named {
            name: Seq::from_vec(Vec::from_slice(alloc, name)?),
            script: Script::new(alloc),
        };
        self.close()?;
        self.last = Some(named);
        Ok(())
    }

    /// Takes what stands after SCRIPT.
    fn take_script(
        &mut self,
        alloc: Global,
        number: u32,
        text: &[u8],
        tokens: &[Token],
    ) -> Result<(), CampaignFault>
        requires { All (LiesIn text.now) tokens.now }
        ensures made { Makes result self.new (script_line self.old number (map (token_text text.now) tokens.now)) }
        ensures most { OnOk result (self.new.most ≡ self.old.most) }
    {
        let [token] = tokens else {
            return Err(CampaignFault::BadLine(number));
        };
        let name = token_text(text, token);
        if !is_short_name(name) || self.is_taken(name) {
            return Err(CampaignFault::BadLine(number));
        }
        self.begin(alloc, number, name)
    }

    /// Takes a fault line.
    fn take_event(
        &mut self,
        number: u32,
        text: &[u8],
        tokens: &[Token],
    ) -> Result<(), CampaignFault>
        requires { All (LiesIn text.now) tokens.now }
        ensures made { Makes result self.new (fault_line self.old number (fault_in (map (token_text text.now) tokens.now))) }
        ensures most { OnOk result (self.new.most ≡ self.old.most) }
    {
        let Some(event) = event_of(text, tokens) else {
            return Err(CampaignFault::BadLine(number));
        };
        let Some(mut named) = self.last.take() else {
            return Err(CampaignFault::BadLine(number));
        };
        if self.events >= MOST_EVENTS {
            return Err(CampaignFault::TooManyEvents(number));
        }
        named.script.push(event)?;
        self.last = Some(named);
        self.events += 1;
        Ok(())
    }

    fn take_tokens(
        &mut self,
        alloc: Global,
        number: u32,
        text: &[u8],
        tokens: &[Token],
    ) -> Result<(), CampaignFault>
        requires { All (LiesIn text.now) tokens.now }
        ensures made { Makes result self.new (by_tokens self.old number (map (token_text text.now) tokens.now)) }
        ensures most { OnOk result (self.new.most ≡ self.old.most) }
    {
        let [first, rest @ ..] = tokens else {
            return Ok(());
        };
        if token_text(text, first) == b"SCRIPT".as_slice() {
            self.take_script(alloc, number, text, rest)
        } else {
            self.take_event(number, text, tokens)
        }
    }

    /// Takes a line after CAMPAIGN.
    fn take_line(&mut self, alloc: Global, number: u32, text: &[u8]) -> Result<(), CampaignFault>
        requires { length text.now < 2 ^ 32 - 1 }
        ensures made { Makes result self.new (after_line self.old number text.now) }
        ensures most { OnOk result (self.new.most ≡ self.old.most) }
    {
        if is_long(text) {
            return Err(CampaignFault::BadLine(number));
        }
        if is_comment(text) {
            return Ok(());
        }
        let Some(tokens) = few_tokens::<LONGEST_LINE>(text) else {
            return Err(CampaignFault::BadLine(number));
        };
        self.take_tokens(alloc, number, text, tokens.as_slice())
    }
}

/// Reads the scripts in the lines after CAMPAIGN. `most` is how many there may be.
pub fn read_scripts(
    alloc: Global,
    bytes: &[u8],
    lines: &[Line],
    most: usize,
) -> Result<Vec<Named>, CampaignFault>
    requires size { length bytes.now < 2 ^ 32 - 1 }
    requires within { All (IsWithin bytes.now) lines.now }
    ensures scripts { IfOk result (λ scripts. scripts_from bytes.now (nothing_said most) lines.now ≡ Ok scripts.items) }
    ensures refusal { IfErr result (λ fault. fault ≢ WantsMemory → scripts_from bytes.now (nothing_said most) lines.now ≡ Err fault) }
    ensures few { IfOk result (λ scripts. length scripts.items ≤ most) }
    ensures run { IfOk result (λ scripts. All (CanRun MOST_EVENTS) scripts.items) }
{
    let mut scripts = Scripts::new(alloc, most);
    for line in lines {
        match scripts.take_line(alloc, line.number, part(bytes, line)) {
            Ok(()) => {}
            Err(fault) => return Err(fault),
        }
    }
    let all = scripts.into_all()?;
    Ok(all)
}
