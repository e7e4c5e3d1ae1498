//! What the lines of PORTS say.

ghost use Rattle.std.specs.Prelude.{◌≡◌, ◌∷◌, ℕ, List, map, All};
ghost use Rattle.lvdc_text.specs.Lines.{LiesIn, token_text};
ghost use Rattle.lvdc_deck.specs.Sections.{is_unplugged, kind_left, tape_line, unplug_line, port_line, Makes};

use crate::DeckFault;
use crate::fields::{port_in, supplies_in, time_in};
use crate::said::Said;
use lvdc_plain::Unplug;
use lvdc_port::{Kind, PortDevice, kind_at};
use lvdc_text::{Token, spells, token_text};
use std::alloc::Global;

impl Said {
    /// Has an earlier line unplugged this port?
    fn is_unplugged(&self, port: u8) -> bool
        ensures { result ≡ is_unplugged self.now port }
    {
        self.unplugs.iter().any(|line| line.port == port)
    }

    /// The kind of the device that is left at this port.
    fn kind_left(&self, devices: &Vec<Box<dyn PortDevice>>, port: u8) -> Option<Kind>
        ensures { result ≡ kind_left (map device_of devices.now.items) self.now port }
    {
        if self.is_unplugged(port) {
            None
        } else {
            kind_at(devices, port)
        }
    }

    fn tape_line(
        &mut self,
        alloc: Global,
        devices: &Vec<Box<dyn PortDevice>>,
        number: u32,
        text: &[u8],
        tokens: &[Token],
    ) -> Result<(), DeckFault>
        requires { All (LiesIn text.now) tokens.now }
        ensures { Makes result self.new (tape_line (map device_of devices.now.items) self.old number (map (token_text text.now) tokens.now)) }
    {
        let [first, words @ ..] = tokens else {
            return Err(DeckFault::BadLine(number));
        };
        if words.is_empty() {
            return Err(DeckFault::BadLine(number));
        }
        let Some(port) = port_in(token_text(text, first)) else {
            return Err(DeckFault::BadLine(number));
        };
        let Some(supplies) = supplies_in(alloc, port, text, words)? else {
            return Err(DeckFault::BadLine(number));
        };
        if self.kind_left(devices, port) != Some(Kind::Tape) {
            return Err(DeckFault::NoDevice(number));
        }
        self.supplies.extend_from_slice(supplies.as_slice())?;
        Ok(())
    }

    fn unplug_line(
        &mut self,
        devices: &Vec<Box<dyn PortDevice>>,
        number: u32,
        text: &[u8],
        tokens: &[Token],
    ) -> Result<(), DeckFault>
        requires { All (LiesIn text.now) tokens.now }
        ensures { Makes result self.new (unplug_line (map device_of devices.now.items) self.old number (map (token_text text.now) tokens.now)) }
    {
        let [first, second] = tokens else {
            return Err(DeckFault::BadLine(number));
        };
        let Some(port) = port_in(token_text(text, first)) else {
            return Err(DeckFault::BadLine(number));
        };
        let Some(time) = time_in(token_text(text, second)) else {
            return Err(DeckFault::BadLine(number));
        };
        if self.kind_left(devices, port).is_none() {
            return Err(DeckFault::NoDevice(number));
        }
        self.unplugs.push(Unplug { port, time })?;
        Ok(())
    }

    /// Takes a line of PORTS.
    pub(crate) fn port_line(
        &mut self,
        alloc: Global,
        devices: &Vec<Box<dyn PortDevice>>,
        number: u32,
        text: &[u8],
        tokens: &[Token],
    ) -> Result<(), DeckFault>
        requires { All (LiesIn text.now) tokens.now }
        ensures { (first : List ℕ) (rest : List (List ℕ)) → map (token_text text.now) tokens.now ≡ first ∷ rest
            → Makes result self.new (port_line (map device_of devices.now.items) self.old number first rest) }
    {
        let [first, rest @ ..] = tokens else {
            return Err(DeckFault::BadLine(number));
        };
        let word = token_text(text, first);
        if spells(word, b"TAPE") {
            self.tape_line(alloc, devices, number, text, rest)
        } else if spells(word, b"UNPLUG") {
            self.unplug_line(devices, number, text, rest)
        } else {
            Err(DeckFault::BadLine(number))
        }
    }
}
