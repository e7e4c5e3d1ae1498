ghost use Rattle.std.specs.Prelude.{◌≡◌, ◌<◌};
ghost use Rattle.lvdc_map.specs.Place.{a9, low_bits, operand_kind, place_of, IsThereIn};

use crate::{Address, Banks, Hop, Place};

/// What an operand address names, whatever the data place is.
#[derive(Clone, Copy, PartialEq, Eq)]
pub enum OperandKind {
    /// A word of memory.
    Memory,
    /// The product-quotient register.
    Pq,
    /// A word of memory that STO fills with the HOP saver.
    Saver,
}

impl OperandKind {
    /// What the nine bits of an operand address name: 775 octal is PQ, 776 and 777 are the saver's words, every other one
    /// is memory (this project's profile).
    pub fn of(address: u16) -> OperandKind
        ensures { result ≡ operand_kind address }
    {
        match address {
            0o775 => OperandKind::Pq,
            0o776 | 0o777 => OperandKind::Saver,
            _ => OperandKind::Memory,
        }
    }
}

/// Is A9, bit 8 of an address and the highest of its nine, 1?
pub fn is_a9(address: u16) -> bool
    ensures { result ≡ a9 address }
{
    (address >> 8) & 1 == 1
}

/// The low eight bits of an address: a location, and of PIO the port.
pub fn low_bits(address: u16) -> u8
    ensures { result ≡ low_bits address }
{
    (address & 255) as u8
}

/// The place that the nine bits of an operand address name.
pub fn operand_place(hop: Hop, address: u16, banks: Banks) -> Place
    requires { address < 512 }
    ensures value { result ≡ place_of banks hop address }
    ensures there { IsThereIn banks result }
{
    let at = Address {
        pair: banks.of(hop.dmod),
        sector: hop.data_sector(address),
        loc: low_bits(address),
    };
    match OperandKind::of(address) {
        OperandKind::Memory => Place::Memory(at),
        OperandKind::Pq => Place::Pq,
        OperandKind::Saver => Place::Saver(at),
    }
}
