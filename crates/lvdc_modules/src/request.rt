ghost use Rattle.std.specs.Prelude.{◌≡◌, ◌<◌, ◌^◌, ◌-◌, true};
ghost use Rattle.lvdc_map.specs.Banks.{is_there};
ghost use Rattle.lvdc_modules.specs.Request.{destination, spot_of, destination_bits, word_of_request, destination_in, request_of, IsDestination, IsRequest};

use lvdc_map::{Address, Banks, Hop, low_bits};
use lvdc_word::Word;

/// A word of memory by the number of its module, before the banks are known.
#[derive(Clone, Copy)]
pub struct Destination {
    /// The data module, 0 to 7.
    pub dmod: u8,
    /// 00 to 17 octal.
    pub sector: u8,
    /// 000 to 377 octal.
    pub loc: u8,
}

/// What an instruction asks of memory or a port. Its word in the latch REQUEST is this project's profile.
#[derive(Clone, Copy)]
pub enum Request {
    /// No exchange.
    Nothing,
    /// The accumulator goes to memory.
    StoreA(Destination),
    /// The saver goes to memory.
    StoreSaver(Destination),
    /// The accumulator goes to the port.
    PortWrite(u8),
    /// A word comes from the port.
    PortRead(u8),
}

impl Destination {
    /// The word that an address means at a place.
    pub(crate) fn at(place: Hop, address: u16) -> Destination
        requires { address < 2 ^ 9 }
        ensures value { result ≡ destination place address }
        ensures ranges { IsDestination result }
    {
        Destination {
            dmod: place.dmod,
            sector: place.data_sector(address),
            loc: low_bits(address),
        }
    }

    /// The address of the word, of which the bank is there.
    pub(crate) fn address(self, banks: Banks) -> Address
        requires { IsDestination self }
        ensures value { result ≡ spot_of banks self }
        ensures there { is_there banks result ≡ true }
    {
        Address {
            pair: banks.of(self.dmod),
            sector: self.sector,
            loc: self.loc,
        }
    }

    /// The destination in the bits of a word.
    fn of(word: Word) -> Destination
        ensures value { result ≡ destination_in word }
        ensures ranges { IsDestination result }
    {
        let w = word.value();
        Destination {
            dmod: (((w >> 15) & 3) * 2 + ((w >> 17) & 1)) as u8,
            sector: ((w >> 11) & 15) as u8,
            loc: ((w >> 3) & 255) as u8,
        }
    }

    /// The bits of the destination.
    fn bits(self) -> u32
        requires { IsDestination self }
        ensures value { result ≡ destination_bits self }
        ensures small { result < 2 ^ 18 - 7 }
    {
        u32::from(self.dmod % 2) * (1 << 17)
            + u32::from(self.dmod / 2) * (1 << 15)
            + u32::from(self.sector) * (1 << 11)
            + u32::from(self.loc) * (1 << 3)
    }
}

impl Request {
    /// What a word requests.
    pub fn of(word: Word) -> Request
        ensures value { result ≡ request_of word }
        ensures ranges { IsRequest result }
    {
        let port = ((word.value() >> 3) & 255) as u8;
        match word.value() & 7 {
            1 => Request::StoreA(Destination::of(word)),
            2 => Request::StoreSaver(Destination::of(word)),
            3 => Request::PortWrite(port),
            4 => Request::PortRead(port),
            _ => Request::Nothing,
        }
    }

    /// The word that requests this, from which it is read back.
    pub fn to_word(self) -> Word
        requires { IsRequest self }
        ensures value { result ≡ word_of_request self }
        ensures read_back { request_of result ≡ self }
    {
        let bits = match self {
            Request::Nothing => 0,
            Request::StoreA(destination) => destination.bits() + 1,
            Request::StoreSaver(destination) => destination.bits() + 2,
            Request::PortWrite(port) => u32::from(port) * 8 + 3,
            Request::PortRead(port) => u32::from(port) * 8 + 4,
        };
        Word::within(bits)
    }
}
