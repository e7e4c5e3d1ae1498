ghost use Rattle.std.specs.Prelude.{◌≡◌, ◌<◌, ◌^◌};
ghost use Rattle.lvdc_mul.specs.Control.{kind_of, kind_code, control_of, control_word, begun, counted_down, is_last};

use lvdc_word::Word;

/// What the unit works on. The codes, 0 to 3 in this order, are this project's profile.
#[derive(Clone, Copy, PartialEq, Eq)]
pub enum Kind {
    /// Nothing.
    Idle,
    /// A product for PQ.
    Multiply,
    /// A product for PQ and the accumulator.
    MultiplyHigh,
    /// A quotient for PQ.
    Divide,
}

impl Kind {
    /// The kind with this code.
    fn of(code: u32) -> Kind
        ensures { result ≡ kind_of code }
    {
        match code {
            0 => Kind::Idle,
            1 => Kind::Multiply,
            2 => Kind::MultiplyHigh,
            _ => Kind::Divide,
        }
    }

    /// The code of the kind.
    fn code(self) -> u32
        ensures value { result ≡ kind_code self }
        ensures small { result < 4 }
    {
        match self {
            Kind::Idle => 0,
            Kind::Multiply => 1,
            Kind::MultiplyHigh => 2,
            Kind::Divide => 3,
        }
    }
}

/// The fields of the latch CONTROL.
#[derive(Clone, Copy)]
pub(crate) struct Control {
    /// What the unit works on.
    pub(crate) kind: Kind,
    /// The phases that are left, 0 to 31.
    pub(crate) count: u32,
    /// NEG: the quotient is negative.
    pub(crate) negative: bool,
    /// SAT: the quotient is the greatest of its sign.
    pub(crate) saturated: bool,
    /// The bits above SAT, which are carried and have no effect.
    pub(crate) unnamed: u32,
}

impl Control {
    /// The fields of a word.
    pub(crate) fn of(word: Word) -> Control
        ensures value { result ≡ control_of word }
        ensures count { result.count < 32 }
        ensures unnamed { result.unnamed < 2 ^ 17 }
    {
        let w = word.value();
        Control {
            kind: Kind::of(w & 3),
            count: (w >> 2) & 31,
            negative: (w >> 7) & 1 == 1,
            saturated: (w >> 8) & 1 == 1,
            unnamed: w >> 9,
        }
    }

    /// The word of the fields.
    pub(crate) fn word(self) -> Word
        requires count { self.count < 32 }
        requires unnamed { self.unnamed < 2 ^ 17 }
        ensures { result ≡ control_word self }
    {
        Word::within(
            self.unnamed * (1 << 9)
                + (if self.saturated { 1 << 8 } else { 0 })
                + (if self.negative { 1 << 7 } else { 0 })
                + self.count * (1 << 2)
                + self.kind.code(),
        )
    }

    /// Work that has so many phases before it.
    pub(crate) fn begin(kind: Kind, count: u32) -> Control
        ensures { result ≡ begun kind count }
    {
        Control {
            kind,
            count,
            negative: false,
            saturated: false,
            unnamed: 0,
        }
    }

    /// The fields with one phase fewer left.
    pub(crate) fn counted_down(self) -> Control
        requires { 0 < self.count }
        ensures { result ≡ counted_down self }
    {
        Control {
            count: self.count - 1,
            ..self
        }
    }

    /// Is the next phase the last one?
    pub(crate) fn is_last(self) -> bool
        ensures { result ≡ is_last self }
    {
        self.kind != Kind::Idle && self.count == 1
    }
}
