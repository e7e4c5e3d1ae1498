use lvdc_isa::Op;
use lvdc_map::Address;
use lvdc_word::Seq;

/// A word as a source writes it.
pub enum Constant {
    /// An octal number of one to nine digits.
    Oct(u64),
    /// A decimal number of one to nine digits, with its sign.
    Dec(i64),
    /// The HOP constant of a line of code by its name.
    HopOf(Seq<u8>),
}

/// Its parts go in one call, which whoever lets it go doesn't look into.
impl Drop for Constant {
    fn drop(self) {
        match self {
            Constant::Oct(_) => {}
            Constant::Dec(_) => {}
            Constant::HopOf(_) => {}
        }
    }
}

/// What an operation is written with.
pub enum Operand {
    /// An octal number of one to nine digits: an address as it is, a port, or a pattern of a shift.
    Number(u64),
    /// A pair and a sector, two octal numbers: the data place that `CDS` sets.
    Pair(u64, u64),
    /// The place of a name, or a place so many locations after it.
    Name {
        /// One to eight characters: a capital letter, then capital letters or digits.
        name: Seq<u8>,
        /// At most 999; 0 where none is written.
        offset: u16,
    },
    /// A word that the assembler places by itself.
    Literal(Constant),
}

/// Its parts go in one call, which whoever lets it go doesn't look into.
impl Drop for Operand {
    fn drop(self) {
        match self {
            Operand::Number(_) => {}
            Operand::Pair(_, _) => {}
            Operand::Name { name: _, offset: _ } => {}
            Operand::Literal(_) => {}
        }
    }
}

/// What a line of a source says after its label.
pub enum Body {
    /// `CODE`: a block of code begins, which stands where there is room.
    Code,
    /// `ORG`: a block of code begins at a fixed place.
    Org {
        /// Where its first instruction stands; a pair below 4.
        at: Address,
        /// The syllable, 0 or 1, of all its instructions.
        syl: u8,
    },
    /// `WORDS`: a block of words begins, in this sector.
    Words {
        /// 0 to 3.
        pair: u8,
        /// 00 to 17 octal.
        sector: u8,
        /// The location of its first word; none where it stands where there is room.
        loc: Option<u8>,
    },
    /// `USE`: the data pair and sector that are assumed from the next line on.
    Sector {
        /// 0 to 3.
        pair: u8,
        /// 00 to 17 octal.
        sector: u8,
    },
    /// `BSS`: room for so many words, 1 to 256.
    Room(u16),
    /// `OCT`, `DEC` or `HOPC`: a word.
    Constant(Constant),
    /// One of the operations with its operand.
    Instruction {
        /// None of `WrongShift` and `Exm`.
        op: Op,
        /// Of a form that the operation takes.
        operand: Operand,
    },
}

/// Its parts go in one call, which whoever lets it go doesn't look into.
impl Drop for Body {
    fn drop(self) {
        match self {
            Body::Code => {}
            Body::Org { at: _, syl: _ } => {}
            Body::Words {
                pair: _,
                sector: _,
                loc: _,
            } => {}
            Body::Sector { pair: _, sector: _ } => {}
            Body::Room(_) => {}
            Body::Constant(_) => {}
            Body::Instruction { op: _, operand: _ } => {}
        }
    }
}

/// What a line of a source means. Comments and `END` mean none.
pub struct Item {
    /// The number of its line, counted from 1.
    pub line: u32,
    /// The name that it defines; empty where it defines none.
    pub label: Seq<u8>,
    /// What it says after the label.
    pub body: Body,
}

/// Its parts go in one call, which whoever lets it go doesn't look into.
impl Drop for Item {
    fn drop(self) {
        let Item {
            line: _,
            label: _,
            body: _,
        } = self;
    }
}
