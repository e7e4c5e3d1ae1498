ghost use Rattle.std.specs.Prelude.{◌≡◌};
ghost use Rattle.lvdc_save.specs.Reading.{rank, earliest, latest, follows};

/// The sections of a saved text, in the order in which they stand.
#[derive(Clone, Copy, PartialEq, Eq)]
pub enum Section {
    Nothing,
    Title,
    Steps,
    Count,
    Simplex,
    Copies,
    Select,
    Cells,
    Words,
    Log,
    Repairs,
    States,
    Unplugs,
    Faults,
    Orders,
    End,
}

impl Section {
    /// The place of the section in a saved text, from 0 before the first line.
    pub fn rank(self) -> u8
        ensures { result ≡ rank self }
    {
        match self {
            Section::Nothing => 0,
            Section::Title => 1,
            Section::Steps => 2,
            Section::Count => 3,
            Section::Simplex => 4,
            Section::Copies => 5,
            Section::Select => 6,
            Section::Cells => 7,
            Section::Words => 8,
            Section::Log => 9,
            Section::Repairs => 10,
            Section::States => 11,
            Section::Unplugs => 12,
            Section::Faults => 13,
            Section::Orders => 14,
            Section::End => 15,
        }
    }

    /// The rank of the first section that may stand just before a line of this one; for no section there is one.
    fn earliest(self) -> u8
        ensures { result ≡ earliest self }
    {
        match self {
            Section::Nothing => 16,
            Section::Title => 0,
            Section::Steps => 1,
            Section::Count => 2,
            Section::Simplex => 3,
            Section::Copies => 3,
            Section::Select => 5,
            Section::End => 14,
            _ => 6,
        }
    }

    /// The rank of the last section that may stand just before a line of this one.
    fn latest(self) -> u8
        ensures { result ≡ latest self }
    {
        match self {
            Section::Nothing => 0,
            Section::Title => 0,
            Section::Steps => 1,
            Section::Count => 2,
            Section::Simplex => 3,
            Section::Select => 5,
            Section::End => 14,
            _ => self.rank(),
        }
    }

    /// May a line of this section follow one of the other?
    pub fn follows(self, last: Section) -> bool
        ensures { result ≡ follows self last }
    {
        self.earliest() <= last.rank() && last.rank() <= self.latest()
    }
}
