ghost use Rattle.std.specs.Prelude.{◌≡◌};
ghost use Rattle.lvdc_deck.specs.Sections.{rank, is_debug};

/// The sections of a deck, in the order in which they stand.
#[derive(Clone, Copy)]
pub(crate) enum Section {
    Program,
    Start,
    Simplex,
    Ports,
    Faults,
    Order,
    Run,
    Debug,
}

/// What the text of a deck's program is.
#[derive(Clone, Copy, PartialEq, Eq)]
pub(crate) enum ProgramKind {
    Image,
    Source,
}

/// What a line says that may be a deck's first.
#[derive(Clone, Copy)]
pub(crate) enum Opening {
    /// Above 120 bytes.
    Long,
    /// A blank line or a comment.
    Skipped,
    /// IMAGE or SOURCE.
    Program(ProgramKind),
    Other,
}

impl Section {
    /// The place of the section in a deck, from 0 for the program.
    pub(crate) fn rank(self) -> u8
        ensures { result ≡ rank self }
    {
        match self {
            Section::Program => 0,
            Section::Start => 1,
            Section::Simplex => 2,
            Section::Ports => 3,
            Section::Faults => 4,
            Section::Order => 5,
            Section::Run => 6,
            Section::Debug => 7,
        }
    }

    /// Is it the last section, in which every line is a command?
    pub(crate) fn is_debug(self) -> bool
        ensures { result ≡ is_debug self }
    {
        matches!(self, Section::Debug)
    }
}
