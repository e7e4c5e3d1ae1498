use lvdc_deck::Deck;
use lvdc_fault::Named;
use lvdc_word::Seq;

/// What the deck of a study asks for.
#[derive(Drop)]
pub struct StudyDeck {
    /// The deck before CAMPAIGN, with its TAPE and UNPLUG lines; no line of it is FAULTS or DEBUG.
    pub deck: Deck,
    /// The scripts, in their order; at most 65,536, with at most 65,536 events in all.
    pub scripts: Seq<Named>,
}
