//! What the definition of decks tells, as laws: functions that do nothing.

ghost use Rattle.std.specs.Prelude.{◌≡◌, ◌-◌, ◌<◌, ◌≤◌, All, AllPairs, ℕ, Bool, true, false, List, ◌∷◌, length, Some, Ok};
ghost use Rattle.lvdc_port.specs.Device.{Device};
ghost use Rattle.lvdc_text.specs.Lines.{NumberedLine, numbered, lines_of};
ghost use Rattle.lvdc_asm.specs.Assembly.{assembly_of};
ghost use Rattle.lvdc_deck.specs.Deck.{deck_of};
ghost use Rattle.lvdc_deck.specs.Loading.{source_in, HasLines, IsImageOf};
ghost use Rattle.lvdc_deck.specs.Moving.{assembly_moved};
ghost use Rattle.lvdc_deck.specs.Named.{NameDevices};
ghost use Rattle.lvdc_fault.specs.declared.TheConstants.{MOST_TIMES};
ghost use Rattle.lvdc_orders.specs.declared.orders.TheConstants.{MOST_ORDERS};
ghost use Rattle.lvdc_deck.specs.declared.deck.Deck.{Deck};

/// The image of a deck that begins with a source is the one that assembling the source's lines gives.
pub fn source_is_assembled()
    // With their numbers in the deck.
    ensures deck { (bytes : List ℕ) (devices : List Device) (debugging : Bool) (deck : Deck) (source : List NumberedLine)
        → deck_of bytes devices debugging ≡ Ok deck → source_in bytes ≡ Some source → IsImageOf deck.image source }
    // And as a text of its own, which has the same lines from 1 on: what `asm --image` assembles.
    ensures alone { (bytes own : List ℕ) (devices : List Device) (debugging : Bool) (deck : Deck) (source : List NumberedLine)
        → deck_of bytes devices debugging ≡ Ok deck → source_in bytes ≡ Some source → HasLines own source
        → IsImageOf deck.image (numbered own (lines_of own)) }
{}

/// A source in a deck is assembled as a text of its own that has the same lines. Where that is refused it is refused for the same
/// cause, as many lines further on as stand before its first line.
pub fn source_is_moved()
    ensures { (bytes own : List ℕ) (line : NumberedLine) (lines : List NumberedLine)
        → source_in bytes ≡ Some (line ∷ lines) → HasLines own (line ∷ lines)
        → assembly_of (line ∷ lines) ≡ assembly_moved (line.number - 1) (assembly_of (numbered own (lines_of own))) }
{}

/// A deck of a debugger's session is the deck that a run has of the same bytes.
pub fn session_is_run()
    ensures { (bytes : List ℕ) (devices : List Device) (deck : Deck)
        → deck_of bytes devices true ≡ Ok deck → deck_of bytes devices false ≡ Ok deck }
{}

/// Each command of a deck ends before the later ones begin.
pub fn commands_are_apart()
    ensures { (bytes : List ℕ) (devices : List Device) (debugging : Bool) (deck : Deck)
        → deck_of bytes devices debugging ≡ Ok deck → AllPairs (λ before after. before.end < after.start) deck.commands }
{}

/// The UNPLUG lines of a deck name devices, each another one, at times within the limit, and there are no more lines of ORDER than
/// a deck may have.
pub fn unplugs_are_apart()
    ensures unplugs { (bytes : List ℕ) (devices : List Device) (debugging : Bool) (deck : Deck)
        → deck_of bytes devices debugging ≡ Ok deck → NameDevices devices deck.unplugs }
    ensures times { (bytes : List ℕ) (devices : List Device) (debugging : Bool) (deck : Deck)
        → deck_of bytes devices debugging ≡ Ok deck → All (λ unplug. unplug.time ≤ MOST_TIMES) deck.unplugs }
    ensures orders { (bytes : List ℕ) (devices : List Device) (debugging : Bool) (deck : Deck)
        → deck_of bytes devices debugging ≡ Ok deck → length deck.orders ≤ MOST_ORDERS }
{}
