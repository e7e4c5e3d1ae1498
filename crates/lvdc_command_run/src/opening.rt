//! What the run of a deck starts with are words, by the types of the deck's parts.

ghost use Rattle.std.specs.Prelude.{List};
ghost use Rattle.lvdc_port.specs.Device.{Device};
ghost use Rattle.lvdc_port.specs.Devices.{HoldWords};
ghost use Rattle.lvdc_plain.specs.Run.{IsOpening};
ghost use Rattle.lvdc_command_run.specs.Trials.{trial_of};

use lvdc_deck::Deck;
use lvdc_map::{is_hop_constant, places_words};
use lvdc_port::{supplies_words, words_stay};

/// Over devices that hold words it opens with words and a HOP constant. The call has no effect.
pub fn opens_with_words(deck: &Deck)
    ensures { (devices : List Device) → HoldWords devices → IsOpening (trial_of devices deck.now).opening }
{
    places_words(deck.image.words());
    supplies_words(deck.supplies.items());
    is_hop_constant(deck.start);
    words_stay();
}
