ghost use Rattle.std.specs.Prelude.{◌≡◌};
ghost use Rattle.lvdc_command_run.specs.Refusals.{refusal_status};

use lvdc_deck::DeckFault;

/// The status of a refusal: 4 where the program is no image, 3 where it is refused as a source, else 2.
pub(crate) fn refusal_status(fault: &DeckFault) -> u8
    ensures { result ≡ refusal_status fault.now }
{
    match fault {
        DeckFault::Image(_) => 4,
        DeckFault::Asm(_) => 3,
        _ => 2,
    }
}
