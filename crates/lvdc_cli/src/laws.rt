//! What the answers of two commands tell of each other, as a law over their definitions: a function that does nothing.

ghost use Rattle.std.specs.Prelude.{◌≡◌, ℕ, false, List, None, Some, Ok};
ghost use Rattle.lvdc_port.specs.Device.{Device};
ghost use Rattle.lvdc_text.specs.Lines.{NumberedLine};
ghost use Rattle.lvdc_image.specs.Image.{image_text};
ghost use Rattle.lvdc_reply.specs.Answer.{answer_with};
ghost use Rattle.lvdc_command_asm.specs.declared.reply.Product.TheVariants.{Image};
ghost use Rattle.lvdc_deck.specs.Deck.{deck_of};
ghost use Rattle.lvdc_deck.specs.Loading.{source_in, HasLines};
ghost use Rattle.lvdc_deck.specs.declared.deck.Deck.{Deck};
ghost use Rattle.lvdc_command_run.specs.Trials.{trial_of};
ghost use Rattle.lvdc_cli.specs.Commands.{command_answer};
ghost use Rattle.lvdc_cli.specs.declared.command.Command.TheVariants.{Assemble};

use lvdc_command_run::source_is_loaded;

/// A run of a deck that begins with a source starts with exactly the image that `asm --image` prints of the same lines.
pub fn source_is_printed()
    ensures { (bytes own : List ℕ) (devices other : List Device) (deck : Deck) (source : List NumberedLine)
        → deck_of bytes devices false ≡ Ok deck → source_in bytes ≡ Some source → HasLines own source
        → command_answer (Assemble Image) own other
        ≡ answer_with 0 (image_text (record { words = (trial_of devices deck).opening.image; start = None; banks = 0 })) other }
{
    source_is_loaded();
}
