//! What a saved text tells of its run, as a law: a function that does nothing.

ghost use Rattle.std.specs.Prelude.{ℕ, List};
ghost use Rattle.lvdc_port.specs.Device.{Device};
ghost use Rattle.lvdc_command_save.specs.Halves.{IsSaveOf};
ghost use Rattle.lvdc_cli.specs.Alike.{AreAlike};
ghost use Rattle.lvdc_cli.specs.Goes.{TellsRun};

use lvdc_deck::unplugs_are_apart;
use lvdc_save_read::printed_is_read_back;

/// A text that was saved tells the run that it was saved from, over devices of the ports and kinds of those that were handed in,
/// each in its kind's first state.
pub fn saved_tells_run()
    ensures { (n : ℕ) (bytes : List ℕ) (before now : List Device) (text : List ℕ) → IsSaveOf n bytes before text → AreAlike before now
        → TellsRun bytes before now text }
{
    unplugs_are_apart();
    printed_is_read_back();
}
