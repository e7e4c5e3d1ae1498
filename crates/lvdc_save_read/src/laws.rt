//! What is printed of a saved state is read back, as laws: functions that do nothing.

ghost use Rattle.std.specs.Prelude.{◌≡◌, ℕ, List, All, Ok};
ghost use Rattle.lvdc_port.specs.Device.{Device};
ghost use Rattle.lvdc_save.specs.declared.saved.Saved.{Saved};
ghost use Rattle.lvdc_save.specs.Saved.{entries_of, saved_text};
ghost use Rattle.lvdc_save.specs.Reading.{nothing_said, and_then, whole_of, saved_of, told_entries};
ghost use Rattle.lvdc_save.specs.Printed.{IsPrinted};
ghost use Rattle.lvdc_save_read.specs.Accepted.{GoesWith, with_orders};

use lvdc_save::lines_are_read_back;

/// What the entries of a saved state say, one after the other, is that state with its orders written out: over the devices
/// that it goes with, no entry is refused. `next` is the line after the last one.
pub fn entries_say_the_state()
    ensures { (devices : List Device) (s : Saved) → GoesWith devices s → (next : ℕ)
        → and_then (told_entries devices 1 nothing_said (entries_of s)) (whole_of next) ≡ Ok (with_orders s) }
{}

/// The text of a saved state means that state, with its orders written out: over the devices that it goes with, where each of
/// its lines says its entry again.
pub fn printed_is_read_back()
    ensures { (devices : List Device) (s : Saved) → All IsPrinted (entries_of s) → GoesWith devices s
        → saved_of devices (saved_text s) ≡ Ok (with_orders s) }
{
    lines_are_read_back();
    entries_say_the_state();
}
