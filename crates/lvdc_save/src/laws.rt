//! What printing and reading have to do with one another, as laws: functions that do nothing.

ghost use Rattle.std.specs.Prelude.{◌≡◌, ◌+◌, ◌++◌, List, ℕ, All, length, codes, Some};
ghost use Rattle.lvdc_text.specs.Lines.{lines_of, numbered};
ghost use Rattle.lvdc_port.specs.Device.{Device};
ghost use Rattle.lvdc_save.specs.declared.entry.Entry.{Entry};
ghost use Rattle.lvdc_save.specs.declared.saved.Saved.{Saved};
ghost use Rattle.lvdc_save.specs.Lines.{entry_line};
ghost use Rattle.lvdc_save.specs.Entries.{entry_of};
ghost use Rattle.lvdc_save.specs.Saved.{entries_of, saved_text};
ghost use Rattle.lvdc_save.specs.Reading.{nothing_said, and_then, told_from, whole_of, saved_of, told_entries};
ghost use Rattle.lvdc_save.specs.Printed.{IsPrinted};

/// The line of an entry says the entry again, and the lines of a saved text are those of its entries, one for each. So what
/// its lines come to over any devices is what its entries come to, one after the other; and that decides what the text means.
pub fn lines_are_read_back()
    ensures line { (entry : Entry) (text : List ℕ) → IsPrinted entry → entry_line entry ≡ text ++ codes "\n"
        → entry_of text ≡ Some entry }
    ensures count { (saved : Saved) → All IsPrinted (entries_of saved)
        → length (lines_of (saved_text saved)) ≡ length (entries_of saved) }
    ensures told { (devices : List Device) (saved : Saved) → All IsPrinted (entries_of saved)
        → told_from devices nothing_said (numbered (saved_text saved) (lines_of (saved_text saved)))
        ≡ told_entries devices 1 nothing_said (entries_of saved) }
    ensures saved { (devices : List Device) (saved : Saved) → All IsPrinted (entries_of saved)
        → saved_of devices (saved_text saved)
        ≡ and_then (told_entries devices 1 nothing_said (entries_of saved)) (whole_of (length (entries_of saved) + 1)) }
{}
