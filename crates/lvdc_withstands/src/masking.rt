//! What the redundancy withstands, whatever program runs. These are laws over the definitions: each is the contract of a
//! function that does nothing when it runs, and that a proof cites by calling it. `form_withstands` is the law of scripts that
//! mask by form, and those after it are its corollaries, each for one kind of fault.

ghost use Rattle.std.specs.Prelude.{◌≡◌, ℕ, true};
ghost use Rattle.lvdc_plain.specs.Run.{IsOpening};
ghost use Rattle.lvdc_model.specs.Trial.{Trial};
ghost use Rattle.lvdc_withstands.specs.Form.{masks};
ghost use Rattle.lvdc_withstands.specs.Kinds.{InOneCopyEach, OneMemoryDead, OneBitEach, AllThree};
ghost use Rattle.lvdc_withstands.specs.Withstood.{Masked, Withstood};

/// Under a script that masks by form each step of the run is admissible, and each word can be recovered: for every image,
/// start, unplugs, devices and count.
pub fn form_masks()
    ensures { (o : Trial) (count : ℕ) → IsOpening o.opening → masks o.script o.opening.banks count ≡ true → Masked o count }
{
    crate::repair_masks();
}

/// So the run comes to what the plain run comes to, whatever it computes.
pub fn form_withstands()
    ensures { (o : Trial) (count : ℕ) → IsOpening o.opening → masks o.script o.opening.banks count ≡ true → Withstood o count }
{
    crate::repair_withstands();
}

/// One copy of each module may fail, in any way and at any time, for the whole flight.
pub fn one_copy_of_each()
    ensures { (o : Trial) (count : ℕ) (copy : ℕ → ℕ) → IsOpening o.opening → InOneCopyEach copy o.script → Withstood o count }
{
    form_withstands();
}

/// One of the two memories may die for good.
pub fn one_memory_dead()
    ensures { (o : Trial) (count twin : ℕ) → IsOpening o.opening → OneMemoryDead o.opening.banks count twin o.script → Withstood o count }
{
    form_withstands();
}

/// At each address of one memory a bit may be turned over, once.
pub fn one_bit_each()
    ensures { (o : Trial) (count twin : ℕ) → IsOpening o.opening → OneBitEach o.opening.banks twin o.script → Withstood o count }
{
    form_withstands();
}

/// All three at once: one copy of each module fails, and of one memory some pairs die and some cells are damaged.
pub fn all_at_once()
    ensures { (o : Trial) (count twin : ℕ) (copy : ℕ → ℕ) → IsOpening o.opening → AllThree copy o.opening.banks count twin o.script → Withstood o count }
{
    form_withstands();
}
