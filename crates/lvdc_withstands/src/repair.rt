//! What a program withstands that reads or stores its words often enough. These are laws over the definitions: each is the
//! contract of a function that does nothing when it runs, and that a proof cites by calling it.

ghost use Rattle.std.specs.Prelude.{◌≡◌, ℕ, ◌*◌, ◌≤◌, true, map};
ghost use Rattle.std.specs.List.{list_all};
ghost use Rattle.lvdc_plain.specs.Run.{IsOpening};
ghost use Rattle.lvdc_model.specs.Trial.{Trial};
ghost use Rattle.lvdc_withstands.specs.Repairs.{repairs};
ghost use Rattle.lvdc_withstands.specs.Scrubs.{Scrubs};
ghost use Rattle.lvdc_withstands.specs.Form.{lines_in};
ghost use Rattle.lvdc_model.specs.Runs.{guarded};
ghost use Rattle.lvdc_withstands.specs.Findings.{finding_of, is_damage_alone, findings};
ghost use Rattle.lvdc_withstands.specs.Withstood.{Masked, Withstood};

/// Where the program repairs the damage of the script each step of the run is admissible, and each word can be recovered.
pub fn repair_masks()
    ensures { (o : Trial) (count : ℕ) → IsOpening o.opening → repairs o count ≡ true → Masked o count }
{
    lvdc_laws_voted::ports_match();
    lvdc_laws_voted::guarded_run();
    lvdc_port::words_stay();
    lvdc_map::banks_are_held();
    lvdc_laws_phases::times_keep_words();
}

/// So the run comes to what the plain run comes to.
pub fn repair_withstands()
    ensures { (o : Trial) (count : ℕ) → IsOpening o.opening → repairs o count ≡ true → Withstood o count }
{
    repair_masks();
    lvdc_laws_voted::guarded_run();
    lvdc_laws_voted::guarded_times();
    lvdc_laws_voted::guarded_ends();
    lvdc_laws_voted::words_known();
}

/// A program that reads or stores each word at least every so many steps withstands damage without end, as long as no word is
/// hit twice within as many steps, in whichever twins.
pub fn scrub_withstands()
    ensures { (o : Trial) (count every : ℕ) → IsOpening o.opening → Scrubs o count every → Withstood o count }
{
    repair_withstands();
}

/// Every read finds: where the lines on memory are DAMAGE lines alone, the guarded machine repairs just what its reads meet
/// before a store does, in the order of these reads.
pub fn reads_find()
    ensures { (o : Trial) (count : ℕ) → IsOpening o.opening → repairs o count ≡ true
        → list_all is_damage_alone (lines_in count o.script) ≡ true
        → (steps : ℕ) → steps ≤ 3 * count → map finding_of (guarded o steps).repairs ≡ findings o steps }
{
    lvdc_laws_voted::ports_match();
    lvdc_laws_voted::guarded_run();
    lvdc_laws_voted::step_begun();
    lvdc_port::words_stay();
    lvdc_map::banks_are_held();
    lvdc_laws_phases::times_keep_words();
    lvdc_plain::stopped_run_stays();
    lvdc_twin::survivor_is_read();
}
