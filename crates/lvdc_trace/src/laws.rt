//! What a guarded trace says of the plain run, as a law over the definitions: a function that does nothing.

ghost use Rattle.lvdc_plain.specs.Run.{IsOpening};
ghost use Rattle.lvdc_model.specs.Trial.{Trial};
ghost use Rattle.lvdc_trace.specs.Plainly.{TellsPlainly};

/// In a guarded trace the FETCH, OPERAND and STORE lines of an instruction time are what the plain run fetches, reads and stores in
/// that time, and the votes after its last step are the plain run's registers.
pub fn trace_is_plain()
    ensures { (o : Trial) → IsOpening o.opening → TellsPlainly o }
{
    lvdc_laws_voted::guarded_run();
    lvdc_laws_voted::judges_alone();
    lvdc_laws_voted::guarded_times();
    lvdc_laws_voted::guarded_ends();
    lvdc_laws_voted::step_begun();
    lvdc_twin::survivor_is_read();
}
