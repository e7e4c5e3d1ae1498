ghost use Rattle.std.specs.Prelude.{◌≡◌, ℕ, []};
ghost use Rattle.lvdc_plain.specs.Run.{Opening, run};

/// A law, which does nothing when it runs: a plain run that has made no port exchange leaves the devices as they were, if none is taken
/// away.
pub fn quiet_runs_leave_devices()
    ensures { (o : Opening) → o.unplugs ≡ [] → (n : ℕ) → (run o n).plain.log ≡ [] → (run o n).devices ≡ o.devices }
{
    lvdc_laws_voted::ports_match();
}
