ghost use Rattle.std.specs.Prelude.{◌≡◌, ℕ, ◌+◌, Some};
ghost use Rattle.lvdc_plain.specs.Run.{Opening, run};
ghost use Rattle.lvdc_plain.specs.declared.records.Stop.{Stop};

/// A plain run that has stopped stays where it is: a law over the definitions, for whoever calls it.
pub fn stopped_run_stays()
    ensures { (o : Opening) (times more : ℕ) (stop : Stop) → (run o times).plain.stop ≡ Some stop
        → run o (times + more) ≡ run o times }
{}
