ghost use Rattle.std.specs.Prelude.{◌≡◌, ℕ, true, List, All, map};
ghost use Rattle.lvdc_plain.specs.Run.{Opening, IsOpening};
ghost use Rattle.lvdc_fault.specs.declared.named.Named.{Named};
ghost use Rattle.lvdc_fault.specs.declared.verdict.Verdict.TheVariants.{Admissible};
ghost use Rattle.lvdc_study.specs.Study as study;
ghost use Rattle.lvdc_campaign.specs.Campaign.{short_row, rows_of};

/// A law, which does nothing when it runs: the rows of a campaign are those of a study, in their shorter form.
pub fn rows_are_of_a_study()
    ensures { (program : Opening) (times : ℕ) (scripts : List Named) → map short_row (study.rows_of program times scripts) ≡ rows_of program times scripts }
{
    lvdc_study::no_difference_is_same();
}

/// A law: of the rows of scripts each admissible one is the same.
pub fn admissible_rows_are_same()
    ensures { (program : Opening) (times : ℕ) (scripts : List Named) → IsOpening program
        → All (λ row. row.verdict ≡ Admissible → row.same ≡ true) (rows_of program times scripts) }
{
    lvdc_runs::admissible_is_same();
}
