//! A law of the definitions, as the contract of a function that does nothing.

ghost use Rattle.std.specs.Prelude.{◌≡◌, ℕ, List, None};
ghost use Rattle.lvdc_fault.specs.Script.{wrong_module, NoneWrong};
ghost use Rattle.lvdc_fault.specs.declared.event.Event.{Event};

/// Where no module is named, none has two wrong copies.
pub fn none_wrong()
    ensures { (script : List Event) (step : ℕ) → wrong_module script step ≡ None
        → NoneWrong script step }
{}
