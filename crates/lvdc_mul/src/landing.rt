ghost use Rattle.std.specs.Prelude.{◌≡◌, ℕ, ◌<◌, ◌^◌, Bool};
ghost use Rattle.lvdc_word.specs.Results.{product, quotient};
ghost use Rattle.lvdc_mul.specs.declared.control.Kind.TheVariants.{Divide};
ghost use Rattle.lvdc_mul.specs.Unit.{kind, multiply_kind, issued_multiply, issued_divide, after_phases};
ghost use Rattle.lvdc_mul.specs.Landing.{LandsOnlyIn};

/// A law of the unit, which does nothing when it runs: a multiply of two words lands their product in its last phase, and
/// its kind stays.
pub fn multiply_lands()
    ensures lands { (a m : ℕ) (high : Bool) → a < 2 ^ 26 → m < 2 ^ 26 → LandsOnlyIn 12 (product a m) (issued_multiply a m high) }
    ensures kind { (a m : ℕ) (high : Bool) (n : ℕ) → kind (after_phases n (issued_multiply a m high)) ≡ multiply_kind high }
{}

/// The same law of a divide and its quotient.
pub fn divide_lands()
    ensures lands { (a m : ℕ) → a < 2 ^ 26 → m < 2 ^ 26 → LandsOnlyIn 24 (quotient a m) (issued_divide a m) }
    ensures kind { (a m n : ℕ) → kind (after_phases n (issued_divide a m)) ≡ Divide }
{}
