//! The lines of repairs: which cells a read found bad.

ghost use Rattle.std.specs.Prelude.{◌≡◌, ◌<◌, ◌≤◌, ◌^◌, ◌++◌, length, All, OnOk};
ghost use Rattle.lvdc_map.specs.Address.{IsAddress};
ghost use Rattle.lvdc_lines.specs.Noted.{repair_line, repairs_text};

use lvdc_model::Repair;
use lvdc_text::{Piece, put_line};
use lvdc_word::NoMemory;

/// Adds the line of a repair.
#[tactic(auto, using(crate::proofs::LineSizes::repair_short))]
pub fn put_repair_line(out: &mut Vec<u8>, repair: &Repair) -> Result<(), NoMemory>
    ensures line { OnOk result (out.new.items ≡ out.old.items ++ repair_line repair.now) }
    ensures short { OnOk result (repair.now.step < 10 ^ 7 → length (repair_line repair.now) ≤ 35) }
    ensures at { OnOk result (IsAddress repair.now.at) }
{
    let step = Piece::Decimal(repair.step);
    let at = Piece::Address(repair.at);
    let twin = Piece::Small(repair.twin);
    if repair.switched {
        put_line(out, b"REPAIR", &[step, at, twin, Piece::Bytes(b"SWITCH")])
    } else {
        put_line(out, b"REPAIR", &[step, at, twin])
    }
}

/// Adds the lines of the repairs, in their order.
pub fn put_repairs(out: &mut Vec<u8>, repairs: &[Repair]) -> Result<(), NoMemory>
    ensures lines { OnOk result (out.new.items ≡ out.old.items ++ repairs_text repairs.now) }
    ensures short { OnOk result (All (λ repair. repair.step < 10 ^ 7 → length (repair_line repair) ≤ 35) repairs.now) }
    ensures at { OnOk result (All (λ repair. IsAddress repair.at) repairs.now) }
{
    for repair in repairs {
        put_repair_line(out, repair)?;
    }
    Ok(())
}
