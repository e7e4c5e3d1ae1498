//! The rows of the names.

ghost use Rattle.std.specs.Prelude.{◌≡◌, ◌++◌, flat_map, OnOk};
ghost use Rattle.lvdc_text.specs.Joined.{text_of};
ghost use Rattle.lvdc_place.specs.Placement.{IsInPairs};
ghost use Rattle.lvdc_listing.specs.Listing.{placed_items, item_names};
ghost use Rattle.lvdc_listing.specs.Rows.{name_rows};

use crate::field::put_place;
use lvdc_asm::Assembly;
use lvdc_place::Spot;
use lvdc_text::{Piece, put, put_text};
use lvdc_word::NoMemory;

/// Appends the row of the name that a line defines, where it defines one.
fn put_name(out: &mut Vec<u8>, label: &[u8], spot: Option<Spot>) -> Result<(), NoMemory>
    requires { IsInPairs spot }
    ensures { OnOk result (out.new.items ≡ out.old.items ++ text_of (name_rows label.now spot)) }
{
    let Some(here) = spot else {
        return Ok(());
    };
    if label.is_empty() {
        return Ok(());
    }
    let (name, label) = (Piece::Bytes(b"NAME "), Piece::Bytes(label));
    put(out, &[name, label, Piece::Bytes(b" ")])?;
    put_place(out, &here)?;
    put_text(out, b"\n")
}

/// Appends the rows of the names, in the order of their definition.
pub(crate) fn put_names(out: &mut Vec<u8>, assembly: &Assembly) -> Result<(), NoMemory>
    ensures { OnOk result (out.new.items ≡ out.old.items ++ text_of (flat_map item_names (placed_items assembly.now))) }
{
    for (number, item) in assembly.items().iter().enumerate() {
        put_name(out, item.label.items(), assembly.spot(number))?;
    }
    Ok(())
}
