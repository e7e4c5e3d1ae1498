ghost use Rattle.std.specs.Prelude.{◌≡◌, ◌+◌, ◌<◌, ◌≤◌, true, IfOk};
ghost use Rattle.lvdc_place.specs.Slot.{slot_after, sector_start};
ghost use Rattle.lvdc_place.specs.Blocks.{size_ahead, blocks_of};
ghost use Rattle.lvdc_place.specs.Fitting.{AreInRange, AllFit};
ghost use Rattle.lvdc_place.specs.Placement.{takes_place, spot_in, spots_from, IsInPairs, AreInPairs};

use crate::block::{begins_block, size_of};
use crate::slot::Slot;
use lvdc_map::Address;
use lvdc_source::{Body, Item};
use lvdc_word::NoMemory;
use std::alloc::Global;

/// Where a line of a program stands.
#[derive(Clone, Copy)]
pub struct Spot {
    /// The word, or the first word of room; a pair below 4.
    pub at: Address,
    /// The syllable of an instruction, 0 or 1; none for a constant or room, which take whole words.
    pub syl: Option<u8>,
}

/// Where a line stands that is so many locations after the first slot of its block.
fn spot_in(body: &Body, first: Slot, offset: u16) -> Option<Spot>
    requires { takes_place body.now ≡ true → first.loc + offset < 256 }
    ensures value { result ≡ spot_in body.now (slot_after first offset) }
    ensures pair { IsInPairs result }
{
    match body {
        Body::Instruction { .. } => {
            let slot = first.onward(offset);
            Some(Spot {
                at: slot.address(),
                syl: Some(slot.syllable()),
            })
        }
        Body::Room(_) | Body::Constant(_) => Some(Spot {
            at: first.onward(offset).address(),
            syl: None,
        }),
        Body::Code | Body::Org { .. } | Body::Words { .. } | Body::Sector { .. } => None,
    }
}

/// Where the lines of a program stand, whose blocks have these places.
pub(crate) fn spots_of(
    alloc: Global,
    items: &[Item],
    places: &[Slot],
) -> Result<Vec<Option<Spot>>, NoMemory>
    requires ranges { AreInRange items.now }
    requires start { size_ahead items.now ≤ 256 }
    requires fit { AllFit (blocks_of items.now) places.now }
    ensures spots { IfOk result (λ spots. spots.items ≡ spots_from (sector_start 0 0) places.now items.now) }
    ensures pairs { IfOk result (λ spots. AreInPairs spots.items) }
{
    let mut spots = Vec::new(alloc);
    let mut begun = 0;
    let mut first = Slot::in_sector(0, 0, 0);
    let mut offset = 0;
    for item in items {
        spots.push(spot_in(&item.body, first, offset))?;
        if begins_block(&item.body) {
            first = places[begun];
            begun += 1;
            offset = 0;
            continue;
        }
        offset += size_of(&item.body);
    }
    Ok(spots)
}
