ghost use Rattle.std.specs.Prelude.{◌≡◌, ◌≢◌, ◌++◌, ◌∷◌, [], List, IfOk, IfErr, OnOk, Ok, Err, All, length, map, is_some};
ghost use Rattle.lvdc_place.specs.Apart.{StandApart};
ghost use Rattle.lvdc_place.specs.Slot.{Slot as Numbers};
ghost use Rattle.lvdc_place.specs.Slots.{set_of};
ghost use Rattle.lvdc_place.specs.Fitting.{Fits, FitsFixed, AllFit};
ghost use Rattle.lvdc_place.specs.Placement.{taken_after, taken_after_all, places_with, places_with_all, places_of, placement, placement_in, takes_place};
ghost use Rattle.lvdc_place.specs.declared.fault.PlaceFault.TheVariants.{NoMemory as WantsMemory};

use crate::block::{Block, SECTOR, blocks_of};
use crate::search::Search;
use crate::slot::Slot;
use crate::spot::spots_of;
use crate::taken::Taken;
use crate::{Layout, PlaceFault};
use lvdc_source::Program;
use std::alloc::Global;

/// A fixed block takes its slots, or is refused; another one waits.
fn fix(taken: &mut Taken, block: &Block) -> Result<(), PlaceFault>
    ensures fixed { IfOk result (λ _. taken_after (set_of taken.old) block.now block.now.site.at ≡ Ok (set_of taken.new)) }
    ensures refusal { IfErr result (λ fault. taken_after (set_of taken.old) block.now block.now.site.at ≡ Err fault) }
    ensures fits { OnOk result (FitsFixed block.now) }
{
    let place = match block.site.at {
        Some(place) => place,
        None => return Ok(()),
    };
    if u32::from(place.loc()) + u32::from(block.size) > u32::from(SECTOR) {
        return Err(PlaceFault::NoRoom(block.line));
    }
    if !taken.is_block_free(&block.site.kind, place, block.size) {
        return Err(PlaceFault::Overlap(block.line));
    }
    taken.take_block(&block.site.kind, place, block.size);
    Ok(())
}

/// The fixed blocks take their slots, in source order, or the first one that can't is refused.
fn fix_blocks(taken: &mut Taken, blocks: &[Block]) -> Result<(), PlaceFault>
    ensures fixed { IfOk result (λ _. taken_after_all (Ok (set_of taken.old)) blocks.now ≡ Ok (set_of taken.new)) }
    ensures refusal { IfErr result (λ fault. taken_after_all (Ok (set_of taken.old)) blocks.now ≡ Err fault) }
    ensures fits { OnOk result (All FitsFixed blocks.now) }
{
    for block in blocks {
        match fix(taken, block) {
            Ok(()) => {}
            Err(fault) => return Err(fault),
        }
    }
    Ok(())
}

/// Where a block stands: a fixed one at its place, another one at the least place where its slots are free, which it takes.
fn stand(search: &mut Search, block: &Block) -> Result<Slot, PlaceFault>
    requires { FitsFixed block.now }
    ensures stands { IfOk result (λ place. (so_far : List Numbers) →
        places_with (record { places = so_far; taken = set_of search.old }) block.now block.now.site.at
        ≡ Ok (record { places = so_far ++ place ∷ []; taken = set_of search.new })) }
    ensures refusal { IfErr result (λ fault. (so_far : List Numbers) →
        places_with (record { places = so_far; taken = set_of search.old }) block.now block.now.site.at ≡ Err fault) }
    ensures fits { IfOk result (Fits block.now.size) }
{
    match block.site.at {
        Some(place) => Ok(place),
        None => match search.float(block) {
            Some(place) => Ok(place),
            None => Err(PlaceFault::NoRoom(block.line)),
        },
    }
}

/// The places of blocks, in source order, of which the fixed ones have taken their slots.
fn stand_blocks(
    alloc: Global,
    search: &mut Search,
    blocks: &[Block],
) -> Result<Vec<Slot>, PlaceFault>
    requires { All FitsFixed blocks.now }
    ensures stand { IfOk result (λ places.
        places_with_all (Ok (record { places = []; taken = set_of search.old })) blocks.now
        ≡ Ok (record { places = places.items; taken = set_of search.new })) }
    ensures refusal { IfErr result (λ fault. fault ≢ WantsMemory →
        places_with_all (Ok (record { places = []; taken = set_of search.old })) blocks.now ≡ Err fault) }
    ensures fit { IfOk result (λ places. AllFit blocks.now places.items) }
{
    let mut places = Vec::new(alloc);
    for block in blocks {
        let place = match stand(search, block) {
            Ok(place) => place,
            Err(fault) => return Err(fault),
        };
        places.push(place)?;
    }
    Ok(places)
}

/// The places of blocks, in source order, and the slots that are taken then.
#[derive(Drop)]
struct Standing {
    places: Vec<Slot>,
    taken: Taken,
}

/// The places of the blocks of a program.
fn place_blocks(alloc: Global, blocks: &[Block]) -> Result<Standing, PlaceFault>
    ensures places { IfOk result (λ standing.
        places_of blocks.now ≡ Ok (record { places = standing.places.items; taken = set_of standing.taken })) }
    ensures refusal { IfErr result (λ fault. fault ≢ WantsMemory → places_of blocks.now ≡ Err fault) }
    ensures fit { IfOk result (λ standing. AllFit blocks.now standing.places.items) }
{
    let mut taken = Taken::new(alloc)?;
    match fix_blocks(&mut taken, blocks) {
        Ok(()) => {}
        Err(fault) => return Err(fault),
    }
    taken.reserve_saver();
    let mut search = Search::new(taken);
    match stand_blocks(alloc, &mut search, blocks) {
        Ok(places) => Ok(Standing {
            places,
            taken: search.into_taken(),
        }),
        Err(fault) => Err(fault),
    }
}

/// Places the blocks of a program: first the fixed ones in source order, then the floating ones, each at the least place where
/// all its slots are free (this project's profile).
pub fn place(alloc: Global, program: &Program) -> Result<Layout, PlaceFault>
    ensures layout { IfOk result (λ layout. placement program.now ≡ Ok (placement_in layout)) }
    ensures refusal { IfErr result (λ fault. fault ≢ WantsMemory → placement program.now ≡ Err fault) }
    // A spot for each item, and none exactly for those that take no place.
    ensures items { IfOk result (λ layout. length layout.spots ≡ length program.now) }
    ensures takes { IfOk result (λ layout.
        map is_some layout.spots ≡ map (λ item. takes_place item.body) program.now) }
    // No two lines share a slot, and the slots of all lines are taken.
    ensures apart { IfOk result (λ layout. StandApart program.now layout.spots (set_of layout.bits)) }
{
    let items = program.items();
    let blocks = blocks_of(alloc, items)?;
    let standing = match place_blocks(alloc, &blocks) {
        Ok(standing) => standing,
        Err(fault) => return Err(fault),
    };
    let spots = spots_of(alloc, items, &standing.places)?;
    Ok(Layout::new(spots, standing.taken))
}
