//! What placements are like, as laws over their definitions: functions that do nothing.

ghost use Rattle.std.specs.Prelude.{◌≡◌, ℕ, ◌<◌, true, List, [], ◌∷◌, Some, Ok};
ghost use Rattle.lvdc_map.specs.Address.{Spot};
ghost use Rattle.lvdc_source.specs.Items.{IsProgram};
ghost use Rattle.lvdc_source.specs.declared.item.Item.{Item};
ghost use Rattle.lvdc_place.specs.Apart.{StandApart, StandAs};
ghost use Rattle.lvdc_place.specs.Placement.{Placement, placement};
ghost use Rattle.lvdc_place.specs.Slot.{slot_of};
ghost use Rattle.lvdc_place.specs.Slots.{Slots, are_free, pool_place};

/// No two lines of a program that is placed share a slot, and each line stands as what it says.
pub fn placed_lines()
    ensures apart { (items : List Item) (placed : Placement) → IsProgram items → placement items ≡ Ok placed → StandApart items placed.spots placed.taken }
    ensures forms { (items : List Item) (placed : Placement) → placement items ≡ Ok placed → StandAs items placed.spots }
{}

/// A pooled word finds a place in its sector that is free.
pub fn pooled_places()
    ensures free { (taken : Slots) (pair sector : ℕ) (at : Spot) → pool_place taken pair sector ≡ Some at
        → are_free taken (slot_of at 0 ∷ slot_of at 1 ∷ []) ≡ true }
    ensures sector { (taken : Slots) (pair sector : ℕ) (at : Spot) → sector < 16 → pool_place taken pair sector ≡ Some at
        → (at.pair ≡ pair) × (at.sector ≡ sector) }
{}
