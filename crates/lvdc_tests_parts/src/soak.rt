use crate::same::same;
use lvdc_fault::Event;
use lvdc_soak_deck::soak_deck;
use std::alloc::Global;
use std::process::Abort;
use std::test::Fail;

/// The mask of the event, where it is damage.
fn mask_of(event: &Event) -> Option<u32> {
    match event {
        Event::Damage { mask, .. } => Some(mask.bits()),
        _ => None,
    }
}

/// The soak run of a number has drawn this as the first word of its program's data, and this as the mask of its last event.
fn draws(rt: &impl Abort, alloc: Global, number: u32, word: u32, mask: u32) -> Result<(), Fail> {
    let deck = soak_deck(alloc, number)?;
    let first = deck.image.words().get(13).map(|placed| placed.word.value());
    same(rt, first, Some(word));
    if deck.script.len() != 4096 {
        return Err("4,096 events".into());
    }
    same(rt, mask_of(deck.script.event(4095)), Some(mask));
    Ok(())
}

#[test]
fn a_soak_deck_is_drawn_from_its_number(rt: HostRuntime) -> Result<(), Fail> {
    let alloc = rt.alloc();
    draws(&rt, alloc, 0, 0o1403, 0o1000000000)?;
    draws(&rt, alloc, 1, 0o7063752, 0o200)?;
    draws(&rt, alloc, u32::MAX, 0o370717034, 0o100000)
}
