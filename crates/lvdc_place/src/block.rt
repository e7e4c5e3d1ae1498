ghost use Rattle.std.specs.Prelude.{◌≡◌, ◌<◌, min, map, IfOk};
ghost use Rattle.lvdc_place.specs.Blocks.{site_of, words_site, begins_block, size_of, size_ahead, blocks_of};
ghost use Rattle.lvdc_place.specs.Fitting.{IsInRange, AreInRange, capped_block};

use crate::slot::Slot;
use lvdc_source::{Body, Item};
use lvdc_word::NoMemory;
use std::alloc::Global;

/// How many locations a sector has.
pub(crate) const SECTOR: u16 = 256;

/// What a block is made of.
#[derive(Clone, Copy)]
pub(crate) enum Kind {
    /// Instructions, in one syllable of one sector. Such a block floats in the whole memory.
    Code,
    /// Words, both syllables of each. Such a block floats in the sector of this slot.
    Words(Slot),
}

/// What a directive begins.
#[derive(Clone, Copy)]
pub(crate) struct Site {
    pub(crate) kind: Kind,
    /// The place at which the block is fixed; none where it floats.
    pub(crate) at: Option<Slot>,
}

/// A block of a program.
#[derive(Clone, Copy)]
pub(crate) struct Block {
    /// The line of its directive.
    pub(crate) line: u32,
    pub(crate) site: Site,
    /// How many locations it takes. One that is larger than a sector has the size 257 here.
    pub(crate) size: u16,
}

/// What a line begins, where it begins a block.
fn site_of(body: &Body) -> Option<Site>
    requires { IsInRange body.now }
    ensures { result ≡ site_of body.now }
{
    match body {
        Body::Code => Some(Site {
            kind: Kind::Code,
            at: None,
        }),
        Body::Org { at, syl } => Some(Site {
            kind: Kind::Code,
            at: Some(Slot::of(*at, *syl)),
        }),
        Body::Words { pair, sector, loc } => Some(words_site(*pair, *sector, *loc)),
        Body::Sector { .. } | Body::Room(_) | Body::Constant(_) | Body::Instruction { .. } => None,
    }
}

/// What WORDS begins.
fn words_site(pair: u8, sector: u8, loc: Option<u8>) -> Site
    requires pair { pair < 4 }
    requires sector { sector < 16 }
    ensures { result ≡ words_site pair sector loc }
{
    Site {
        kind: Kind::Words(Slot::in_sector(pair, sector, 0)),
        at: match loc {
            Some(loc) => Some(Slot::in_sector(pair, sector, loc)),
            None => None,
        },
    }
}

/// Whether a line begins a block.
pub(crate) fn begins_block(body: &Body) -> bool
    ensures { result ≡ begins_block body.now }
{
    matches!(body, Body::Code | Body::Org { .. } | Body::Words { .. })
}

/// How many locations a line takes.
pub(crate) fn size_of(body: &Body) -> u16
    ensures { result ≡ size_of body.now }
{
    match body {
        Body::Code | Body::Org { .. } | Body::Words { .. } | Body::Sector { .. } => 0,
        Body::Room(count) => *count,
        Body::Constant(_) | Body::Instruction { .. } => 1,
    }
}

/// How many locations the lines before the next block take, but at most 257.
fn size_ahead(items: &[Item]) -> u16
    requires { AreInRange items.now }
    ensures { result ≡ min (size_ahead items.now) 257 }
{
    let mut size = 0;
    for item in items {
        if begins_block(&item.body) {
            return size;
        }
        size = (size + size_of(&item.body)).min(SECTOR + 1);
    }
    size
}

/// The blocks of a program, in order.
pub(crate) fn blocks_of(alloc: Global, items: &[Item]) -> Result<Vec<Block>, NoMemory>
    requires { AreInRange items.now }
    ensures { IfOk result (λ blocks. blocks.items ≡ map capped_block (blocks_of items.now)) }
{
    let mut blocks = Vec::new(alloc);
    for (index, item) in items.iter().enumerate() {
        let site = match site_of(&item.body) {
            Some(site) => site,
            None => continue,
        };
        let size = size_ahead(&items[index + 1..]);
        blocks.push(Block {
            line: item.line,
            site,
            size,
        })?;
    }
    Ok(blocks)
}
