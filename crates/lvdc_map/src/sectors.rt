//! A value for each place of a memory, of which only those sectors take room in which something was put.

ghost use Rattle.std.specs.Prelude.{◌≡◌, ◌≢◌, ℕ, ◌+◌, ◌*◌, ◌/◌, ◌<◌, ◌≤◌, ◌++◌, true, replicate, length, IfOk, vec_capacity, slice_index_or, slice_set};
ghost use Rattle.lvdc_map.specs.Sectors.{stands_at, values_in, IsPaged};

use lvdc_word::NoMemory;
use std::alloc::Global;
use std::marker::Model;

/// A value for each of 32,768 places, in sectors of 256. It begins with the same value at all of them. A sector takes room from when
/// something is put there, so that making a table costs the same few instructions whatever it is for.
#[derive(Drop)]
pub struct Sectors<T: Copy> {
    blank: T,
    /// The page of each sector in `items`; 0 is the page of all sectors in which nothing was put.
    pages: [u8; 128],
    /// The number of the last page.
    last: u8,
    items: Vec<T>,
}

impl<T: Copy> Model for Sectors<T> {
    ghost use Rattle.std.specs.Prelude.{◌≡◌, ◌≤◌, vec_capacity, count_by};
    ghost use Rattle.lvdc_map.specs.Sectors.{Spread, values_in, is_own, IsPaged};

    ghost Value = { Spread T };

    ghost view = { λ s. record { blank = s.blank; items = values_in s.blank s.pages s.items.items } };

    ghost invariant = { λ s. IsPaged s.blank s.pages s.items.items × (s.last ≡ count_by is_own s.pages) × (33024 ≤ vec_capacity s.items) };
}

impl<T: Copy> Sectors<T> {
    /// A table with this value at all places.
    pub fn filled(alloc: Global, blank: T) -> Result<Sectors<T>, NoMemory>
        ensures blank { IfOk result (λ s. s.blank ≡ blank) }
        ensures size { IfOk result (λ s. length s.items ≡ 32768) }
        ensures all { IfOk result (λ s. (place : ℕ) (d : T) → place < 32768 → slice_index_or s.items place d ≡ blank) }
    {
        let mut items = Vec::with_capacity(alloc, 33024)?;
        items.resize(256, blank)?;
        Ok(Sectors {
            blank,
            pages: [0; 128],
            last: 0,
            items,
        })
    }

    /// The value of a place.
    #[inline(always)]
    pub fn at(&self, place: usize) -> T
        requires { place < 32768 }
        ensures value { (d : T) → result ≡ slice_index_or self.now.items place d }
    {
        self.items[stands(&self.pages, place)]
    }

    /// Puts a value at a place.
    #[inline(always)]
    pub fn put(&mut self, place: usize, value: T)
        requires { place < 32768 }
        ensures items { self.new.items ≡ slice_set self.old.items place value }
        ensures blank { self.new.blank ≡ self.old.blank }
    {
        let sector = place / 256;
        if self.pages[sector] == 0 {
            self.last += 1;
            open(
                &mut self.pages,
                &mut self.items,
                sector,
                self.last,
                self.blank,
            );
        }
        self.items[stands(&self.pages, place)] = value;
    }

    /// Is the value that all places had in the beginning still at each place of a sector? False says nothing.
    #[inline(always)]
    pub fn is_blank(&self, sector: usize) -> bool
        requires { sector < 128 }
        ensures { result ≡ true → (place : ℕ) (d : T) → place < 32768 → place / 256 ≡ sector → slice_index_or self.now.items place d ≡ self.now.blank }
    {
        self.pages[sector] == 0
    }
}

/// Where the value of a place stands.
#[inline(always)]
fn stands(pages: &[u8; 128], place: usize) -> usize
    requires { place < 32768 }
    ensures { result ≡ stands_at pages.now place }
{
    usize::from(pages[place / 256]) * 256 + place % 256
}

/// Gives a sector a page of its own, behind the others, in which each value is the blank one.
#[inline(never)]
fn open<T: Copy>(pages: &mut [u8; 128], items: &mut Vec<T>, sector: usize, page: u8, blank: T)
    requires sector { sector < 128 }
    requires room { length items.old.items + 256 ≤ vec_capacity items.old }
    ensures pages { pages.new ≡ slice_set pages.old sector page }
    ensures items { items.new.items ≡ items.old.items ++ replicate 256 blank }
    ensures room { vec_capacity items.old ≤ vec_capacity items.new }
{
    pages[sector] = page;
    match items.resize(items.len() + 256, blank) {
        Ok(()) => {}
        Err(_) => {}
    }
}
