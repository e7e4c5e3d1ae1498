ghost use Rattle.std.specs.Prelude.{◌≡◌, ◌<◌, ◌≤◌, ◌++◌, length, true, IfOk, OnOk, All};
ghost use Rattle.lvdc_map.specs.Memory.{are_rising, AllThere};
ghost use Rattle.lvdc_fault.specs.Events.{IsEvent};
ghost use Rattle.lvdc_fault.specs.declared.TheConstants.{MOST_TIMES, MOST_EVENTS};
ghost use Rattle.lvdc_soak_deck.specs.Soak.{seed_of, next, drawn, after_draws, words_drawn, program, placed_from, image_from, flip_event, damage_event, used_place, events_from, soak_of};

use lvdc_deck::Deck;
use lvdc_fault::{Event, Script};
use lvdc_image::Image;
use lvdc_map::{Address, Banks, Hop, Placed};
use lvdc_orders::Orders;
use lvdc_word::{Cell, NoMemory, Seq, Word};
use std::alloc::Global;
use std::marker::Model;

/// The loop that a soak run makes, as the syllables 0 of sector 00.
const PROGRAM: [u16; 13] = [
    0o17000, 0o07001, 0o13000, 0o01002, 0o11003, 0o13003, 0o12017, 0o12416, 0o06004, 0o13005,
    0o17775, 0o13006, 0o10000,
];

/// How many words of sector 01 are drawn.
const DRAWN: u8 = 5;

/// How many pairs of events a script has: a FLIP and a DAMAGE.
const PAIRS: u64 = 2048;

/// The steps from an event to the next.
const APART: u64 = 146;

/// The instruction times of a soak run.
const TIMES: u64 = 200_000;

/// What draws the words of a soak run: a linear congruential generator modulo 2^31 (this project's profile).
#[derive(Drop)]
struct Generator {
    state: u32,
}

impl Model for Generator {
    ghost use Rattle.std.specs.Prelude.{ℕ, ◌<◌, ◌^◌};

    ghost Value = { ℕ };

    ghost view = { λ g. g.state };

    ghost invariant = { λ g. g.state < 2 ^ 31 };
}

impl Generator {
    /// The generator that begins with this number.
    fn new(number: u32) -> Generator
        ensures { result ≡ seed_of number }
    {
        Generator {
            state: number % (1 << 31),
        }
    }

    /// Draws a word.
    fn draw(&mut self) -> Word
        ensures state { self.new ≡ next self.old }
        ensures word { result ≡ drawn (next self.old) }
    {
        self.state = ((1_103_515_245 * u64::from(self.state) + 12_345) % (1 << 31)) as u32;
        Word::within(self.state / 16 % Word::LIMIT)
    }
}

/// Puts the loop where it stands.
fn put_program(words: &mut Vec<Placed>) -> Result<(), NoMemory>
    ensures { OnOk result (words.new.items ≡ words.old.items ++ placed_from 0 0 program) }
{
    for (loc, syllable) in PROGRAM.iter().enumerate() {
        let at = Address {
            pair: 0,
            sector: 0,
            loc: loc as u8,
        };
        words.push(Placed {
            at,
            word: Word::within(u32::from(*syllable)),
        })?;
    }
    Ok(())
}

/// Puts the words that the loop begins with, each a draw.
fn put_drawn(words: &mut Vec<Placed>, generator: &mut Generator) -> Result<(), NoMemory>
    ensures words { OnOk result (words.new.items ≡ words.old.items ++ placed_from 1 0 (words_drawn 5 generator.old)) }
    ensures state { OnOk result (generator.new ≡ after_draws 5 generator.old) }
{
    for loc in 0..DRAWN {
        let at = Address {
            pair: 0,
            sector: 1,
            loc,
        };
        words.push(Placed {
            at,
            word: generator.draw(),
        })?;
    }
    Ok(())
}

/// The image of the loop and of the words that it begins with.
fn image_from(alloc: Global, generator: &mut Generator) -> Result<Image, NoMemory>
    ensures image { IfOk result (λ image. image ≡ image_from generator.old) }
    ensures state { OnOk result (generator.new ≡ after_draws 5 generator.old) }
{
    let mut words = Vec::new(alloc);
    put_program(&mut words)?;
    put_drawn(&mut words, generator)?;
    Ok(Image::from_words(words))
}

/// Bits of latch 0 of a copy turned over at one step: each module in turn, and after each round the next copy.
fn flip_event(k: u64, drawn: Word) -> Event
    requires { k < 2048 }
    ensures event { result ≡ flip_event k drawn }
    ensures ranges { IsEvent result }
{
    let step = APART * (2 * k);
    Event::Flip {
        module: (k % 7) as u8 + 1,
        copy: (k / 7 % 3) as u8 + 1,
        first: step,
        last: step,
        index: 0,
        mask: Word::within(1 + drawn.value() % (Word::LIMIT - 1)),
    }
}

/// The place of a word that the loop uses: its own thirteen, then seven of sector 01.
fn used_place(number: u8) -> Address
    requires { number < 20 }
    ensures { result ≡ used_place number }
{
    let (sector, loc) = if number < 13 {
        (0, number)
    } else {
        (1, number - 13)
    };
    Address {
        pair: 0,
        sector,
        loc,
    }
}

/// One bit of a stored cell turned over: each word that the loop uses in turn, and after each round in the other twin.
fn damage_event(k: u64, drawn: Word) -> Event
    requires { k < 2048 }
    ensures event { result ≡ damage_event k drawn }
    ensures ranges { IsEvent result }
{
    Event::Damage {
        twin: (k / 20 % 2) as u8,
        at: used_place((k % 20) as u8),
        step: APART * (2 * k + 1),
        mask: Cell::within(1 << (drawn.value() % 28)),
    }
}

/// The script of a soak run, with a draw for each event.
fn script_from(alloc: Global, generator: &mut Generator) -> Result<Script, NoMemory>
    ensures script { IfOk result (λ script. script ≡ events_from 2048 0 generator.old) }
    ensures few { IfOk result (λ script. length script ≤ MOST_EVENTS) }
    ensures events { IfOk result (λ script. All IsEvent script) }
{
    let mut script = Script::new(alloc);
    for k in 0..PAIRS {
        script.push(flip_event(k, generator.draw()))?;
        script.push(damage_event(k, generator.draw()))?;
    }
    Ok(script)
}

/// The deck of the soak run of this number: a loop of thirteen instructions over words that the number draws, and 4,096
/// faults, in a latch and in a stored cell by turns, whose masks it draws (this project's profile). Numbers that differ
/// by 2^31 have one deck.
pub fn soak_deck(alloc: Global, number: u32) -> Result<Deck, NoMemory>
    ensures deck { IfOk result (λ deck. deck ≡ soak_of number) }
    ensures count { IfOk result (λ deck. deck.count ≤ MOST_TIMES) }
    ensures rising { IfOk result (λ deck. are_rising deck.image.words ≡ true) }
    ensures there { IfOk result (λ deck. AllThere deck.banks deck.image.words) }
    ensures few { IfOk result (λ deck. length deck.script ≤ MOST_EVENTS) }
    ensures events { IfOk result (λ deck. All IsEvent deck.script) }
{
    let mut generator = Generator::new(number);
    let image = image_from(alloc, &mut generator)?;
    let script = script_from(alloc, &mut generator)?;
    Ok(Deck {
        image,
        start: Hop::of(Word::within(0o16)),
        banks: Banks::DUPLEX,
        supplies: Seq::from_vec(Vec::new(alloc)),
        unplugs: Seq::from_vec(Vec::new(alloc)),
        script,
        orders: Orders::plain(),
        count: TIMES,
        commands: Seq::from_vec(Vec::new(alloc)),
        run_line: 0,
        other_line: None,
    })
}
