ghost use Rattle.std.specs.Prelude.{◌≡◌, ◌∷◌, []};
ghost use Rattle.lvdc_text.specs.Words.{texts};
ghost use Rattle.lvdc_cli.specs.Words.{flagged, product_of, form_of, soak_number, times_of, of_one, of_two, command_of, reads_for, limit_of};

use crate::{LIMIT, SAVED_LIMIT};
use lvdc_command_asm::{Form, Product};
use lvdc_command_run::Engine;
use lvdc_text::decimal;

/// What is asked for.
#[derive(Clone, Copy, Debug, PartialEq, Eq)]
pub enum Command {
    /// `run`, `run --through` and `run --plain`: reads a deck and runs it.
    Run(Engine),
    /// `soak` with a number: runs the deck that the number draws.
    Soak(u32),
    /// `asm` and `asm --image`: reads a source and assembles it.
    Assemble(Product),
    /// `debug`: reads a deck and answers the commands of its debug session.
    Debug,
    /// `save` with a number: reads a deck, makes so many instruction times and writes the saved text.
    Save(u64),
    /// `resume`: reads a saved text and goes on with its run.
    Resume,
    /// `campaign`: reads a deck and scripts, and runs the deck under each of them.
    Campaign,
    /// `uplink`: reads an image and messages, and answers them and patches it.
    Uplink,
    /// `macro` and `macro --image`: reads a source with macros and writes it out, or assembles what is written out.
    Expand(Form),
}

impl Command {
    /// The command that one word is.
    pub fn from_word(word: &str) -> Option<Command>
        ensures { result ≡ command_of (word.now ∷ []) }
    {
        of_one(word)
    }

    /// The command that two words are. None has more words.
    pub fn from_two_words(first: &str, second: &str) -> Option<Command>
        ensures { result ≡ command_of (first.now ∷ second.now ∷ []) }
    {
        of_two(first, second)
    }

    /// Whether an input is read for it.
    pub fn reads(self) -> bool
        ensures { result ≡ reads_for self }
    {
        match self {
            Command::Run(_) => true,
            Command::Soak(_) => false,
            Command::Assemble(_) => true,
            Command::Debug => true,
            Command::Save(_) => true,
            Command::Resume => true,
            Command::Campaign => true,
            Command::Uplink => true,
            Command::Expand(_) => true,
        }
    }

    /// The most bytes that are read for it.
    pub fn limit(self) -> usize
        ensures { result ≡ limit_of self }
    {
        match self {
            Command::Resume => SAVED_LIMIT,
            _ => LIMIT,
        }
    }
}

/// The command that a flag after `run` asks for.
fn flagged(flag: &str) -> Option<Command>
    ensures { result ≡ flagged flag.now }
{
    match flag {
        "--plain" => Some(Command::Run(Engine::Plain)),
        "--through" => Some(Command::Run(Engine::Through)),
        _ => None,
    }
}

/// The command that a flag after `asm` asks for.
fn product_of(flag: &str) -> Option<Command>
    ensures { result ≡ product_of flag.now }
{
    match flag {
        "--image" => Some(Command::Assemble(Product::Image)),
        _ => None,
    }
}

/// The command that a flag after `macro` asks for.
fn form_of(flag: &str) -> Option<Command>
    ensures { result ≡ form_of flag.now }
{
    match flag {
        "--image" => Some(Command::Expand(Form::Image)),
        _ => None,
    }
}

/// The number after `soak`: one to ten decimal digits below 2^32.
#[tactic(auto, unfolding(crate::specs::Words::soak_number))]
fn soak_number(word: &str) -> Option<u32>
    ensures { result ≡ soak_number word.now }
{
    match decimal(word.as_bytes(), 10) {
        Some(number) if number <= u64::from(u32::MAX) => Some(number as u32),
        _ => None,
    }
}

/// The instruction times after `save`: one to seven decimal digits.
#[tactic(auto, unfolding(crate::specs::Words::times_of))]
fn times_of(word: &str) -> Option<u64>
    ensures { result ≡ times_of word.now }
{
    decimal(word.as_bytes(), 7)
}

/// What one word asks for.
fn of_one(word: &str) -> Option<Command>
    ensures { result ≡ of_one word.now }
{
    match word {
        "run" => Some(Command::Run(Engine::Guarded)),
        "asm" => Some(Command::Assemble(Product::Listing)),
        "debug" => Some(Command::Debug),
        "resume" => Some(Command::Resume),
        "campaign" => Some(Command::Campaign),
        "uplink" => Some(Command::Uplink),
        "macro" => Some(Command::Expand(Form::Source)),
        _ => None,
    }
}

/// What two words ask for.
fn of_two(first: &str, second: &str) -> Option<Command>
    ensures { result ≡ of_two first.now second.now }
{
    match first {
        "run" => flagged(second),
        "asm" => product_of(second),
        "macro" => form_of(second),
        "soak" => match soak_number(second) {
            Some(number) => Some(Command::Soak(number)),
            None => None,
        },
        "save" => match times_of(second) {
            Some(times) => Some(Command::Save(times)),
            None => None,
        },
        _ => None,
    }
}

/// The command that the words are, the program's own name not among them.
pub fn read_command(words: &[String]) -> Option<Command>
    ensures { result ≡ command_of (texts words.now) }
{
    match words {
        [first] => of_one(first.as_str()),
        [first, second] => of_two(first.as_str(), second.as_str()),
        _ => None,
    }
}
