ghost use Rattle.std.specs.Prelude.{◌≡◌, ◌≤◌, ◌∷◌, [], IfSome};
ghost use Rattle.lvdc_text.specs.Words.{texts};
ghost use Rattle.lvdc_console.specs.Words.{first_of, count_of, traced, of_one, of_three, of_four, inquiry_of, most_bytes, IsInquiry};

use lvdc_machine::Mode;
use lvdc_text::plain_decimal;
use lvdc_trace::Window;

/// What is asked beside the commands of `lvdc`.
#[derive(Clone, Copy, PartialEq, Eq)]
pub enum Inquiry {
    /// `trace` and `trace --through` with two numbers: reads a deck and tells these steps of its run.
    Trace { mode: Mode, window: Window },
    /// `form`: reads a deck and tells whether its script masks by form.
    Form,
    /// `study`: reads a study and tells its rows.
    Study,
}

impl Inquiry {
    /// The inquiry that one word is.
    pub fn from_word(name: &str) -> Option<Inquiry>
        ensures value { result ≡ inquiry_of (name.now ∷ []) }
        ensures ranges { IfSome result IsInquiry }
    {
        of_one(name)
    }

    /// The inquiry that three words are. None has two.
    pub fn from_three_words(name: &str, first: &str, count: &str) -> Option<Inquiry>
        ensures value { result ≡ inquiry_of (name.now ∷ first.now ∷ count.now ∷ []) }
        ensures ranges { IfSome result IsInquiry }
    {
        of_three(name, first, count)
    }

    /// The inquiry that four words are. None has more.
    pub fn from_four_words(name: &str, flag: &str, first: &str, count: &str) -> Option<Inquiry>
        ensures value { result ≡ inquiry_of (name.now ∷ flag.now ∷ first.now ∷ count.now ∷ []) }
        ensures ranges { IfSome result IsInquiry }
    {
        of_four(name, flag, first, count)
    }

    /// The most bytes that are read for it.
    pub fn most_bytes(self) -> usize
        ensures { result ≡ most_bytes self }
    {
        match self {
            Inquiry::Trace { .. } | Inquiry::Form | Inquiry::Study => 1_048_576,
        }
    }
}

/// The first step of a trace.
#[tactic(auto, unfolding(crate::specs::Words::first_of))]
fn first_of(word: &str) -> Option<u64>
    ensures value { result ≡ first_of word.now }
    ensures most { IfSome result (λ first. first ≤ 3000000) }
{
    match plain_decimal(word.as_bytes(), 7) {
        Some(first) if first <= Window::LAST => Some(first),
        _ => None,
    }
}

/// How many steps a trace tells.
#[tactic(auto, unfolding(crate::specs::Words::count_of))]
fn count_of(word: &str) -> Option<u64>
    ensures value { result ≡ count_of word.now }
    ensures most { IfSome result (λ count. count ≤ 100000) }
{
    match plain_decimal(word.as_bytes(), 6) {
        Some(count) if 0 < count && count <= Window::MOST => Some(count),
        _ => None,
    }
}

/// The trace that two words ask for, where both are numbers.
fn traced(mode: Mode, first: &str, count: &str) -> Option<Inquiry>
    ensures value { result ≡ traced mode (first_of first.now) (count_of count.now) }
    ensures ranges { IfSome result IsInquiry }
{
    match first_of(first) {
        None => None,
        Some(first) => match count_of(count) {
            None => None,
            Some(count) => Some(Inquiry::Trace {
                mode,
                window: Window { first, count },
            }),
        },
    }
}

/// What two words ask for behind the name of an inquiry.
fn of_three(name: &str, first: &str, count: &str) -> Option<Inquiry>
    ensures value { result ≡ of_three name.now first.now count.now }
    ensures ranges { IfSome result IsInquiry }
{
    match name {
        "trace" => traced(Mode::Guarded, first, count),
        _ => None,
    }
}

/// What they ask for with a flag before them.
fn of_four(name: &str, flag: &str, first: &str, count: &str) -> Option<Inquiry>
    ensures value { result ≡ of_four name.now flag.now first.now count.now }
    ensures ranges { IfSome result IsInquiry }
{
    match name {
        "trace" => match flag {
            "--through" => traced(Mode::Through, first, count),
            _ => None,
        },
        _ => None,
    }
}

/// What is asked by a name alone.
fn of_one(name: &str) -> Option<Inquiry>
    ensures value { result ≡ of_one name.now }
    ensures ranges { IfSome result IsInquiry }
{
    match name {
        "form" => Some(Inquiry::Form),
        "study" => Some(Inquiry::Study),
        _ => None,
    }
}

/// The inquiry that the words are.
pub fn read_inquiry(words: &[String]) -> Option<Inquiry>
    ensures value { result ≡ inquiry_of (texts words.now) }
    ensures ranges { IfSome result IsInquiry }
{
    match words {
        [name] => of_one(name.as_str()),
        [name, first, count] => of_three(name.as_str(), first.as_str(), count.as_str()),
        [name, flag, first, count] => of_four(
            name.as_str(),
            flag.as_str(),
            first.as_str(),
            count.as_str(),
        ),
        _ => None,
    }
}
