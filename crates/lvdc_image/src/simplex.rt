ghost use Rattle.std.specs.Prelude.{◌≡◌, ◌<◌};
ghost use Rattle.lvdc_image.specs.Reading.{names_pair, pair_bit, after_pair, banks_named, banks_in};

use lvdc_map::Banks;

/// Whether the text begins with the name of this pair: a single space and its digit.
fn names_pair(text: &[u8], pair: u8) -> bool
    requires { pair < 4 }
    ensures { result ≡ names_pair pair text.now }
{
    text.len() > 1 && text[0] == b' ' && text[1] == b'0' + pair
}

/// Bit `pair`, where the text begins with the name of this pair.
fn pair_bit(text: &[u8], pair: u8) -> u8
    requires { pair < 4 }
    ensures value { result ≡ pair_bit pair text.now }
    ensures small { result < 9 }
{
    if names_pair(text, pair) { 1 << pair } else { 0 }
}

/// The text after the name of this pair, where it begins with it.
fn after_pair(text: &[u8], pair: u8) -> &[u8]
    requires { pair < 4 }
    ensures { result.now ≡ after_pair pair text.now }
{
    if names_pair(text, pair) {
        &text[2..]
    } else {
        text
    }
}

/// The pairs that the text names in rising order, each at most once, and one at least.
#[tactic(auto, unfolding(crate::specs::Reading::banks_named))]
fn banks_named(text: &[u8]) -> Option<Banks>
    ensures { result ≡ banks_named text.now }
{
    let text_1 = after_pair(text, 0);
    let text_2 = after_pair(text_1, 1);
    let text_3 = after_pair(text_2, 2);
    let banks = pair_bit(text, 0) + pair_bit(text_1, 1) + pair_bit(text_2, 2) + pair_bit(text_3, 3);
    if after_pair(text_3, 3).is_empty() && banks != 0 {
        Banks::new(banks)
    } else {
        None
    }
}

/// The simplex pairs that the text names, where it is a SIMPLEX line.
#[tactic(auto, unfolding(crate::specs::Reading::banks_in))]
pub(crate) fn banks_in(text: &[u8]) -> Option<Banks>
    ensures { result ≡ banks_in text.now }
{
    banks_named(text.strip_prefix(b"SIMPLEX")?)
}
