ghost use Rattle.std.specs.Prelude.{◌≡◌, ◌≤◌, ◌<◌, ◌^◌, ◌++◌, length, All, OnOk, codes};
ghost use Rattle.lvdc_text.specs.Numbers.{octal_text};
ghost use Rattle.lvdc_lines.specs.Noted.{direction, exchange_line, IsInRange, log_text};

use lvdc_plain::Exchange;
use lvdc_text::{fill_octal, put_decimal};
use lvdc_word::{NoMemory, Word};

fn direction(reading: bool) -> &'static [u8]
    ensures { result.now ≡ direction reading }
{
    if reading { b"IN " } else { b"OUT " }
}

/// What stands behind the time in the line of an exchange: the port and the word, each with a blank before it, and LF.
#[inline(always)]
fn behind_time(port: u8, word: Word) -> [u8; 15]
    ensures value { result ≡ codes " " ++ octal_text 3 port ++ codes " " ++ octal_text 9 word ++ codes "\n" }
    ensures range { word < 2 ^ 26 }
{
    let mut text = *b" 000 000000000\n";
    fill_octal(&mut text[1..4], u64::from(port));
    fill_octal(&mut text[5..14], u64::from(word.value()));
    text
}

/// Adds the line of a port exchange.
pub fn put_exchange_line(out: &mut Vec<u8>, exchange: &Exchange) -> Result<(), NoMemory>
    ensures line { OnOk result (out.new.items ≡ out.old.items ++ exchange_line exchange.now) }
    ensures short { OnOk result (length (exchange_line exchange.now) ≤ 39) }
    ensures ranges { OnOk result (IsInRange exchange.now) }
{
    out.extend_from_slice(direction(exchange.reading))?;
    put_decimal(out, exchange.time)?;
    out.extend_from_slice(&behind_time(exchange.port, exchange.word))?;
    Ok(())
}

/// Adds the lines of the port log, in its order.
pub fn put_log(out: &mut Vec<u8>, log: &[Exchange]) -> Result<(), NoMemory>
    ensures log { OnOk result (out.new.items ≡ out.old.items ++ log_text log.now) }
    ensures short { OnOk result (All (λ exchange. length (exchange_line exchange) ≤ 39) log.now) }
    ensures ranges { OnOk result (All IsInRange log.now) }
{
    for exchange in log {
        put_exchange_line(out, exchange)?;
    }
    Ok(())
}
