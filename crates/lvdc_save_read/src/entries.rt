//! What a line says.

ghost use Rattle.std.specs.Prelude.{◌≡◌, ◌<◌, ◌≤◌, ◌+◌, ◌-◌, ◌^◌, ◌∷◌, ◌++◌, [], ℕ, List, length, map, codes, option_map, IfOk, IfSome, All};
ghost use Rattle.std.specs.List.{list_any};
ghost use Rattle.std.specs.Str.{bytes_eq};
ghost use Rattle.lvdc_map.specs.Banks.{IsPlace};
ghost use Rattle.lvdc_text.specs.Lines.{LiesIn, token_text};
ghost use Rattle.lvdc_save_read.specs.Sound.{IsEntry};
ghost use Rattle.lvdc_save.specs.Lines.{entry_line};
ghost use Rattle.lvdc_save.specs.Entries.{title_in, steps_line_in, count_line_in, pair_bit, simplex_line_in, copy_of, copy_line_in, select_of, select_line_in, cell_of, cell_line_in, word_of, word_line_in, exchange_of, exchange_line_in, switch_in, repair_of, repair_line_in, state_line_in, unplug_line_in, script_of, end_in, list_line_in, head_line_in, entry_in, entry_of};
ghost use Rattle.lvdc_lines.specs.Lines.{fault_in, order_in};

use crate::fields::{cell_in, port_in, spot_in, steps_in, times_in, twin_in, words_in};
use lvdc_lines::{decimal_in, event_of, order_of, place_in};
use lvdc_map::{Address, Banks, Placed};
use lvdc_model::Repair;
use lvdc_plain::{Exchange, Unplug};
use lvdc_port::Supply;
use lvdc_save::{CopyState, Entry, put_entry};
use lvdc_text::{Token, octal_word, spells, token_text, tokens};
use lvdc_twin::Held;
use lvdc_word::{Cell, NoMemory, Seq, Word};
use std::alloc::Global;

fn title_in(fields: &[Token]) -> Option<Entry>
    ensures entry { (text : List ℕ) → result ≡ title_in (map (token_text text) fields.now) }
    ensures ranges { IfSome result IsEntry }
{
    match fields {
        [_, _] => Some(Entry::Title),
        _ => None,
    }
}

fn steps_line_in(text: &[u8], fields: &[Token]) -> Option<Entry>
    requires { All (LiesIn text.now) fields.now }
    ensures entry { result ≡ steps_line_in (map (token_text text.now) fields.now) }
    ensures ranges { IfSome result IsEntry }
{
    let [steps] = fields else {
        return None;
    };
    Some(Entry::Steps(steps_in(token_text(text, steps))?))
}

fn count_line_in(text: &[u8], fields: &[Token]) -> Option<Entry>
    requires { All (LiesIn text.now) fields.now }
    ensures entry { result ≡ count_line_in (map (token_text text.now) fields.now) }
    ensures ranges { IfSome result IsEntry }
{
    let [count] = fields else {
        return None;
    };
    Some(Entry::Count(times_in(token_text(text, count))?))
}

/// Does one of the tokens name this pair?
fn names_pair(text: &[u8], fields: &[Token], pair: u8) -> bool
    requires pair { pair < 4 }
    requires within { All (LiesIn text.now) fields.now }
    ensures { result ≡ list_any (λ token. bytes_eq token ((48 + pair) ∷ [])) (map (token_text text.now) fields.now) }
{
    for field in fields {
        if token_text(text, field) == [b'0' + pair].as_slice() {
            return true;
        }
    }
    false
}

/// A bit for the pair that one of the tokens names.
fn pair_bit(text: &[u8], fields: &[Token], pair: u8) -> u8
    requires pair { pair < 4 }
    requires within { All (LiesIn text.now) fields.now }
    ensures value { result ≡ pair_bit pair (map (token_text text.now) fields.now) }
    ensures small { result ≤ 8 }
{
    if names_pair(text, fields, pair) {
        1 << pair
    } else {
        0
    }
}

fn simplex_line_in(text: &[u8], fields: &[Token]) -> Option<Entry>
    requires { All (LiesIn text.now) fields.now }
    ensures entry { result ≡ simplex_line_in (map (token_text text.now) fields.now) }
    ensures ranges { IfSome result IsEntry }
{
    let pairs = pair_bit(text, fields, 0)
        + pair_bit(text, fields, 1)
        + pair_bit(text, fields, 2)
        + pair_bit(text, fields, 3);
    if pairs == 0 {
        return None;
    }
    Some(Entry::Simplex(Banks::new(pairs)?))
}

/// The copy of these fields.
fn copy_of(
    number: Option<u64>,
    copy: Option<u64>,
    count: Option<u64>,
    latches: Option<Vec<Word>>,
) -> Option<Entry>
    requires number { IfSome number (λ n. n < 8) }
    requires copy { IfSome copy (λ n. n < 4) }
    ensures entry { result ≡ copy_of number copy count (option_map (λ words. words.items) latches) }
    ensures ranges { IfSome result IsEntry }
{
    let number = number?;
    let copy = copy?;
    let count = count?;
    let latches = latches?;
    Some(Entry::Copy(CopyState {
        number: number as u8,
        copy: copy as u8,
        count,
        latches: Seq::from_vec(latches),
    }))
}

fn copy_line_in(alloc: Global, text: &[u8], fields: &[Token]) -> Result<Option<Entry>, NoMemory>
    requires { All (LiesIn text.now) fields.now }
    ensures entry { IfOk result (λ found. found ≡ copy_line_in (map (token_text text.now) fields.now)) }
    ensures ranges { IfOk result (λ found. IfSome found IsEntry) }
{
    match fields {
        [number, copy, count, latches @ ..] => {
            let latches = words_in(alloc, text, latches)?;
            Ok(copy_of(
                decimal_in(1, 8, token_text(text, number)),
                decimal_in(1, 4, token_text(text, copy)),
                steps_in(token_text(text, count)),
                latches,
            ))
        }
        _ => Ok(None),
    }
}

/// The selection of these twins.
fn select_of(
    first: Option<u8>,
    second: Option<u8>,
    third: Option<u8>,
    fourth: Option<u8>,
) -> Option<Entry>
    requires first { IfSome first (λ twin. twin < 2) }
    requires second { IfSome second (λ twin. twin < 2) }
    requires third { IfSome third (λ twin. twin < 2) }
    requires fourth { IfSome fourth (λ twin. twin < 2) }
    ensures entry { result ≡ select_of first second third fourth }
    ensures ranges { IfSome result IsEntry }
{
    Some(Entry::Select([first?, second?, third?, fourth?]))
}

fn select_line_in(text: &[u8], fields: &[Token]) -> Option<Entry>
    requires { All (LiesIn text.now) fields.now }
    ensures entry { result ≡ select_line_in (map (token_text text.now) fields.now) }
    ensures ranges { IfSome result IsEntry }
{
    match fields {
        [first, second, third, fourth] => select_of(
            twin_in(token_text(text, first)),
            twin_in(token_text(text, second)),
            twin_in(token_text(text, third)),
            twin_in(token_text(text, fourth)),
        ),
        _ => None,
    }
}

/// The cell of these fields.
fn cell_of(twin: Option<u8>, at: Option<Address>, cell: Option<Cell>) -> Option<Entry>
    requires twin { IfSome twin (λ twin. twin < 2) }
    requires at { IfSome at IsPlace }
    ensures entry { result ≡ cell_of twin at cell }
    ensures ranges { IfSome result IsEntry }
{
    Some(Entry::Cell(Held {
        twin: twin?,
        at: at?,
        cell: cell?,
    }))
}

fn cell_line_in(text: &[u8], fields: &[Token]) -> Option<Entry>
    requires { All (LiesIn text.now) fields.now }
    ensures entry { result ≡ cell_line_in (map (token_text text.now) fields.now) }
    ensures ranges { IfSome result IsEntry }
{
    match fields {
        [twin, pair, sector, loc, cell] => cell_of(
            twin_in(token_text(text, twin)),
            place_in(
                token_text(text, pair),
                token_text(text, sector),
                token_text(text, loc),
            ),
            cell_in(token_text(text, cell)),
        ),
        _ => None,
    }
}

/// The word of these fields.
fn word_of(at: Option<Address>, word: Option<Word>) -> Option<Entry>
    ensures entry { result ≡ word_of at word }
    ensures ranges { IfSome result IsEntry }
{
    Some(Entry::Word(Placed {
        at: at?,
        word: word?,
    }))
}

fn word_line_in(text: &[u8], fields: &[Token]) -> Option<Entry>
    requires { All (LiesIn text.now) fields.now }
    ensures entry { result ≡ word_line_in (map (token_text text.now) fields.now) }
    ensures ranges { IfSome result IsEntry }
{
    match fields {
        [pair, sector, loc, word] => word_of(
            spot_in(
                token_text(text, pair),
                token_text(text, sector),
                token_text(text, loc),
            ),
            octal_word(token_text(text, word)),
        ),
        _ => None,
    }
}

/// The port exchange of these fields.
fn exchange_of(
    reading: bool,
    time: Option<u64>,
    port: Option<u8>,
    word: Option<Word>,
) -> Option<Entry>
    ensures entry { result ≡ exchange_of reading time port word }
    ensures ranges { IfSome result IsEntry }
{
    Some(Entry::Exchange(Exchange {
        time: time?,
        port: port?,
        reading,
        word: word?,
    }))
}

fn exchange_line_in(reading: bool, text: &[u8], fields: &[Token]) -> Option<Entry>
    requires { All (LiesIn text.now) fields.now }
    ensures entry { result ≡ exchange_line_in reading (map (token_text text.now) fields.now) }
    ensures ranges { IfSome result IsEntry }
{
    match fields {
        [time, port, word] => exchange_of(
            reading,
            times_in(token_text(text, time)),
            port_in(token_text(text, port)),
            octal_word(token_text(text, word)),
        ),
        _ => None,
    }
}

/// Whether SWITCH stands at the end.
fn switch_in(fields: &[Token]) -> Option<bool>
    ensures { (text : List ℕ) → result ≡ switch_in (map (token_text text) fields.now) }
{
    match fields {
        [] => Some(false),
        [_] => Some(true),
        _ => None,
    }
}

/// The repair of these fields.
fn repair_of(
    switched: Option<bool>,
    step: Option<u64>,
    at: Option<Address>,
    twin: Option<u8>,
) -> Option<Entry>
    requires { IfSome twin (λ twin. twin < 2) }
    ensures entry { result ≡ repair_of switched step at twin }
    ensures ranges { IfSome result IsEntry }
{
    Some(Entry::Repair(Repair {
        switched: switched?,
        step: step?,
        at: at?,
        twin: twin?,
    }))
}

fn repair_line_in(text: &[u8], fields: &[Token]) -> Option<Entry>
    requires { All (LiesIn text.now) fields.now }
    ensures entry { result ≡ repair_line_in (map (token_text text.now) fields.now) }
    ensures ranges { IfSome result IsEntry }
{
    match fields {
        [step, pair, sector, loc, twin, rest @ ..] => repair_of(
            switch_in(rest),
            steps_in(token_text(text, step)),
            spot_in(
                token_text(text, pair),
                token_text(text, sector),
                token_text(text, loc),
            ),
            twin_in(token_text(text, twin)),
        ),
        _ => None,
    }
}

fn state_line_in(text: &[u8], fields: &[Token]) -> Option<Entry>
    requires { All (LiesIn text.now) fields.now }
    ensures entry { result ≡ state_line_in (map (token_text text.now) fields.now) }
    ensures ranges { IfSome result IsEntry }
{
    let [port, word] = fields else {
        return None;
    };
    let port = port_in(token_text(text, port))?;
    let word = octal_word(token_text(text, word))?;
    Some(Entry::State(Supply { port, word }))
}

fn unplug_line_in(text: &[u8], fields: &[Token]) -> Option<Entry>
    requires { All (LiesIn text.now) fields.now }
    ensures entry { result ≡ unplug_line_in (map (token_text text.now) fields.now) }
    ensures ranges { IfSome result IsEntry }
{
    let [port, time] = fields else {
        return None;
    };
    let port = port_in(token_text(text, port))?;
    let time = times_in(token_text(text, time))?;
    Some(Entry::Unplug(Unplug { port, time }))
}

/// What a fault line or an order line with these tokens says.
fn script_line_in(text: &[u8], tokens: &[Token]) -> Option<Entry>
    requires { All (LiesIn text.now) tokens.now }
    ensures entry { result ≡ script_of (fault_in (map (token_text text.now) tokens.now)) (order_in (map (token_text text.now) tokens.now)) }
    ensures ranges { IfSome result IsEntry }
{
    match event_of(text, tokens) {
        Some(event) => Some(Entry::Fault(event)),
        None => Some(Entry::Order(order_of(text, tokens)?)),
    }
}

fn end_in(fields: &[Token]) -> Option<Entry>
    ensures entry { (text : List ℕ) → result ≡ end_in (map (token_text text) fields.now) }
    ensures ranges { IfSome result IsEntry }
{
    match fields {
        [] => Some(Entry::End),
        _ => None,
    }
}

/// What a line of a list with these tokens says, of which the first has this text.
fn list_line_in(text: &[u8], word: &[u8], tokens: &[Token], fields: &[Token]) -> Option<Entry>
    requires within { All (LiesIn text.now) tokens.now }
    requires fields_within { All (LiesIn text.now) fields.now }
    requires parts { map (token_text text.now) tokens.now ≡ word.now ∷ map (token_text text.now) fields.now }
    ensures entry { result ≡ list_line_in word.now (map (token_text text.now) fields.now) }
    ensures ranges { IfSome result IsEntry }
{
    if spells(word, b"CELL") {
        cell_line_in(text, fields)
    } else if spells(word, b"WORD") {
        word_line_in(text, fields)
    } else if spells(word, b"IN") {
        exchange_line_in(true, text, fields)
    } else if spells(word, b"OUT") {
        exchange_line_in(false, text, fields)
    } else if spells(word, b"REPAIR") {
        repair_line_in(text, fields)
    } else if spells(word, b"STATE") {
        state_line_in(text, fields)
    } else if spells(word, b"UNPLUG") {
        unplug_line_in(text, fields)
    } else {
        script_line_in(text, tokens)
    }
}

/// What a line with these tokens says, of which the first has this text.
fn head_line_in(
    alloc: Global,
    text: &[u8],
    word: &[u8],
    tokens: &[Token],
    fields: &[Token],
) -> Result<Option<Entry>, NoMemory>
    requires within { All (LiesIn text.now) tokens.now }
    requires fields_within { All (LiesIn text.now) fields.now }
    requires parts { map (token_text text.now) tokens.now ≡ word.now ∷ map (token_text text.now) fields.now }
    ensures entry { IfOk result (λ found. found ≡ head_line_in word.now (map (token_text text.now) fields.now)) }
    ensures ranges { IfOk result (λ found. IfSome found IsEntry) }
{
    if spells(word, b"COPY") {
        return copy_line_in(alloc, text, fields);
    }
    Ok(if spells(word, b"LVDC") {
        title_in(fields)
    } else if spells(word, b"STEPS") {
        steps_line_in(text, fields)
    } else if spells(word, b"COUNT") {
        count_line_in(text, fields)
    } else if spells(word, b"SIMPLEX") {
        simplex_line_in(text, fields)
    } else if spells(word, b"SELECT") {
        select_line_in(text, fields)
    } else if spells(word, b"END") {
        end_in(fields)
    } else {
        list_line_in(text, word, tokens, fields)
    })
}

/// What a line with these tokens says.
fn entry_in(alloc: Global, text: &[u8], tokens: &[Token]) -> Result<Option<Entry>, NoMemory>
    requires { All (LiesIn text.now) tokens.now }
    ensures entry { IfOk result (λ found. found ≡ entry_in (map (token_text text.now) tokens.now)) }
    ensures ranges { IfOk result (λ found. IfSome found IsEntry) }
{
    match tokens {
        [first, fields @ ..] => head_line_in(alloc, text, token_text(text, first), tokens, fields),
        [] => Ok(None),
    }
}

/// Is the text the line of the entry?
fn is_line_of(alloc: Global, text: &[u8], entry: &Entry) -> Result<bool, NoMemory>
    ensures { IfOk result (λ is. is ≡ bytes_eq (entry_line entry.now) (text.now ++ codes "\n")) }
{
    let mut line = Vec::new(alloc);
    put_entry(&mut line, entry)?;
    let mut whole = Vec::with_capacity(alloc, text.len())?;
    whole.extend_from_slice(text)?;
    whole.extend_from_slice(b"\n")?;
    Ok(line.as_slice() == whole.as_slice())
}

/// What a line says, where it is the line of that.
pub(crate) fn entry_of(alloc: Global, text: &[u8]) -> Result<Option<Entry>, NoMemory>
    requires { length text.now < 2 ^ 32 - 1 }
    ensures entry { IfOk result (λ found. found ≡ entry_of text.now) }
    ensures ranges { IfOk result (λ found. IfSome found IsEntry) }
{
    let words = tokens(alloc, text)?;
    let Some(entry) = entry_in(alloc, text, words.as_slice())? else {
        return Ok(None);
    };
    if is_line_of(alloc, text, &entry)? {
        Ok(Some(entry))
    } else {
        Ok(None)
    }
}
