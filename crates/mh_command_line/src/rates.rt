//! How fast mutators make blocks. Words count the header, since that is what size classes are of. The program reads
//! rates and not `clap`, which takes any text here.
ghost use Rattle.std.specs.Prelude.{◌≡◌, ◌≤◌, IfNone, IfSome, None, Some, option_map};
ghost use Rattle.mh_command_line.specs.Rates.{ReadsRates, asked_rate, asked_units, count_in, cut_once, none_rated, number_between, rated_of, rated_with, rates_in};

use mh_classes::class::class_of;
use mh_orders::rates::Rates;
use mh_text::pieces::split_at_byte;
use mh_text::word::number;
use std::str::FromStr;

/// The most blocks of a rate, the most units, and the most blocks of a burst.
const MOST_OF_A_RATE: u32 = 1_000_000;

/// Blocks of so many words, the header among them, of which so many are made to so many units, and so many more at once.
#[derive(Clone, Copy)]
pub(crate) struct Rate {
    pub(crate) words: u32,
    pub(crate) parts: u32,
    pub(crate) units: u32,
    pub(crate) burst: u32,
}

/// How fast blocks are made, as a word has it.
#[derive(Clone, Copy)]
pub(crate) struct AskedRates {
    pub(crate) rates: Rates,
}

/// A text that has no rates.
#[derive(Clone, Copy)]
pub(crate) struct NotRates;

/// The texts before and after a byte, if it stands in the text once.
fn cut_once(text: &[u8], byte: u8) -> Option<(&[u8], &[u8])>
    ensures some { IfSome result (λ cut. cut_once byte text.now ≡ Some (cut.0.now, cut.1.now)) }
    ensures none { IfNone result (cut_once byte text.now ≡ None) }
{
    let (before, after) = split_at_byte(text, byte)?;
    match split_at_byte(after, byte) {
        Some(_) => None,
        None => Some((before, after)),
    }
}

/// The number that a text is, if it is between these.
fn number_between(text: &[u8], least: u32, most: u32) -> Option<u32>
    ensures value { result ≡ number_between least most text.now }
    ensures within { IfSome result (λ number. (least ≤ number) × (number ≤ most)) }
{
    let value = number(text)?;
    if (u64::from(least)..=u64::from(most)).contains(&value) {
        Some(value as u32)
    } else {
        None
    }
}

/// A number of blocks or of units.
fn count_in(text: &[u8]) -> Option<u32>
    ensures value { result ≡ count_in text.now }
    ensures within { IfSome result (λ count. (1 ≤ count) × (count ≤ 1000000)) }
{
    number_between(text, 1, MOST_OF_A_RATE)
}

/// How many units `UNITS` or `UNITS+BURST` has, and how many blocks more at once.
fn units_in(text: &[u8]) -> Option<(u32, u32)>
    ensures value { result ≡ asked_units text.now }
    ensures units { IfSome result (λ found. (1 ≤ found.0) × (found.0 ≤ 1000000)) }
    ensures burst { IfSome result (λ found. found.1 ≤ 1000000) }
{
    match cut_once(text, b'+') {
        None => Some((count_in(text)?, 0)),
        Some((units, burst)) => Some((count_in(units)?, count_in(burst)?)),
    }
}

/// The rate of `WORDS:PARTS/UNITS` or `WORDS:PARTS/UNITS+BURST`.
fn rate_in(text: &[u8]) -> Option<Rate>
    ensures value { result ≡ asked_rate text.now }
    ensures words { IfSome result (λ rate. (4 ≤ rate.words) × (rate.words ≤ 64)) }
    ensures parts { IfSome result (λ rate. (1 ≤ rate.parts) × (rate.parts ≤ 1000000)) }
    ensures units { IfSome result (λ rate. (1 ≤ rate.units) × (rate.units ≤ 1000000)) }
    ensures burst { IfSome result (λ rate. rate.burst ≤ 1000000) }
{
    let (words, fraction) = cut_once(text, b':')?;
    let (parts, units) = cut_once(fraction, b'/')?;
    let words = number_between(words, 4, 64)?;
    let parts = count_in(parts)?;
    let (units, burst) = units_in(units)?;
    Some(Rate {
        words,
        parts,
        units,
        burst,
    })
}

fn none_rated() -> Rates
    ensures { rated_of result ≡ none_rated }
{
    Rates {
        parts: [0; 20],
        units: [1; 20],
        bursts: [0; 20],
    }
}

/// The rates with this one too, none if its class has one.
fn rated_with(rates: Rates, rate: Rate) -> Option<Rates>
    requires words { (4 ≤ rate.words) × (rate.words ≤ 64) }
    requires parts { (1 ≤ rate.parts) × (rate.parts ≤ 1000000) }
    requires units { (1 ≤ rate.units) × (rate.units ≤ 1000000) }
    requires burst { rate.burst ≤ 1000000 }
    ensures { option_map rated_of result ≡ rated_with (rated_of rates) rate }
{
    let class = class_of(rate.words as usize)?;
    let place = class.number();
    let mut parts = rates.parts;
    if parts[place] != 0 {
        return None;
    }
    parts[place] = rate.parts;
    let mut units = rates.units;
    units[place] = rate.units;
    let mut bursts = rates.bursts;
    bursts[place] = rate.burst;
    Some(Rates {
        parts,
        units,
        bursts,
    })
}

/// The rates of texts with a comma between each two.
fn rates_in(text: &[u8]) -> Option<Rates>
    ensures { option_map rated_of result ≡ rates_in text.now }
{
    let mut rates = none_rated();
    let mut rest = text;
    while let Some((first, next)) = split_at_byte(rest, b',') {
        rates = rated_with(rates, rate_in(first)?)?;
        rest = next;
    }
    rated_with(rates, rate_in(rest)?)
}

impl FromStr for AskedRates {
    type Err = NotRates;

    ghost from_str_gives = { ReadsRates };

    fn from_str(text: &str) -> Result<AskedRates, NotRates> {
        match rates_in(text.as_bytes()) {
            Some(rates) => Ok(AskedRates { rates }),
            None => Err(NotRates),
        }
    }
}
