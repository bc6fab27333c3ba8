//! Words as numbers and as names, as in the model. A number that is wider than 64 bits is none, since no form takes
//! one.
ghost use Rattle.std.specs.Prelude.{◌≡◌, nat_lt, true, ◌<◌, ◌≤◌, ◌+◌, ◌*◌, ◌-◌, ◌^◌, ◌∷◌, length, take, Some, IfSome, IfNone, ◌||◌};
ghost use Rattle.std.specs.List.{list_all, prefix_len, take_while};
ghost use Rattle.mh_model.specs.Bytes.{is_text, is_digit, is_letter, is_numeral, is_name, value_after, number, numbers, words};
ghost use Rattle.mh_model.specs.Forms.{within, u32};
ghost use Rattle.mh_text.specs.Auxiliary.{text_shown, words_left, BeginsWithNumberBefore, BeginsWithNumber};
ghost use Rattle.mh_text.specs.Words.{few_numbers};

use crate::pieces::Words;
use arrayvec::ArrayVec;

/// The most numbers that stand in one line.
pub const NUMBERS: usize = 4;

/// Below this a number has room for one more digit.
const SAFE: u64 = 1 << 60;

/// Whether two words are the same bytes.
#[inline(always)]
pub fn is_word(word: &[u8], other: &[u8]) -> bool
    ensures { result ≡ is_text word.now other.now }
{
    word.len() == other.len() && word.iter().zip(other).all(|(byte, own)| byte == own)
}

fn is_digit(byte: u8) -> bool
    ensures { result ≡ is_digit byte }
{
    byte.is_ascii_digit()
}

fn is_letter(byte: u8) -> bool
    ensures { result ≡ is_letter byte }
{
    byte.is_ascii_lowercase()
}

fn are_letters_or_digits(word: &[u8]) -> bool
    ensures { result ≡ list_all (λ c. is_letter c || is_digit c) word.now }
{
    word.iter().all(|byte| is_letter(*byte) || is_digit(*byte))
}

/// The number that one more digit makes of a small one. None if the byte is no digit.
fn with_digit(value: u64, byte: u8) -> Option<u64>
    requires { value < 10 ^ 18 }
    ensures value { IfSome result (λ sum. sum ≡ 10 * value + (byte - 48)) }
    ensures digit { IfSome result (λ _. is_digit byte ≡ true) }
    ensures small { IfSome result (λ sum. sum ≤ 10 * value + 9) }
{
    if is_digit(byte) {
        Some(value * 10 + u64::from(byte - b'0'))
    } else {
        None
    }
}

/// The number that eight digits write which a text begins with, and what follows them.
fn eight_digits(text: &[u8]) -> Option<(u64, &[u8])>
    ensures value { IfSome result (λ found. value_after 0 (take_while is_digit text.now) ≡ value_after found.0 (take_while is_digit found.1.now)) }
    ensures count { IfSome result (λ found. prefix_len is_digit text.now ≡ 8 + prefix_len is_digit found.1.now) }
    ensures length { IfSome result (λ found. length text.now ≡ 8 + length found.1.now) }
{
    let [a, b, c, d, e, f, g, h, rest @ ..] = text else {
        return None;
    };
    let two = with_digit(with_digit(0, *a)?, *b)?;
    let four = with_digit(with_digit(two, *c)?, *d)?;
    let six = with_digit(with_digit(four, *e)?, *f)?;
    let eight = with_digit(with_digit(six, *g)?, *h)?;
    Some((eight, rest))
}

/// The number that digits write which follow those of a number, and how many they are. None past 64 bits.
#[tactic(auto, using(crate::proofs::DigitLemmas::value_next, crate::proofs::DigitLemmas::value_stop, crate::proofs::DigitLemmas::value_end, crate::proofs::DigitLemmas::count_next, crate::proofs::DigitLemmas::count_stop, crate::proofs::DigitLemmas::count_end, crate::proofs::WordLemmas::value_after_grows))]
fn digits_after(start: u64, text: &[u8]) -> Option<(u64, usize)>
    ensures value { IfSome result (λ found. found.0 ≡ value_after start (take_while is_digit text.now)) }
    ensures count { IfSome result (λ found. found.1 ≡ prefix_len is_digit text.now) }
    ensures none { IfNone result (2 ^ 64 ≤ value_after start (take_while is_digit text.now)) }
{
    let mut value = start;
    for (count, byte) in text.iter().enumerate() {
        if !is_digit(*byte) {
            return Some((value, count));
        }
        let digit = u64::from(*byte - b'0');
        value = if value < SAFE {
            value * 10 + digit
        } else {
            value.checked_mul(10)?.checked_add(digit)?
        };
    }
    Some((value, text.len()))
}

/// The number that the digits write which a text begins with, and how many they are. None past 64 bits.
fn leading_digits(text: &[u8]) -> Option<(u64, usize)>
    ensures value { IfSome result (λ found. found.0 ≡ value_after 0 (take_while is_digit text.now)) }
    ensures count { IfSome result (λ found. found.1 ≡ prefix_len is_digit text.now) }
    ensures none { IfNone result (2 ^ 64 ≤ value_after 0 (take_while is_digit text.now)) }
{
    match eight_digits(text) {
        None => digits_after(0, text),
        Some((start, rest)) => {
            let (value, count) = digits_after(start, rest)?;
            Some((value, count + 8))
        }
    }
}

/// Whether so many digits, which a text begins with, are written without needless zeros.
#[tactic(auto, using(crate::proofs::DigitLemmas::numeral_one, crate::proofs::DigitLemmas::numeral_more))]
fn is_numeral(text: &[u8], count: usize) -> bool
    requires { count ≡ prefix_len is_digit text.now }
    ensures { result ≡ is_numeral (take count text.now) }
{
    match count {
        0 => false,
        1 => true,
        _ => text[0] != b'0',
    }
}

/// The number that a word is, written without needless zeros.
#[tactic(auto, using(crate::proofs::DigitLemmas::whole_number, crate::proofs::DigitLemmas::whole_numeral, crate::proofs::DigitLemmas::whole_other, crate::proofs::DigitLemmas::whole_large))]
pub fn number(word: &[u8]) -> Option<u64>
    ensures { result ≡ number word.now }
{
    let (value, count) = leading_digits(word)?;
    if count == word.len() && is_numeral(word, count) {
        Some(value)
    } else {
        None
    }
}

/// The number of several digits that a text begins with before this byte, and what follows that.
#[inline(never)]
#[tactic(auto, using(crate::proofs::PlainLemmas::long_number))]
fn long_number_before(end: u8, text: &[u8]) -> Option<(u64, &[u8])>
    ensures some { IfSome result (λ found. BeginsWithNumberBefore end text.now found.0 found.1.now) }
    ensures shorter { IfSome result (λ found. length found.1.now < length text.now) }
{
    let (value, count) = leading_digits(text)?;
    if count < text.len() && text[count] == end && is_numeral(text, count) {
        Some((value, &text[count + 1..]))
    } else {
        None
    }
}

/// The number that a text begins with before this byte, and what follows that. Most numbers have one digit or two.
#[inline(always)]
#[tactic(auto, using(crate::proofs::PlainLemmas::two_digits))]
pub(crate) fn number_before(end: u8, text: &[u8]) -> Option<(u64, &[u8])>
    ensures some { IfSome result (λ found. BeginsWithNumberBefore end text.now found.0 found.1.now) }
    ensures shorter { IfSome result (λ found. length found.1.now < length text.now) }
{
    if let [one, after, rest @ ..] = text
        && *after == end
        && is_digit(*one)
    {
        return Some((u64::from(*one - b'0'), rest));
    }
    if let [ten, one, after, rest @ ..] = text
        && *after == end
        && is_digit(*ten)
        && is_digit(*one)
        && *ten != b'0'
    {
        return Some((u64::from(*ten - b'0') * 10 + u64::from(*one - b'0'), rest));
    }
    long_number_before(end, text)
}

/// The number that the first word of a line is, and what follows the space after it.
#[tactic(auto, using(crate::proofs::DigitLemmas::first_too_large, crate::proofs::DigitLemmas::first_no_numeral, crate::proofs::DigitLemmas::first_alone, crate::proofs::DigitLemmas::first_then, crate::proofs::DigitLemmas::first_other))]
fn first_number(line: &[u8]) -> Option<(u64, Option<&[u8]>)>
    ensures some { IfSome result (λ found. BeginsWithNumber (words line.now) found.0 (words_left (text_shown found.1))) }
    ensures none { IfNone result (numbers (words line.now) ≡ None) }
{
    let (value, count) = leading_digits(line)?;
    if !is_numeral(line, count) {
        return None;
    }
    if count == line.len() {
        Some((value, None))
    } else if line[count] == b' ' {
        Some((value, Some(&line[count + 1..])))
    } else {
        None
    }
}

/// The numbers that the words are, if there are no more than one line has.
// Its loop is faster where it isn't unrolled into its callers.
#[inline(never)]
#[tactic(auto, using(crate::proofs::DigitLemmas::numbers_next, crate::proofs::DigitLemmas::numbers_stop, crate::proofs::WordLemmas::numbers_end))]
pub fn numbers(words: Words<'_>) -> Option<ArrayVec<u64, NUMBERS>>
    ensures some { IfSome result (λ found. few_numbers words.entry ≡ Some found.items) }
    ensures none { IfNone result (few_numbers words.entry ≡ None) }
{
    let mut found = ArrayVec::new();
    let mut left = words.left();
    while let Some(line) = left {
        if found.is_full() {
            return None;
        }
        let (number, rest) = first_number(line)?;
        found.push(number);
        left = rest;
    }
    Some(found)
}

/// A number of 32 bits.
pub fn small(number: u64) -> Option<u32>
    ensures { result ≡ within (nat_lt number u32) number }
{
    u32::try_from(number).ok()
}

/// Whether a word may name a session: letters and digits, a letter first, 16 at most.
#[tactic(auto, using(crate::proofs::WordLemmas::name_letter, crate::proofs::WordLemmas::name_other))]
pub fn is_name(word: &[u8]) -> bool
    ensures { result ≡ is_name word.now }
{
    match word {
        [] => false,
        [first, ..] => is_letter(*first) && are_letters_or_digits(word) && word.len() <= 16,
    }
}
