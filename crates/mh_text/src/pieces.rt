//! Texts cut into lines, and lines into words, as in the model. Each piece is a part of the text that was given, so
//! cutting takes no memory.
ghost use Rattle.std.specs.Prelude.{◌≡◌, ◌==◌, ◌<◌, ◌^◌, ◌+◌, ◌↔◌, [], ◌∷◌, ◌++◌, length, position, Some, None, IfSome, IfNone, IsTrue};
ghost use Rattle.mh_model.specs.{Bytes.{cut_after, words}, HistoryTexts.halves_at};
ghost use Rattle.mh_text.specs.{Pieces.{with_piece, lines_from, TakesLine}, Auxiliary.{text_shown, words_left}};

use crate::word::is_word;
use memchr::memchr;
use std::marker::Model;

/// The place of the first such byte.
fn place_of(text: &[u8], byte: u8) -> Option<usize>
    ensures { result ≡ position (λ b. b == byte) text.now }
{
    text.iter().position(|b| *b == byte)
}

/// The place of the first end of a line. A search by vectors pays for lines, which are longer than words.
#[tactic(auto, using(crate::proofs::PieceLemmas::place_searched))]
fn end_of_line(text: &[u8]) -> Option<usize>
    ensures { result ≡ position (λ b. b == 10) text.now }
{
    memchr(b'\n', text)
}

/// The bytes before the first `end`, and those after it.
#[tactic(auto, using(crate::proofs::PieceLemmas::place_found, crate::proofs::PieceLemmas::split_some, crate::proofs::PieceLemmas::split_whole, crate::proofs::PieceLemmas::split_alone, crate::proofs::PieceLemmas::split_none))]
pub fn split_at_byte(text: &[u8], end: u8) -> Option<(&[u8], &[u8])>
    ensures some { IfSome result
        (λ parts. cut_after end text.now ≡ with_piece parts.0.now (cut_after end parts.1.now)) }
    ensures none { IfNone result
        (cut_after end text.now ≡ record { pieces = []; rest = text.now }) }
    ensures whole { IfSome result (λ parts. text.now ≡ parts.0.now ++ end ∷ parts.1.now) }
    ensures first { IfSome result
        (λ parts. cut_after end parts.0.now ≡ record { pieces = []; rest = parts.0.now }) }
    ensures shorter { IfSome result (λ parts. length parts.1.now < length text.now) }
{
    let place = place_of(text, end)?;
    Some((&text[..place], &text[place + 1..]))
}

/// The bytes before the first word that is this one, and those after it. None if no word is there.
fn halves_of<'a>(line: &'a [u8], mark: &[u8]) -> Option<(Option<&'a [u8]>, Option<&'a [u8]>)>
    ensures some { IfSome result (λ halves. halves_at mark.now (words line.now)
        ≡ Some (record { before = words_left (text_shown halves.0); after = words_left (text_shown halves.1) })) }
    ensures none { IfNone result (halves_at mark.now (words line.now) ≡ None) }
{
    let mut before = None;
    let mut rest = line;
    while let Some((word, next)) = split_at_byte(rest, b' ') {
        if is_word(word, mark) {
            return Some((before, Some(next)));
        }
        before = Some(&line[..line.len() - next.len() - 1]);
        rest = next;
    }
    if is_word(rest, mark) {
        Some((before, None))
    } else {
        None
    }
}

/// The words of a line that are left.
#[derive(Debug, Drop)]
pub struct Words<'a> {
    left: Option<&'a [u8]>,
}

impl<'a> Model for Words<'a> {
    ghost use Rattle.std.specs.Prelude.{List, ℕ};
    ghost use Rattle.mh_text.specs.Auxiliary.{text_shown, words_left};

    ghost Value = { List (List ℕ) };

    ghost view = { λ words. words_left (text_shown words.left) };
}

impl<'a> Words<'a> {
    /// All words of a line, which is given without its end. An empty line has one word, which is empty.
    pub fn new(line: &'a [u8]) -> Words<'a>
        ensures { result ≡ words line.now }
    {
        Words { left: Some(line) }
    }

    /// Takes the next word, none after the last.
    pub fn next_word(&mut self) -> Option<&'a [u8]>
        ensures next { IfSome result (λ word. self.old ≡ word.now ∷ self.new) }
        ensures end { IfNone result (self.old ≡ []) }
        ensures ended { IfNone result (self.new ≡ []) }
    {
        let line = self.left?;
        match split_at_byte(line, b' ') {
            Some((word, rest)) => {
                self.left = Some(rest);
                Some(word)
            }
            None => {
                self.left = None;
                Some(line)
            }
        }
    }

    /// The bytes of the words, with a space between each two. None if no word is left.
    pub(crate) fn left(self) -> Option<&'a [u8]>
        ensures { self.entry ≡ words_left (text_shown result) }
    {
        self.left
    }

    /// The words before the first that is this one, and those after it.
    pub fn cut_at(self, mark: &[u8]) -> Option<(Words<'a>, Words<'a>)>
        ensures some { IfSome result (λ halves. halves_at mark.now self.entry
            ≡ Some (record { before = halves.0; after = halves.1 })) }
        ensures none { IfNone result (halves_at mark.now self.entry ≡ None) }
    {
        let (before, after) = halves_of(self.left?, mark)?;
        Some((Words { left: before }, Words { left: after }))
    }

    /// These words once more, for a second reading.
    pub fn copy(&self) -> Words<'a>
        ensures { result ≡ self.now }
    {
        Words { left: self.left }
    }
}

/// The lines of a text that are left, with their numbers from 1.
#[derive(Debug, Drop)]
pub struct Lines<'a> {
    pub(crate) text: &'a [u8],
    pub(crate) number: u64,
}

impl<'a> Model for Lines<'a> {
    ghost use Rattle.std.specs.Prelude.{◌+◌, ◌<◌, ◌^◌, length};
    ghost use Rattle.mh_text.specs.Pieces.{Lines, lines_from};

    ghost Value = { Lines };

    ghost view = { λ lines. lines_from lines.number lines.text.now };

    ghost invariant = { λ lines. lines.number + length lines.text.now < 2 ^ 64 };
}

impl<'a> Lines<'a> {
    /// All lines of a text. Bytes that no end of a line follows are no line.
    pub fn new(text: &'a [u8]) -> Lines<'a>
        requires { length text.now + 1 < 2 ^ 64 }
        ensures { result ≡ lines_from 1 text.now }
    {
        Lines { text, number: 1 }
    }

    /// The number of the next line; after the last line, of the one that would follow.
    pub fn number(&self) -> u64
        ensures { result ≡ self.now.number }
    {
        self.number
    }

    /// Takes the next line, with its number and without its end.
    #[tactic(auto, using(crate::proofs::PieceLemmas::place_found, crate::proofs::PieceLemmas::split_some, crate::proofs::PieceLemmas::split_none))]
    pub fn next_line(&mut self) -> Option<(u64, &'a [u8])>
        ensures next { IfSome result (λ line. TakesLine self.old self.new line.0 line.1.now) }
        ensures end { IfNone result (self.old.lines ≡ []) }
        ensures same { IfNone result (self.new ≡ self.old) }
    {
        let text = self.text;
        let end = end_of_line(text)?;
        let line = &text[..end];
        let number = self.number;
        self.text = &text[end + 1..];
        self.number += 1;
        Some((number, line))
    }

    /// Whether no byte is left, also none after the last line.
    pub fn is_empty(&self) -> bool
        ensures { IsTrue result ↔ ((self.now.rest ≡ []) × (self.now.lines ≡ [])) }
    {
        self.text.is_empty()
    }
}
