// The words of a line, separated by one space each, and the decimal numbers that they say. A second space makes an empty word, which
// nothing accepts.
ghost use Rattle.std.specs.Prelude.{◌≡◌, ◌==◌, ◌≤◌, ◌↔◌, ℕ, List, [], ◌∷◌, position, IfOk, IsOk, IfSome, MatchResult, length, ◌≢◌};
ghost use Rattle.script.specs.Decimal.{decimal_of};
ghost use Rattle.script.specs.Words.{words_of, others, number_in, next_number, last_number, last_flag};
ghost use Rattle.script.specs.Left.{words_left};
ghost use Rattle.std.specs.Iterator.{YieldsFirstRef, item_count};

use crate::line::Malformed;
use std::marker::Model;

// The words of a line that are still to be read: none, or those of what stands behind the last space that was passed. The library's `split`
// gives the same pieces, but its contract says of a single one only what its closure does.
#[derive(Drop)]
pub struct Words<'a> {
    left: Option<&'a [u8]>,
}

impl<'a> Model for Words<'a> {
    ghost Value = { List (List ℕ) };

    ghost view = { λ w. words_left w.left };
}

impl<'a> Words<'a> {
    // All words of a line.
    pub fn of(line: &'a [u8]) -> Self
        ensures { result ≡ words_of line.now }
    {
        Words { left: Some(line) }
    }

    // The next word, a number of at most `greatest`.
    #[tactic(auto, unfolding(crate::specs::Words::next_number))]
    pub fn number(&mut self, greatest: u64) -> Result<u64, Malformed>
        ensures number { result ≡ next_number greatest self.old }
        ensures within { IfOk result (λ value. value ≤ greatest) }
        ensures others { self.new ≡ others self.old }
    {
        match self.next() {
            Some(word) => number_in(word, greatest).ok_or(Malformed),
            None => Err(Malformed),
        }
    }

    // No word is left.
    pub fn end(mut self) -> Result<(), Malformed>
        ensures { IsOk result ↔ (self.entry ≡ []) }
    {
        match self.next() {
            Some(_) => Err(Malformed),
            None => Ok(()),
        }
    }

    // The only word that is left.
    pub fn only(mut self) -> Result<&'a [u8], Malformed>
        ensures { MatchResult result (λ word. self.entry ≡ word.now ∷ []) (λ _. length self.entry ≢ 1) }
    {
        let word = self.next().ok_or(Malformed)?;
        self.end()?;
        Ok(word)
    }

    // The same as `number`, where it is the last word.
    #[tactic(auto, unfolding(crate::specs::Words::next_number, crate::specs::Words::last_number))]
    pub fn last_number(mut self, greatest: u64) -> Result<u64, Malformed>
        ensures number { result ≡ last_number greatest self.entry }
        ensures within { IfOk result (λ value. value ≤ greatest) }
    {
        let value = self.number(greatest)?;
        self.end()?;
        Ok(value)
    }

    // A 1 or a 0, where it is the last word.
    #[tactic(auto, unfolding(crate::specs::Words::last_flag))]
    pub fn flag(self) -> Result<bool, Malformed>
        ensures { result ≡ last_flag self.entry }
    {
        Ok(self.last_number(1)? == 1)
    }
}

// The place of a text's first space.
fn first_space(text: &[u8]) -> Option<usize>
    ensures { result ≡ position (λ b. b == 32) text.now }
{
    text.iter().position(|b| *b == b' ')
}

// A text up to its first space, and what stands behind that space, where there is one.
#[tactic(auto, using(crate::proofs::WordLaws::cut_laws))]
fn cut(text: &[u8]) -> (&[u8], Option<&[u8]>)
    ensures { words_of text.now ≡ result.0.now ∷ words_left result.1 }
{
    match first_space(text) {
        Some(end) => (&text[..end], Some(&text[end + 1..])),
        None => (text, None),
    }
}

impl<'a> Iterator for Words<'a> {
    type Item = &'a [u8];

    ghost next_gives = { YieldsFirstRef (λ w. w) };

    ghost remaining = { item_count (λ w. w) };

    fn next(&mut self) -> Option<&'a [u8]> {
        let (word, left) = cut(self.left?);
        self.left = left;
        Some(word)
    }
}

// Decimal digits, one or more, that say a number below 2^64. (The library's `parse` takes a `+` before them.)
#[tactic(auto, using(crate::proofs::Digits::digit_laws))]
pub fn digits(word: &[u8]) -> Option<u64>
    ensures { result ≡ decimal_of word.now }
{
    if word.is_empty() {
        return None;
    }
    let mut value: u64 = 0;
    for byte in word {
        if !byte.is_ascii_digit() {
            return None;
        }
        value = value.checked_mul(10)?.checked_add(u64::from(*byte - b'0'))?;
    }
    Some(value)
}

// The number that a word says, where it is at most `greatest`.
#[tactic(auto, unfolding(crate::specs::Words::number_in))]
pub fn number_in(word: &[u8], greatest: u64) -> Option<u64>
    ensures number { result ≡ number_in greatest word.now }
    ensures within { IfSome result (λ value. value ≤ greatest) }
{
    digits(word).filter(|value| *value <= greatest)
}
