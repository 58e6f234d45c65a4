//! Questions as words and numbers.
use crate::outs::Out;
use base_types::{Items, JobNo, Obj, StreamNo, Ws};
use syntax::{first_word, number_u64};

/// A question: its word, the numbers behind it, and the text behind these.
#[derive(Clone, Copy)]
pub struct Asked<'a> {
    pub word: &'a str,
    pub numbers: &'a [u64],
    pub text: &'a str,
}

/// The number that a word is. The kinds of objects and the answers to prompts are numbers too.
fn number(word: &str) -> Option<u64> {
    if word == "job" || word == "no" {
        return Some(0);
    }
    if word == "stream" || word == "yes" {
        return Some(1);
    }
    number_u64(word)
}

/// Adds the numbers at the front of a text, and gives what follows them.
pub fn add_numbers<'a>(out: &mut Out, found: &mut Items<u64>, text: &'a str) -> &'a str {
    let mut left = text;
    for word in text.split(' ') {
        let Some(n) = number(word) else {
            return left;
        };
        let done = found.push(n);
        out.done(done);
        left = first_word(left).1;
    }
    left
}

impl Asked<'_> {
    /// Whether this is asked, with so many numbers and nothing else.
    pub fn is(&self, word: &str, count: usize) -> bool {
        self.numbers.len() == count && self.text.is_empty() && self.word == word
    }

    /// Whether this is asked, with so many numbers and a text behind them.
    pub fn is_with_text(&self, word: &str, count: usize) -> bool {
        self.numbers.len() == count && self.word == word
    }

    /// The number at a place, counted from 0, and 0 where there is none.
    pub fn number(&self, place: usize) -> u64 {
        match self.numbers.get(place) {
            Some(n) => *n,
            None => 0,
        }
    }

    pub fn count(&self, place: usize) -> u32 {
        u32::try_from(self.number(place)).unwrap_or(u32::MAX)
    }

    pub fn small(&self, place: usize) -> u16 {
        u16::try_from(self.number(place)).unwrap_or(u16::MAX)
    }

    pub fn ws(&self, place: usize) -> Ws {
        Ws(self.small(place))
    }

    pub fn job(&self, place: usize) -> JobNo {
        JobNo(self.count(place))
    }

    pub fn stream(&self, place: usize) -> StreamNo {
        StreamNo(self.count(place))
    }

    /// The object of which a place has the kind, and the next place the number.
    pub fn object(&self, place: usize) -> Obj {
        if self.number(place) == 0 {
            Obj::Job(self.job(place.saturating_add(1)))
        } else {
            Obj::Stream(self.stream(place.saturating_add(1)))
        }
    }
}
