// The words of an input, read one after another.
ghost use Rattle.std.specs.Prelude.{◌≡◌, ◌<◌, ◌≤◌, true, false, length, is_ok, IfOk, Ok, MatchBool, ◌==◌};
ghost use Rattle.std.specs.Result.{result_ok};
ghost use Rattle.paelwisk.specs.Words.{First, left};

use std::fmt;
use std::str::FromStr;

// A word that is not what was expected, or the end of the input where a word was expected.
#[derive(Clone, Copy, PartialEq, Eq, Debug)]
pub struct BadWord<'t> {
    pub expected: &'static str,
    pub came: Option<&'t str>,
}

impl fmt::Display for BadWord<'_> {
    fn fmt<W: fmt::Write>(&self, f: &mut fmt::Formatter<W>) -> fmt::Result {
        let expected = self.expected;
        match self.came {
            Some(word) => write!(f, "expected {expected}, but '{word}' came"),
            None => write!(f, "expected {expected}, but the input ended"),
        }
    }
}

// The words that are not read yet.
#[derive(Clone, Copy)]
pub struct Words<'w, 't> {
    rest: &'w [&'t str],
}

impl<'w, 't> Words<'w, 't> {
    pub fn new(words: &'w [&'t str]) -> Words<'w, 't>
        ensures { result.rest.now ≡ words.now }
    {
        Words { rest: words }
    }

    // Reads the next word if it is this one.
    pub fn accept(&mut self, word: &str) -> bool
        ensures first { MatchBool result (First (λ w. w ≡ word.now) self.old.rest.now) (First (λ w. w ≡ word.now) self.old.rest.now → ⊥) }
        ensures rest { self.new.rest.now ≡ left result self.old.rest.now }
        ensures fewer { result ≡ true → length self.new.rest.now < length self.old.rest.now }
    {
        match self.rest {
            [first, rest @ ..] if *first == word => {
                self.rest = rest;
                true
            }
            _ => false,
        }
    }

    // Reads the next word, which has to be this one; `expected` names it.
    pub fn keyword(&mut self, word: &str, expected: &'static str) -> Result<(), BadWord<'t>>
        ensures first { MatchBool (is_ok result) (First (λ w. w ≡ word.now) self.old.rest.now) (First (λ w. w ≡ word.now) self.old.rest.now → ⊥) }
        ensures rest { self.new.rest.now ≡ left (is_ok result) self.old.rest.now }
    {
        if self.accept(word) {
            Ok(())
        } else {
            Err(self.bad(expected))
        }
    }

    // Reads the next word, which has to stand for a value; `expected` says which values there are.
    pub fn parse<N: FromStr>(&mut self, expected: &'static str) -> Result<N, BadWord<'t>>
    where
        N::Err: Drop,
        ensures read { IfOk result (λ n. First (λ w. N.from_str_gives w (Ok n)) self.old.rest.now) }
        ensures rest { self.new.rest.now ≡ left (is_ok result) self.old.rest.now }
        ensures no_more { length self.new.rest.now ≤ length self.old.rest.now }
    {
        let [first, rest @ ..] = self.rest else {
            return Err(self.bad(expected));
        };
        let value = first.parse::<N>().map_err(|_| self.bad(expected))?;
        self.rest = rest;
        Ok(value)
    }

    // Where no word may be left.
    pub fn end(&self, expected: &'static str) -> Result<(), BadWord<'t>>
        ensures { is_ok result ≡ (length self.now.rest.now == 0) }
    {
        if self.rest.is_empty() {
            Ok(())
        } else {
            Err(self.bad(expected))
        }
    }

    // The value that the next word stands for, where it has to be within its limits.
    pub fn require<T>(&self, value: Option<T>, expected: &'static str) -> Result<T, BadWord<'t>>
        ensures { result_ok result ≡ value }
    {
        value.ok_or(self.bad(expected))
    }

    // What is wrong with the next word.
    fn bad(&self, expected: &'static str) -> BadWord<'t> {
        let came = self.rest.first().copied();
        BadWord { expected, came }
    }
}
