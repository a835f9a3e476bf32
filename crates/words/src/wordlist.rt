//! The words of a text, in memory of their own.
ghost use Rattle.std.specs.Prelude.{◌≡◌, ◌+◌, ◌^◌, ◌<◌, ◌≤◌, List, [], ◌∷◌, ◌++◌, map, length, IfOk, vec_len, vec_capacity};
ghost use Rattle.words.specs.Texts.{words_of};
ghost use Rattle.words.specs.declared.word.Word.{Word};

use crate::cutting::{ForeignByte, run_len, sign, word};
use crate::named::Named;
use crate::naming::is_name_byte;
use crate::word::{Connective, Word};
use std::alloc::{AllocError, Global};

/// The most words of a rule.
pub const MOST_WORDS: usize = 200;

/// The first 200 words of a text, and how many it has.
// The count is no length: it goes on where the words are full.
#[derive(Drop)]
pub struct WordList {
    pub(crate) words: Vec<Word>,
    pub(crate) count: usize,
    ghost room: { 200 ≤ vec_capacity words },
    ghost few: { vec_len words ≤ 200 },
}

impl WordList {
    ghost use Rattle.words.specs.Lists.{Cut, Holds};

    /// No words; all the memory is taken here.
    pub fn new(heap: Global) -> Result<WordList, AllocError>
        ensures { IfOk result (λ l. (vec_len l.words ≡ 0) × (l.count ≡ 0)) }
    {
        let words = Vec::with_capacity(heap, MOST_WORDS)?;
        Ok(WordList { words, count: 0 })
    }

    /// How many words the text has.
    pub fn count(&self) -> usize
        ensures { result ≡ self.now.count }
    {
        self.count
    }

    /// The first words of the text, at most 200.
    pub fn as_slice(&self) -> &[Word]
        ensures items { result.now ≡ self.now.words.items }
        ensures few { length result.now ≤ 200 }
    {
        self.words.as_slice()
    }

    /// Takes one word more.
    fn add(&mut self, word: Word)
        requires { self.old.count + 1 < 2 ^ 64 }
        ensures words { (ws : List Word) → Holds ws self.old → Holds (ws ++ word ∷ []) self.new }
        ensures count { self.new.count ≡ self.old.count + 1 }
    {
        self.count += 1;
        if self.words.len() < MOST_WORDS {
            self.words.push_reserved(word);
        }
    }

    /// Takes the words of a text in place of those that it has; it may say that a byte is in no word.
    pub fn cut<T: Named>(&mut self, text: &[u8], signals: &[T]) -> Result<(), ForeignByte>
        requires { length signals.now ≤ 32 }
        ensures { Cut (words_of (map T.Named.label signals.now) text.now) self.new result }
    {
        self.words.clear();
        self.count = 0;
        let mut rest = text;
        loop {
            match rest {
                [] => return Ok(()),
                [b' ', behind @ ..] => rest = behind,
                [b'-', b'>', behind @ ..] => {
                    self.add(Word::Infix(Connective::Implies));
                    rest = behind;
                }
                [first, ..] if is_name_byte(*first) => {
                    let (run, behind) = rest.split_at(run_len(rest));
                    self.add(word(run, signals));
                    rest = behind;
                }
                [first, behind @ ..] => {
                    self.add(sign(*first as char).ok_or(ForeignByte)?);
                    rest = behind;
                }
            }
        }
    }
}
