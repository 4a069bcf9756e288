// The ranges that a trace has brought since the last ack, held as words: start, end, start, end, ...
ghost use Rattle.std.specs.Prelude.{◌≡◌, []};
ghost use Rattle.trace.specs.Held.{count_with, words_with};
ghost use Rattle.trace.specs.Reading.{held_with};

use crate::Range;
use std::marker::Model;

// 65 ranges: one more than an ack may bring, so that too many are seen as such.
pub const WORDS: usize = 130;

#[derive(Clone, Copy)]
pub struct Held {
    words: [u64; WORDS],
    count: usize,
}

// Clauses see the words that are held. They come in pairs, zeros stand behind them, and so they tell the whole array.
impl Model for Held {
    ghost use Rattle.std.specs.Prelude.{ℕ, List, take, length, ◌≡◌, ◌%◌};
    ghost use Rattle.trace.specs.Padded.{padded, Padded, padded_items, padded_length};

    ghost Value = { List ℕ };

    ghost view = { λ h. take h.count h.words };

    ghost invariant = { λ h. Padded 130 h.words h.count × (h.count % 2 ≡ 0) };

    ghost inverse = { λ l. record { words = padded 130 l; count = length l } };

    ghost inverse_ok = { λ h p i. record { words = padded_items p.0 i; count = padded_length p.0 i } };
}

// A range is held after the n words that are; a 66th is dropped. How many words are held then.
pub fn hold(held: &mut [u64; WORDS], n: usize, range: Range) -> usize
    ensures { (result ≡ count_with n) × (held.new ≡ words_with held.old n range) }
{
    if n < WORDS - 1 {
        held[n] = range.start;
        held[n + 1] = range.end;
        return n + 2;
    }
    n.min(WORDS)
}

impl Held {
    pub fn new() -> Self
        ensures { result ≡ [] }
    {
        Held {
            words: [0; WORDS],
            count: 0,
        }
    }

    pub fn as_words(&self) -> &[u64]
        ensures { result.now ≡ self.now }
    {
        &self.words[..self.count]
    }

    // A 66th range is dropped.
    pub fn hold(&mut self, range: Range)
        ensures { self.new ≡ held_with self.old range }
    {
        self.count = hold(&mut self.words, self.count, range);
    }

    // An ack takes them.
    pub fn clear(&mut self)
        ensures { self.new ≡ [] }
    {
        self.words[..self.count].fill(0);
        self.count = 0;
    }
}
