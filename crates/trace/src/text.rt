// Bytes, words and numbers put one behind another. What does not fit is dropped, so that no writer asks anything of its caller.
ghost use Rattle.std.specs.Prelude.{[], ◌∷◌, ◌≡◌, ◌≤◌, ℕ, List, length, take};
ghost use Rattle.model.specs.Trace.{decimal, timer_text, text, shows};
ghost use Rattle.trace.specs.Behind.{Behind};

use crate::put::{put_byte, put_decimal, put_shown, put_timer, put_word};
use arith::time::Moment;
use std::marker::Model;

// At most N bytes, which lie in the value itself, and zeros behind them.
#[derive(Clone, Copy)]
pub struct Text<const N: usize> {
    bytes: [u8; N],
    count: usize,
}

// Clauses see the bytes that were put. They tell the whole array, so that a text may be copied.
impl<const N: usize> Model for Text<N> {
    ghost use Rattle.std.specs.Prelude.{ℕ, List, take, length};
    ghost use Rattle.trace.specs.Padded.{padded, Padded, padded_items, padded_length};

    ghost Value = { List ℕ };

    ghost view = { λ t. take t.count t.bytes };

    ghost invariant = { λ t. Padded N t.bytes t.count };

    ghost inverse = { λ l. record { bytes = padded N l; count = length l } };

    ghost inverse_ok = { λ t p i. record { bytes = padded_items p i; count = padded_length p i } };
}

impl<const N: usize> Text<N> {
    pub fn new() -> Self
        ensures { result ≡ [] }
    {
        Text {
            bytes: [0; N],
            count: 0,
        }
    }

    pub fn len(&self) -> usize
        ensures { result ≡ length self.now }
    {
        self.count
    }

    pub fn clear(&mut self)
        ensures { self.new ≡ [] }
    {
        self.bytes[..self.count].fill(0);
        self.count = 0;
    }

    pub fn as_bytes(&self) -> &[u8]
        ensures { result.now ≡ self.now }
    {
        &self.bytes[..self.count]
    }

    // One byte.
    #[tactic(auto, using(crate::proofs::Behinds::behind_put, crate::proofs::Behinds::padded_put))]
    pub fn put_byte(&mut self, b: u8)
        ensures { Behind N self.old (b ∷ []) self.new }
    {
        self.count = put_byte(&mut self.bytes, self.count, b);
    }

    // The bytes of a word.
    #[tactic(auto, using(crate::proofs::Behinds::behind_put, crate::proofs::Behinds::padded_put))]
    pub fn put_word(&mut self, word: &[u8])
        ensures { Behind N self.old word.now self.new }
    {
        self.count = put_word(&mut self.bytes, self.count, word);
    }

    // A number's decimal digits.
    #[tactic(auto, using(crate::proofs::Behinds::behind_put, crate::proofs::Behinds::padded_put))]
    pub fn put_decimal(&mut self, n: u64)
        ensures { Behind N self.old (decimal n) self.new }
    {
        self.count = put_decimal(&mut self.bytes, self.count, n);
    }

    // A moment in nanoseconds, or `-`.
    #[tactic(auto, using(crate::proofs::Behinds::behind_put, crate::proofs::Behinds::padded_put))]
    pub fn put_timer(&mut self, timer: Option<Moment>)
        ensures { Behind N self.old (timer_text timer) self.new }
    {
        self.count = put_timer(&mut self.bytes, self.count, timer);
    }

    // An event's line, without its newline: kind, refusal, window, in flight, timer or `-`. 01 Replay and the host
    #[tactic(auto, using(crate::proofs::Behinds::behind_put, crate::proofs::Behinds::padded_put))]
    pub fn put_shown(
        &mut self,
        kind: u8,
        refusal: u64,
        window: u64,
        bytes: u64,
        timer: Option<Moment>,
    )
        ensures { Behind N self.old (text (shows kind refusal window bytes timer)) self.new }
    {
        self.count = put_shown(
            &mut self.bytes,
            self.count,
            kind,
            refusal,
            window,
            bytes,
            timer,
        );
    }
}
