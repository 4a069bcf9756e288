// The refusals of 01's table. The lowest crate that refuses has them, so that `?` hands one on through every layer.
ghost use Rattle.std.specs.Prelude.{◌≡◌};
ghost use Rattle.arith.specs.Refusals.{number_of};

// 1 to 7 in this order.
#[derive(Clone, Copy, Debug, PartialEq, Eq)]
pub enum Refusal {
    Clock,
    Domain,
    Stale,
    Ranges,
    Skipped,
    Full,
    TooLarge,
}

// The number in 01's table; 0 is accepted.
impl From<Refusal> for u8 {
    ghost from_gives = { λ k n. n ≡ number_of k };

    fn from(k: Refusal) -> u8 {
        match k {
            Refusal::Clock => 1,
            Refusal::Domain => 2,
            Refusal::Stale => 3,
            Refusal::Ranges => 4,
            Refusal::Skipped => 5,
            Refusal::Full => 6,
            Refusal::TooLarge => 7,
        }
    }
}
