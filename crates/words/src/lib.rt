// Sets of numbers below 64, each a word.
#![tactic(auto)]

ghost use Rattle.std.specs.Prelude.{◌≡◌, ℕ, ◌-◌, ◌^◌, ◌<◌, ◌≤◌, false, not, ◌&&◌, ◌||◌, ltb, if◌then◌else◌, MatchOption, ◌==◌, bit_and, bit_or, count_ones, nat_lt};
ghost use Rattle.words.specs.Words.{Lowest, bit};

// How many numbers a word has room for.
pub const ROOM: u32 = 64;

// Whether the set has the number.
pub fn has(w: u64, k: u32) -> bool
    ensures { result ≡ bit w k }
{
    k < ROOM && w >> k & 1 == 1
}

// The set with the number too, or as it was where there is no room for the number.
pub fn with(w: u64, k: u32) -> u64
    ensures value { result ≡ (if ltb k 64 then bit_or w (2 ^ k) else w) }
    ensures bits { (j : ℕ) → bit result j ≡ (bit w j || (nat_lt k 64 && k == j)) }
{
    if k < ROOM { w | 1 << k } else { w }
}

// The set of one or two numbers, those that there is room for.
pub fn pair(a: u32, b: u32) -> u64
    ensures value { a < 64 → b < 64 → result ≡ bit_or (2 ^ a) (2 ^ b) }
    ensures bits { (j : ℕ) → bit result j ≡ ((nat_lt a 64 && a == j) || (nat_lt b 64 && b == j)) }
{
    with(with(0, a), b)
}

// How many numbers the set has.
pub fn count(w: u64) -> u32
    ensures value { result ≡ count_ones w }
    ensures within { result ≤ 64 }
{
    w.count_ones()
}

// The lowest number of the set.
pub fn lowest(w: u64) -> Option<u32>
    ensures { MatchOption result ((w ≡ 0) × ((k : ℕ) → bit w k ≡ false)) (λ l. (0 < w) × (l < 64) × Lowest w l) }
{
    (w != 0).then(|| w.trailing_zeros())
}

// The set without its lowest number.
pub fn without_lowest(w: u64) -> u64
    ensures value { result ≡ bit_and w (w - 1) }
    ensures bits { (l : ℕ) → Lowest w l → (k : ℕ) → bit result k ≡ (bit w k && not (k == l)) }
    ensures smaller { 0 < w → result < w }
{
    w & w.saturating_sub(1)
}
