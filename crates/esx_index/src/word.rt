//! The marks of sixty-four places in one word, the least place in the lowest bit.

ghost use Rattle.std.specs.Prelude.{◌≡◌, ◌≢◌, ◌<◌, ◌^◌, ◌-◌, ℕ, if◌then◌else◌};
ghost use Rattle.std.specs.Int.{bit_at};

/// The word with one of its marks set or cleared.
pub fn with_mark(word: u64, place: u32, marked: bool) -> u64
    requires { place < 64 }
    ensures same { bit_at result place ≡ (if marked then 1 else 0) }
    ensures others { (k : ℕ) → k < 64 → k ≢ place → bit_at result k ≡ bit_at word k }
{
    if marked {
        word | (1 << place)
    } else {
        word & !(1 << place)
    }
}

/// The word whose first places are marked, and no other.
pub fn first_marked(count: u32) -> u64
    requires { count < 64 }
    ensures { result ≡ 2 ^ count - 1 }
{
    (1 << count) - 1
}
