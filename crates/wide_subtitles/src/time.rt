//! Times, and how they are moved.

ghost use Rattle.std.specs.Prelude.{◌≡◌, ◌+◌, ◌-◌, ◌<◌, ◌^◌, false, nat_lt, true};

/// A time, in milliseconds before or after the beginning.
#[derive(Clone, Copy, Debug, PartialEq, Eq)]
pub struct Time {
    /// How many milliseconds.
    pub size: u64,
    /// Whether it is before the beginning.
    pub is_negative: bool,
    /// Whether it is written as in `00:00:01,000`, with more digits of hours from a hundred on.
    pub is_usual: bool,
    ghost bounded: { size < 2 ^ 60 },
}

/// A time that was moved.
#[derive(Clone, Copy, Debug, PartialEq, Eq)]
pub struct Moved {
    /// The time, in milliseconds after the beginning.
    pub time: u64,
    /// Whether it would be before the beginning, and is 0.
    pub is_cut: bool,
}

/// Moves a time by so many milliseconds. A time before the beginning becomes 0.
pub fn move_time(time: Time, by: u32, is_earlier: bool) -> Moved
    ensures later { time.is_negative ≡ false → is_earlier ≡ false → result.time ≡ time.size + by }
    ensures earlier { time.is_negative ≡ false → is_earlier ≡ true → result.time ≡ time.size - by }
    ensures negative_later { time.is_negative ≡ true → is_earlier ≡ false → result.time ≡ by - time.size }
    ensures negative_earlier { time.is_negative ≡ true → is_earlier ≡ true → result.time ≡ 0 }
    ensures cut_later { time.is_negative ≡ false → is_earlier ≡ false → result.is_cut ≡ false }
    ensures cut_earlier { time.is_negative ≡ false → is_earlier ≡ true → result.is_cut ≡ nat_lt time.size by }
    ensures cut_negative_later { time.is_negative ≡ true → is_earlier ≡ false → result.is_cut ≡ nat_lt by time.size }
    ensures cut_negative_earlier { time.is_negative ≡ true → is_earlier ≡ true → result.is_cut ≡ nat_lt 0 (time.size + by) }
{
    let by = u64::from(by);
    match (time.is_negative, is_earlier) {
        (false, false) => Moved {
            time: time.size + by,
            is_cut: false,
        },
        (false, true) => Moved {
            time: time.size.saturating_sub(by),
            is_cut: time.size < by,
        },
        (true, false) => Moved {
            time: by.saturating_sub(time.size),
            is_cut: by < time.size,
        },
        (true, true) => Moved {
            time: 0,
            is_cut: time.size + by > 0,
        },
    }
}
