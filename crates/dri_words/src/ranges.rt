ghost use Rattle.std.specs.Prelude.{◌≡◌, ◌≤◌, ◌≤ℤ◌, IfSome};
ghost use Rattle.dri_words.specs.Ranges.{signed_within, within};

/// The number, where it is from `low` to `high`.
pub fn within(low: u32, high: u32, number: i64) -> Option<u32>
    ensures value { result ≡ within low high number }
    ensures bound { IfSome result (λ n. (low ≤ n) × (n ≤ high)) }
{
    if i64::from(low) <= number && number <= i64::from(high) {
        Some(number as u32)
    } else {
        None
    }
}

/// The number, of either sign, where it is from `low` to `high`.
pub fn signed_within(low: i32, high: i32, number: i64) -> Option<i32>
    ensures value { result ≡ signed_within low high number }
    ensures bound { IfSome result (λ n. (low ≤ℤ n) × (n ≤ℤ high)) }
{
    if i64::from(low) <= number && number <= i64::from(high) {
        Some(number as i32)
    } else {
        None
    }
}
