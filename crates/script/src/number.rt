// Whole numbers as a script writes them, and the nearest numbers of the types that the calls take. What is too large is
// taken to the nearest number that fits: the library's `parse` refuses it, so a number is read by hand.
ghost use Rattle.std.specs.Prelude.{◌≡◌, pos};
ghost use Rattle.std.specs.Option.{SomeIff};
ghost use Rattle.std.specs.Int.{saturate_to_bits};
ghost use Rattle.std.specs.Str.Parse.{IsNumeral, without_leading_sign};
ghost use Rattle.script.specs.Whole.{size_of, whole_of, nearest_u32};

// The number that decimal digits write, or the largest `i64` where it is larger; `None` where a byte is no digit, or
// there is none.
fn size(digits: &[u8]) -> Option<i64>
    ensures { SomeIff result (IsNumeral 10 digits.now) (pos (size_of digits.now)) }
{
    if digits.is_empty() {
        return None;
    }
    let mut n: u64 = 0;
    for d in digits {
        if !d.is_ascii_digit() {
            return None;
        }
        n = n.saturating_mul(10).saturating_add(u64::from(*d - b'0'));
    }
    Some(i64::try_from(n).unwrap_or(i64::MAX))
}

// A whole number in decimal, behind a sign or without one.
pub fn whole(word: &str) -> Option<i64>
    ensures { SomeIff result (IsNumeral 10 (without_leading_sign word.now)) (whole_of word.now) }
{
    match word.as_bytes() {
        [b'-', digits @ ..] => Some(-size(digits)?),
        [b'+', digits @ ..] => size(digits),
        digits => size(digits),
    }
}

// The nearest `u32`.
pub fn to_u32(n: i64) -> u32
    ensures { result ≡ nearest_u32 n }
{
    u32::try_from(n.max(0)).unwrap_or(u32::MAX)
}

// The nearest `i32`.
pub fn to_i32(n: i64) -> i32
    ensures { result ≡ saturate_to_bits 31 n }
{
    i32::try_from(n).unwrap_or(if n < 0 { i32::MIN } else { i32::MAX })
}
