// Decimal numbers.
ghost use Rattle.std.specs.Prelude.{◌≡◌, ◌+◌, ◌*◌, ◌&&◌, nat_le, true, false, MatchOption};
ghost use Rattle.std.specs.Char.{digit_value, is_ascii_digit};
ghost use Rattle.sched_text.specs.Numbers.{up_to_most, number};

// A number with one more digit, where this is one and the number isn't too great.
#[tactic(auto, using(crate::proofs::NumberLemmas::value_of_digit))]
fn with_digit(value: u32, digit: u8) -> Option<u32>
    ensures { MatchOption result ((is_ascii_digit digit && nat_le (value * 10 + digit_value digit) 4294967295) ≡ false)
        (λ n. ((is_ascii_digit digit && nat_le (value * 10 + digit_value digit) 4294967295) ≡ true) × (n ≡ value * 10 + digit_value digit)) }
{
    if !digit.is_ascii_digit() {
        return None;
    }
    value.checked_mul(10)?.checked_add(u32::from(digit - b'0'))
}

// The number whose digits are those of a value and then these, where it fits. It recurses at most once for each digit
// that fits.
#[tactic(auto, using(crate::proofs::NumberLemmas::more_digits, crate::proofs::NumberLemmas::no_more_digits))]
fn with_digits(value: u32, digits: &[u8]) -> Option<u32>
    ensures { result ≡ up_to_most value digits.now }
{
    match digits {
        [digit, rest @ ..] => with_digits(with_digit(value, *digit)?, rest),
        [] => Some(value),
    }
}

// A decimal number without leading zeros, where it fits.
pub fn number(word: &[u8]) -> Option<u32>
    ensures { result ≡ number word.now }
{
    match word {
        [] | [b'0', _, ..] => None,
        _ => with_digits(0, word),
    }
}
