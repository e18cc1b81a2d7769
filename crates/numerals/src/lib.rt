// A word of a text taken for a decimal number or for a literal. Numbers go by value, with any many zeros before them.
#![tactic(auto)]

ghost use Rattle.std.specs.Prelude.{◌≡◌};
ghost use Rattle.numerals.specs.Numerals.{numeral_of, literal_in};

// The greatest size of a literal.
const MOST: u32 = 2147483647;

// A value only grows with the digits behind it, so that it is refused as soon as it is too large.
pub fn read_decimal(word: &[u8], most: u32) -> Option<u32>
    ensures { result ≡ numeral_of most word.now }
{
    if word.is_empty() {
        return None;
    }
    let mut value: u64 = 0;
    for byte in word {
        if !byte.is_ascii_digit() {
            return None;
        }
        value = 10 * value + u64::from(*byte - b'0');
        if u64::from(most) < value {
            return None;
        }
    }
    Some(value as u32)
}

// A minus sign stands before a size that is not 0. The 0 that ends a clause reads as a literal too.
pub fn read_literal(word: &[u8]) -> Option<i32>
    ensures { result ≡ literal_in word.now }
{
    let Some((b'-', digits)) = word.split_first() else {
        return Some(read_decimal(word, MOST)? as i32);
    };
    let size = read_decimal(digits, MOST)?;
    if size == 0 {
        return None;
    }
    Some(-(size as i32))
}
