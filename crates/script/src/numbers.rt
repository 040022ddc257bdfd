// The numbers that words are.
ghost use Rattle.std.specs.Prelude.{◌≡◌, ◌-◌, cond, None, Some};
ghost use Rattle.script.specs.Numbers.{is_digit, number_of};

// What a digit counts.
fn digit(byte: u8) -> Option<u8>
    ensures { result ≡ cond (is_digit byte) (Some (byte - 48)) None }
{
    if byte.is_ascii_digit() {
        Some(byte - b'0')
    } else {
        None
    }
}

// The number that the word's digits are, where it is nothing but digits and fits.
pub fn number(word: &[u8]) -> Option<u32>
    ensures { result ≡ number_of word.now }
{
    if word.is_empty() {
        return None;
    }
    // `parse` asks for a text and takes a sign, so a word would be read three times
    let mut value = 0u32;
    for byte in word {
        let digit = digit(*byte)?;
        value = u32::try_from(u64::from(value) * 10 + u64::from(digit)).ok()?;
    }
    Some(value)
}
