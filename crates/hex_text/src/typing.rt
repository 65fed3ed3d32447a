//! Lines of bytes.
ghost use Rattle.std.specs.Prelude.{◌≡◌, ◌∷◌, ◌++◌, take, MatchOption};
ghost use Rattle.hex_text.specs.Digits.{two_digits};
ghost use Rattle.hex_text.specs.Short.{held};
ghost use Rattle.hex_text.specs.Parsing.{Begins, NoByte, ReadAfter};
ghost use Rattle.hex_text.specs.Text.{text_of, Read};

use crate::pairs::{byte, digits};
use crate::short::ShortBytes;

/// Adds a space and the two digits of a byte.
pub fn push_spaced(text: &mut ShortBytes, byte: u8)
    ensures { held text.new ≡ take 240 (held text.old ++ 32 ∷ two_digits byte) }
{
    let [high, low] = digits(byte);
    text.extend(&[b' ', high, low]);
}

/// The text of these bytes: of at most 80 bytes the whole of it.
pub fn write(bytes: &[u8]) -> ShortBytes
    ensures { held result ≡ take 240 (text_of bytes.now) }
{
    let mut text = ShortBytes::new();
    let [first, rest @ ..] = bytes else {
        return text;
    };
    text.extend(&digits(*first));
    for byte in rest {
        push_spaced(&mut text, *byte);
    }
    text
}

/// The byte whose digits stand at the front of a text, and what stands behind them, as after a space (character 32).
fn next(text: &[u8]) -> Option<(u8, &[u8])>
    ensures { MatchOption result (NoByte (32 ∷ text.now)) (λ p. Begins (32 ∷ text.now) p.0 p.1.now) }
{
    let [high, low, rest @ ..] = text else {
        return None;
    };
    Some((byte(*high, *low)?, rest))
}

/// The byte whose digits stand at the front of a text, after a space, and what stands behind them.
pub fn next_spaced(text: &[u8]) -> Option<(u8, &[u8])>
    ensures { MatchOption result (NoByte text.now) (λ p. Begins text.now p.0 p.1.now) }
{
    let [b' ', digits @ ..] = text else {
        return None;
    };
    next(digits)
}

/// Adds the bytes of the rest of a line, each after a space.
fn read_rest(mut bytes: ShortBytes, text: &[u8]) -> Option<ShortBytes>
    ensures { ReadAfter (held bytes) text.now result }
{
    let mut rest = text;
    while !rest.is_empty() {
        let (byte, more) = next_spaced(rest)?;
        bytes.push(byte);
        rest = more;
    }
    Some(bytes)
}

/// The bytes that a line says, or none where it has another form.
pub fn read(text: &[u8]) -> Option<ShortBytes>
    ensures { Read text.now result }
{
    let mut bytes = ShortBytes::new();
    if text.is_empty() {
        return Some(bytes);
    }
    let (first, rest) = next(text)?;
    bytes.push(first);
    read_rest(bytes, rest)
}
