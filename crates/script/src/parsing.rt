//! How a line is taken apart.
ghost use Rattle.std.specs.Prelude.{◌≡◌, ◌∷◌};
ghost use Rattle.script.specs.Lines.{Read};
ghost use Rattle.script.specs.Parsing.{ended};

use crate::call::Call;
use hex_text::next_spaced;
use mission::Codes;

/// The call whose line is read to its end: nothing may follow.
fn alone(call: Call, rest: &[u8]) -> Option<Call>
    ensures { result ≡ ended rest.now call }
{
    if rest.is_empty() { Some(call) } else { None }
}

/// The call that the letter B and this text name: a byte.
fn byte_call(text: &[u8]) -> Option<Call>
    ensures { Read (66 ∷ text.now) result }
{
    let (byte, rest) = next_spaced(text)?;
    alone(Call::Byte(byte), rest)
}

/// The call that the letter S and this text name: a second with its four codes.
fn second_call(text: &[u8]) -> Option<Call>
    ensures { Read (83 ∷ text.now) result }
{
    let (temperature, text) = next_spaced(text)?;
    let (one, text) = next_spaced(text)?;
    let (two, text) = next_spaced(text)?;
    let (three, text) = next_spaced(text)?;
    let codes = Codes {
        temperature,
        one,
        two,
        three,
    };
    alone(Call::Second(codes), text)
}

/// The call that a letter and the text behind it name.
pub(crate) fn lettered(letter: char, text: &[u8]) -> Option<Call>
    ensures { Read (letter ∷ text.now) result }
{
    match letter {
        'B' => byte_call(text),
        'G' => alone(Call::Gap, text),
        'S' => second_call(text),
        'P' => alone(Call::Press, text),
        'R' => alone(Call::Collect, text),
        _ => None,
    }
}
