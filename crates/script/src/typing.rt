//! Text that is put together.
ghost use Rattle.std.specs.Prelude.{◌≡◌, take};
ghost use Rattle.hex_text.specs.Short.{held};

use hex_text::ShortBytes;

/// The text of these characters, as many as are held.
pub(crate) fn typed(characters: &[u8]) -> ShortBytes
    ensures { held result ≡ take 240 characters.now }
{
    let mut text = ShortBytes::new();
    text.extend(characters);
    text
}
