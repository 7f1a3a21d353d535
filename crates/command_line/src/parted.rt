// A text in two parts.
ghost use Rattle.std.specs.Prelude.{◌≡◌, option_map};
ghost use Rattle.command_line.specs.Parted.{parted};

/// What stands before the first such byte, and what stands behind it, if there is one.
pub fn parted(byte: u8, text: &[u8]) -> (&[u8], Option<&[u8]>)
    ensures { (result.0.now, option_map (λ rest. rest.now) result.1) ≡ parted byte text.now }
{
    match text.iter().position(|b| *b == byte) {
        Some(i) => (&text[..i], Some(&text[i + 1..])),
        None => (text, None),
    }
}
