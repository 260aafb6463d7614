//! The two sides of a byte that separates.
ghost use Rattle.std.specs.Prelude.{◌≡◌};
ghost use Rattle.text.specs.Parts.{back, front, held};

/// The bytes before the first `mark`, and those after it if there is one.
pub fn cut(bytes: &[u8], mark: u8) -> (&[u8], Option<&[u8]>)
    ensures before { result.0.now ≡ front mark bytes.now }
    ensures after { held result.1 ≡ back mark bytes.now }
{
    match bytes.iter().position(|byte| *byte == mark) {
        Some(i) => (&bytes[..i], Some(&bytes[i + 1..])),
        None => (bytes, None),
    }
}
