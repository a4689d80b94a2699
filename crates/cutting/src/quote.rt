// The quote that closes a text.
ghost use Rattle.std.specs.Prelude.{◌≡◌, ◌<◌, length, Some, None};
ghost use Rattle.cutting.specs.Starts.{closed};

// How many bytes of the part behind an opening quote stand before the closing one, if its line has one.
pub fn closing(part: &[u8]) -> Option<usize>
    ensures answer { result ≡ closed part.now }
    ensures inside { elim result [ Some n ↦ n < length part.now | None ↦ Unit {0} ] }
{
    let end = part.iter().position(|b| matches!(b, b'"' | b'\n'))?;
    (part[end] == b'"').then_some(end)
}
