//! The line of a place in a text, counted from 1.
ghost use Rattle.std.specs.Prelude.{◌≡◌, ◌≤◌, length};
ghost use Rattle.avr_part.specs.PartFile.{line_at};

pub(crate) fn line_at(text: &[u8], place: usize) -> usize
    requires { place ≤ length text.now }
    ensures { result ≡ line_at text.now place }
{
    text[..place].iter().filter(|byte| **byte == b'\n').count() + 1
}
