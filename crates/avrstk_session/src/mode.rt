//! What the program is to do.
ghost use Rattle.std.specs.Prelude.{◌≡◌, map, string_bytes};
ghost use Rattle.avrstk_session.specs.Session.{mode_and_words, mode_named};

/// What the program is to do, which its first argument names.
#[derive(Clone, Copy)]
pub(crate) enum Mode {
    /// `--serve`: serves the chip file to one client.
    Serve,
    /// `--check`: checks that the part and the chip file can be served, and writes nothing.
    Check,
    /// `--outline`: prints the outline of the session that avrstk's options ask for.
    Outline,
}

fn mode_named(word: &str) -> Option<Mode>
    ensures { result ≡ mode_named word.now }
{
    match word {
        "--serve" => Some(Mode::Serve),
        "--check" => Some(Mode::Check),
        "--outline" => Some(Mode::Outline),
        _ => None,
    }
}

/// Returns the mode that the first argument names, and the words from there on: avrstk's options come after the mode as
/// after a program's name. If the first argument names no mode, these are all words.
pub(crate) fn mode_and_words(words: &[String]) -> (Option<Mode>, &[String])
    ensures { (result.0, map string_bytes result.1.now) ≡ mode_and_words (map string_bytes words.now) }
{
    match words {
        [_, word, ..] => match mode_named(word.as_str()) {
            Some(mode) => (Some(mode), &words[1..]),
            None => (None, words),
        },
        _ => (None, words),
    }
}
