//! Numbers in words.
ghost use Rattle.std.specs.Prelude.{◌≡◌};
ghost use Rattle.command_line.specs.Number.{number};

/// The number that a word stands for.
pub(crate) fn read_number(word: &str) -> Option<u64>
    ensures { result ≡ number word.now }
{
    // A plus would be read as a sign.
    if word.len() > 20 || word.starts_with('+') {
        return None;
    }
    word.parse::<u64>().ok()
}
