//! The address of a command.
ghost use Rattle.std.specs.Prelude.{◌≡◌};
ghost use Rattle.hipsd_run.specs.Command.{texts, second_word};

/// The address at which connections come in, or that of the peer: the second word, and the empty text where there is none.
pub fn second_word(words: &[String]) -> &str
    ensures { result.now ≡ second_word (texts words.now) }
{
    match words {
        [_, word, ..] => word.as_str(),
        _ => "",
    }
}
