//! Numbers of options.
ghost use Rattle.std.specs.Prelude.{◌≡◌, ◌<◌, ◌^◌, Some, None, option_map};
ghost use Rattle.cli_words.specs.Numbers as model;
ghost use Rattle.cli_words.specs.Numbers.{number_read};

/// The number of an option, from 1 to `most`, or the default where the option is not there; None
/// where its value is no such number.
pub(crate) fn number_or(value: Option<&str>, most: u32, default: u32) -> Option<u32>
    ensures { result ≡ model.number_or (option_map (λ text. text.now) value.entry) most default }
{
    match value {
        Some(text) => number_of(text, most),
        None => Some(default),
    }
}

/// The number that a text writes, where it is from 1 to `most`.
pub(crate) fn number_of(text: &str, most: u32) -> Option<u32>
    ensures { result ≡ model.number_of text.now most }
{
    let number = number_written(text)?;
    (1 <= number && number <= most).then_some(number)
}

/// The number that a text writes, as `u32` reads it: digits, behind a plus or nothing.
fn number_written(text: &str) -> Option<u32>
    ensures { result ≡ number_read text.now }
{
    text.parse::<u32>().ok()
}
