// A word as a number.
ghost use Rattle.std.specs.Prelude.{◌≡◌, MatchResult};
ghost use Rattle.std.specs.Char.{is_ascii_digit};
ghost use Rattle.std.specs.List.{list_all};
ghost use Rattle.text.specs.Numbers.{numeral, Number};
ghost use Rattle.text.specs.Faults.{NoNumber};

use crate::error::{Field, LineError};

fn all_digits(text: &str) -> bool
    ensures { result ≡ list_all is_ascii_digit text.now }
{
    text.bytes().all(|byte| byte.is_ascii_digit())
}

// A minus or nothing, then one digit or more.
fn is_numeral(word: &str) -> bool
    ensures { result ≡ numeral word.now }
{
    let digits = word.strip_prefix('-').unwrap_or(word);
    !digits.is_empty() && all_digits(digits)
}

// `str::parse` alone would take a plus, and not tell a large number from a word that is none.
pub fn number(word: &str, field: Field) -> Result<i64, LineError<'_>>
    ensures { MatchResult result (Number word.now) (NoNumber field word.now) }
{
    if !is_numeral(word) {
        return Err(LineError::NotNumber { field, word });
    }
    let value = word
        .parse::<i64>()
        .map_err(|_| LineError::TooLarge { field, word })?;
    Ok(value)
}
