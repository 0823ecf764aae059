// The words of a line, one after another.
ghost use Rattle.std.specs.Prelude.{◌≡◌, ℕ, List, [], ◌∷◌, length, MatchOption, MatchResult};
ghost use Rattle.std.specs.Iterator.{item_count};
ghost use Rattle.text.specs.Words.{unended, words};
ghost use Rattle.text.specs.Reader.{left, Next, Takes, Lacks, Holds, Fails};

use crate::error::{Field, LineError};
use crate::number::number;

// The line without its end: LF, CR LF, CR or nothing.
fn body(line: &str) -> &str
    ensures { result.now ≡ unended line.now }
{
    let line = line.strip_suffix('\n').unwrap_or(line);
    line.strip_suffix('\r').unwrap_or(line)
}

// What is left of a line, and the word before it.
#[derive(Drop)]
pub struct Words<'a> {
    pub rest: &'a str,
    pub last: &'a str,
}

impl<'a> Iterator for Words<'a> {
    type Item = &'a str;

    ghost next_gives = { λ s r t. MatchOption r (left s ≡ []) (Next s t) };

    ghost remaining = { item_count left };

    fn next(&mut self) -> Option<&'a str> {
        // by bytes: a search for characters takes longer, and what parts words is ASCII
        let gap = self
            .rest
            .as_bytes()
            .iter()
            .position(|byte| !matches!(*byte, b' ' | b'\t'))
            .unwrap_or(self.rest.len());
        let (_, rest) = self.rest.split_at(gap);
        let end = rest
            .as_bytes()
            .iter()
            .position(|byte| matches!(*byte, b' ' | b'\t' | b'#'))
            .unwrap_or(rest.len());
        if end == 0 {
            return None;
        }
        let (word, after) = rest.split_at(end);
        self.rest = after;
        self.last = word;
        Some(word)
    }
}

impl<'a> Words<'a> {
    pub fn of(line: &'a str) -> Words<'a>
        ensures { left result ≡ words line.now }
    {
        Words {
            rest: body(line),
            last: "",
        }
    }

    // The next word, as the number of `field`.
    fn number(&mut self, field: Field) -> Result<i64, LineError<'a>>
        ensures { MatchResult result (Takes self.old self.new) (Lacks field self.old) }
    {
        let after = self.last;
        let word = self.next().ok_or(LineError::Missing { field, after })?;
        number(word, field)
    }

    // There must be no further word.
    pub fn end(mut self) -> Result<(), LineError<'a>>
        ensures { MatchResult result (λ _. Holds self.entry []) (Fails self.entry []) }
    {
        match self.next() {
            Some(word) => Err(LineError::Extra { word }),
            None => Ok(()),
        }
    }

    // The words that are left, as the numbers of the fields.
    pub(crate) fn numbers<const N: usize>(
        mut self,
        fields: [Field; N],
    ) -> Result<[i64; N], LineError<'a>>
        ensures { MatchResult result (Holds self.entry) (Fails self.entry fields.entry) }
    {
        // by index: after a zip over iter_mut a proof knows no number
        let mut numbers = [0; N];
        for (i, field) in fields.iter().enumerate() {
            numbers[i] = self.number(*field)?;
        }
        self.end()?;
        Ok(numbers)
    }

    // The one word that is left, as a number.
    pub(crate) fn count(self, field: Field) -> Result<i64, LineError<'a>>
        ensures { MatchResult result (λ z. Holds self.entry (z ∷ [])) (Fails self.entry (field ∷ [])) }
    {
        let [count] = self.numbers([field])?;
        Ok(count)
    }
}
