//! The lines of a text, one after the other.

ghost use Rattle.std.specs.Iterator.{item_count, MakesProgress, YieldsFirstRef};
ghost use Rattle.std.specs.Prelude.{◌≡◌, ℕ, ◌<◌, ◌≤◌, length, ◌≢◌, OnSome, slice_index, ⊤};
ghost use Rattle.texts.specs.Laws.{LinesAgain};
ghost use Rattle.texts.specs.Lines.{last_bytes, lines_of};

/// The lines of a text that are still to come, in order and without their line feeds. The last may lack one.
#[derive(Drop)]
pub struct Lines<'a> {
    rest: &'a [u8],
}

// The index of the first line feed, or the length where there is none.
fn line_len(text: &[u8]) -> usize
    ensures within { result ≤ length text.now }
    ensures before { (k : ℕ) → k < result → slice_index text.now k ≢ 10 }
    ensures found { result < length text.now → slice_index text.now result ≡ 10 }
{
    text.iter().position(|b| *b == b'\n').unwrap_or(text.len())
}

impl<'a> Lines<'a> {
    /// All the lines of a text.
    ///
    /// The last clause is a law of texts: a text is its lines, each with a line feed behind it, of which the last may be missing.
    pub fn of(text: &'a [u8]) -> Lines<'a>
        ensures whole { result.rest.now ≡ text.now }
        ensures again { LinesAgain }
    {
        Lines { rest: text }
    }

    /// The bytes of the lines that are still to come.
    pub fn remainder(&self) -> &'a [u8]
        ensures { result.now ≡ self.now.rest.now }
    {
        let Lines { rest } = self;
        rest
    }
}

impl<'a> Iterator for Lines<'a> {
    type Item = &'a [u8];

    ghost next_gives = { YieldsFirstRef (λ s. lines_of s.rest.now) };

    ghost remaining = { item_count (λ s. lines_of s.rest.now) };

    /// The next line, or none behind the last. What is left is the end of what was left before.
    fn next(&mut self) -> Option<&'a [u8]>
        ensures steps { YieldsFirstRef (λ s. lines_of s.rest.now) self.old result self.new }
        ensures goes { MakesProgress (λ _. ⊤) (item_count (λ s. lines_of s.rest.now)) self.old result self.new }
        ensures end { self.new.rest.now ≡ last_bytes (length self.new.rest.now) self.old.rest.now }
        ensures shorter { OnSome result (length self.new.rest.now < length self.old.rest.now) }
    {
        let rest = self.rest;
        if rest.is_empty() {
            return None;
        }
        let len = line_len(rest);
        self.rest = &rest[(len + 1).min(rest.len())..];
        Some(&rest[..len])
    }
}
