// The words of the line that a text begins with.
ghost use Rattle.std.specs.Prelude.{◌≡◌, ◌∷◌, ◌+◌, ◌≤◌, length, MatchBool, MatchOption};
ghost use Rattle.std.specs.Iterator.{YieldsFirstRef, item_count};
ghost use Rattle.formats.specs.Format.{Apart};
ghost use Rattle.formats.specs.Places.{Ends, FirstAt, FirstOf, Lacks, NoneOf, WordIs, words, words_left, words_of};

// The words of a line, in their order: `rest` begins with the next one, where there is one.
#[derive(Clone, Copy)]
pub struct LineWords<'a> {
    rest: Option<&'a [u8]>,
}

impl LineWords<'_> {
    // Is one of the words that are left equal to `word`?
    fn has(mut self, word: &[u8]) -> bool
        ensures { MatchBool result
            (Lacks (words_left self.entry) word.now → ⊥)
            (Lacks (words_left self.entry) word.now) }
    {
        self.any(|left| left == word)
    }
}

// The words of the line that a text begins with: between two of them stands one space.
pub fn line_words(text: &[u8]) -> LineWords<'_>
    ensures left { words_left result ≡ words text.now }
    ensures few { length (words_left result) ≤ length text.now + 1 }
{
    LineWords { rest: Some(text) }
}

impl<'a> Iterator for LineWords<'a> {
    type Item = &'a [u8];

    ghost next_gives = { YieldsFirstRef words_left };

    ghost remaining = { item_count words_left };

    fn next(&mut self) -> Option<&'a [u8]> {
        let (word, rest) = split_word(self.rest?);
        self.rest = rest;
        Some(word)
    }
}

// The first word, and what stands after its space, where the line goes on.
fn split_word(text: &[u8]) -> (&[u8], Option<&[u8]>)
    ensures { words text.now ≡ result.0.now ∷ words_of result.1 }
{
    match word_end(text) {
        Some(end) if text[end] == b' ' => (&text[..end], Some(&text[end + 1..])),
        Some(end) => (&text[..end], None),
        None => (text, None),
    }
}

// Where the first word ends, if not with the text.
fn word_end(text: &[u8]) -> Option<usize>
    ensures { MatchOption result (NoneOf Ends text.now) (FirstOf Ends text.now) }
{
    text.iter().position(|b| matches!(b, b' ' | b'\n'))
}

// The number of the first word equal to `name`, counted from 0.
pub fn find_word(text: &[u8], name: &[u8]) -> Option<usize>
    ensures { MatchOption result
        (Lacks (words text.now) name.now)
        (FirstAt (words text.now) name.now) }
{
    line_words(text).position(|word| word == name)
}

// Word number `k`, counted from 0.
pub fn word_at(text: &[u8], k: usize) -> Option<&[u8]>
    ensures { MatchOption result
        (length (words text.now) ≤ k)
        (λ w. WordIs (words text.now) k w.now) }
{
    line_words(text).nth(k)
}

// Does a word stand twice?
pub fn repeats(text: &[u8]) -> bool
    ensures { MatchBool result (Apart (words text.now) → ⊥) (Apart (words text.now)) }
{
    let mut words = line_words(text);
    while let Some(word) = words.next() {
        if words.has(word) {
            return true;
        }
    }
    false
}
