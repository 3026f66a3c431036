// Reading line 1, the names.
ghost use Rattle.std.specs.Prelude.{Decides, MatchOption};
ghost use Rattle.formats.specs.Format.{Name, NameByte};
ghost use Rattle.formats.specs.Outcomes.{NoNames};
ghost use Rattle.formats.specs.Places.{FirstLine};

use crate::words::line_words;
use crate::{LONGEST_LINE, LONGEST_NAME, MOST_NAMES};

// How many names line 1 holds, and how many bytes it has with its byte 10.
// Numbers and not slices, since the contract says where in the text line 1 ends.
#[derive(Clone, Copy)]
pub struct NamesLine {
    pub count: usize,
    pub size: usize,
}

// Is this a byte of a name?
fn name_byte(b: u8) -> bool
    ensures { Decides result (NameByte b) }
{
    matches!(b, b'a'..=b'z' | b'0'..=b'9' | b'-')
}

// Is this word a name?
fn is_name(word: &[u8]) -> bool
    ensures { Decides result (Name word.now) }
{
    !word.is_empty() && word.len() <= LONGEST_NAME && word.iter().all(|b| name_byte(*b))
}

// Reads line 1, where it is as described; a name may stand twice in it. What stands past the longest line is not looked at.
pub fn names_line(text: &[u8]) -> Option<NamesLine>
    ensures { MatchOption result (NoNames text.now) (FirstLine text.now) }
{
    if text.len() > LONGEST_LINE {
        read_names(&text[..LONGEST_LINE])
    } else {
        read_names(text)
    }
}

// Reads line 1 by its words, and stops past the most names and at a word that is none.
fn read_names(text: &[u8]) -> Option<NamesLine>
    ensures { MatchOption result (NoNames text.now) (FirstLine text.now) }
{
    let mut count = 0;
    let mut size = 0;
    for word in line_words(text) {
        if count == MOST_NAMES || !is_name(word) {
            return None;
        }
        count += 1;
        size += word.len() + 1;
    }
    // Past the last word stands byte 10, unless the text ends there.
    (size <= text.len()).then_some(NamesLine { count, size })
}
