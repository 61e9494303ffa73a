// The words of a text, each with its place.
ghost use Rattle.std.specs.Prelude.{◌≡◌, ◌≤◌, min, length, take, drop};
ghost use Rattle.words.specs.Words.{WordAt, Behind, Ending, stop, Plain, Stops};

// Bytes of a text, and the place where they begin.
#[derive(Clone, Copy)]
pub struct Word<'a> {
    pub bytes: &'a [u8],
    pub at: usize,
}

// The bytes at `at`, up to a space, an ending byte or the end of the text; a place beyond the end is taken as the end.
pub fn word_at<'a>(text: &'a [u8], at: usize) -> Word<'a>
    ensures { WordAt text.now (min at (length text.now)) result }
{
    let start = at.min(text.len());
    let end = start + plain_bytes(&text[start..]);
    Word {
        bytes: &text[start..end],
        at: start,
    }
}

impl<'a> Word<'a> {
    // The word behind this one: after a space, or else an empty one at the byte that stands there.
    pub fn next(&self, text: &'a [u8]) -> Word<'a>
        ensures { Behind text.now (stop text.now self.now) result }
    {
        let end = self.end(text);
        match text.get(end) {
            Some(b' ') => word_at(text, end + 1),
            _ => Word {
                bytes: &text[end..end],
                at: end,
            },
        }
    }

    // The place behind the ending byte that follows, or the place of what stands there in its stead.
    pub fn ending(&self, text: &[u8]) -> Result<usize, usize>
        ensures { Ending text.now (stop text.now self.now) result }
    {
        let end = self.end(text);
        match text.get(end) {
            Some(b'\n') => Ok(end + 1),
            Some(b' ') => Err(end + 1),
            _ => Err(end),
        }
    }

    // Where the word ends; beyond the end of the text, that is the end.
    fn end(&self, text: &[u8]) -> usize
        ensures { result ≡ stop text.now self.now }
    {
        self.at.saturating_add(self.bytes.len()).min(text.len())
    }
}

// How many bytes stand before the first space or ending byte, or all where there is none.
fn plain_bytes(text: &[u8]) -> usize
    ensures within { result ≤ length text.now }
    ensures plain { Plain (take result text.now) }
    ensures stops { Stops (drop result text.now) }
{
    text.iter()
        .position(|byte| *byte == b' ' || *byte == b'\n')
        .unwrap_or(text.len())
}
