//! Lines and the words in them.

ghost use Rattle.std.specs.Prelude.{◌≡◌, ◌≢◌, ℕ, ◌+◌, ◌<◌, ◌≤◌, [], ◌∷◌, length, slice_index, MatchOption};
ghost use Rattle.apsp_graph.specs.Lines.{lines_of, words_of, without_return};

/// What is left of a text, and the number of its first line.
#[derive(Clone, Copy)]
pub struct Lines<'a> {
    rest: &'a [u8],
    pub number: u32,
    ghost near: { number + length rest.now ≤ 67108865 },
}

/// A line, and what follows it.
#[derive(Clone, Copy)]
pub struct Cut<'a> {
    pub line: &'a [u8],
    pub rest: &'a [u8],
}

impl<'a> Lines<'a> {
    /// All lines.
    pub fn of(text: &'a [u8]) -> Lines<'a>
        requires { length text.now ≤ 67108864 }
        ensures text { result.rest.now ≡ text.now }
        ensures number { result.number ≡ 1 }
    {
        Lines {
            rest: text,
            number: 1,
        }
    }

    /// The first line, and those after it.
    pub fn next(self) -> Option<(&'a [u8], Lines<'a>)>
        ensures line { MatchOption result
            (lines_of self.entry.rest.now ≡ [])
            (λ x. lines_of self.entry.rest.now ≡ x.0.now ∷ lines_of x.1.rest.now) }
        ensures number { MatchOption result (self.entry.number ≡ self.entry.number) (λ x. x.1.number ≡ self.entry.number + 1) }
        ensures shorter { MatchOption result (self.entry.number ≡ self.entry.number) (λ x. length x.1.rest.now < length self.entry.rest.now) }
    {
        let cut = first_line(self.rest)?;
        Some((
            cut.line,
            Lines {
                rest: cut.rest,
                number: self.number + 1,
            },
        ))
    }
}

fn first_line(text: &[u8]) -> Option<Cut<'_>>
    ensures line { MatchOption result
        (lines_of text.now ≡ [])
        (λ x. lines_of text.now ≡ x.line.now ∷ lines_of x.rest.now) }
    ensures shorter { MatchOption result (length text.now ≡ 0) (λ x. length x.rest.now < length text.now) }
{
    if text.is_empty() {
        return None;
    }
    let end = find(text, b'\n');
    if end == text.len() {
        return Some(Cut {
            line: text,
            rest: &text[end..],
        });
    }
    Some(Cut {
        line: without_return(&text[..end]),
        rest: &text[end + 1..],
    })
}

fn without_return(line: &[u8]) -> &[u8]
    ensures { result.now ≡ without_return line.now }
{
    let length = line.len();
    if length > 0 && line[length - 1] == b'\r' {
        &line[..length - 1]
    } else {
        line
    }
}

/// The first word of a line, and what follows it.
pub fn next_word(line: &[u8]) -> Option<(&[u8], &[u8])>
    ensures { MatchOption result
        (words_of line.now ≡ [])
        (λ x. words_of line.now ≡ x.0.now ∷ words_of x.1.now) }
{
    let rest = &line[spaces(line)..];
    if rest.is_empty() {
        return None;
    }
    let end = find(rest, b' ');
    Some((&rest[..end], &rest[end..]))
}

/// The place of the first such byte, or the length.
fn find(text: &[u8], byte: u8) -> usize
    ensures within { result ≤ length text.now }
    ensures before { (k : ℕ) → k < result → slice_index text.now k ≢ byte }
    ensures found { result < length text.now → slice_index text.now result ≡ byte }
{
    for (i, b) in text.iter().enumerate() {
        if *b == byte {
            return i;
        }
    }
    text.len()
}

/// How many spaces there are at the front.
fn spaces(line: &[u8]) -> usize
    ensures within { result ≤ length line.now }
    ensures before { (k : ℕ) → k < result → slice_index line.now k ≡ 32 }
    ensures found { result < length line.now → slice_index line.now result ≢ 32 }
{
    for (i, b) in line.iter().enumerate() {
        if *b != b' ' {
            return i;
        }
    }
    line.len()
}
