// Cutting a text at the bytes that end a line, begin a comment or separate words.
ghost use Rattle.std.specs.Prelude.{◌≡◌};
ghost use Rattle.script.specs.Cuts.{cuts, before};

// What a text is cut at.
#[derive(Clone, Copy)]
pub enum Mark {
    LineEnd,
    Comment,
    Blank,
}

impl Mark {
    pub fn is(self, byte: u8) -> bool
        ensures { result ≡ cuts self byte }
    {
        match self {
            Mark::LineEnd => byte == b'\n',
            Mark::Comment => byte == b'#',
            Mark::Blank => byte == b' ' || byte == b'\t' || byte == b'\r',
        }
    }
}

// What stands before the first byte that `mark` is; the whole where there is none.
pub fn before_mark(text: &[u8], mark: Mark) -> &[u8]
    ensures { result.now ≡ before (cuts mark) text.now }
{
    let end = text
        .iter()
        .position(|byte| mark.is(*byte))
        .unwrap_or(text.len());
    &text[..end]
}
