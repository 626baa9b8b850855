// Pieces of bytes: a text is parted into lines, a line into words, an edge into its ends.
ghost use Rattle.std.specs.Prelude.{◌≡◌};
ghost use Rattle.std.specs.Iterator.{YieldsFirstRef, item_count};
ghost use Rattle.texts.specs.Pieces.{parting, until, past, pieces};
ghost use Rattle.texts.specs.Views.{pieces_left};

/// The letters that part pieces. They are values and no closures: the definitions name them, `parting` of specs/Pieces.
#[derive(Clone, Copy, Debug, PartialEq, Eq)]
pub(crate) enum Stop {
    LineFeed,
    Comment,
    /// Spaces, tabs, and the carriage returns of some editors.
    Blank,
    Dash,
}

impl Stop {
    fn parts(self, c: u8) -> bool
        ensures { result ≡ parting self c }
    {
        match self {
            Stop::LineFeed => c == b'\n',
            Stop::Comment => c == b'#',
            Stop::Blank => c == b' ' || c == b'\t' || c == b'\r',
            Stop::Dash => c == b'-',
        }
    }
}

/// What stands before the first such letter, and what stands behind it: all and nothing, where there is none.
pub(crate) fn split(bytes: &[u8], stop: Stop) -> (&[u8], &[u8])
    ensures before { result.0.now ≡ until (parting stop) bytes.now }
    ensures behind { result.1.now ≡ past (parting stop) bytes.now }
{
    match bytes.iter().position(|&c| stop.parts(c)) {
        Some(end) => (&bytes[..end], &bytes[end + 1..]),
        None => (bytes, &[]),
    }
}

/// All pieces, each ended by such a letter, the last perhaps by the end of all.
#[derive(Clone, Copy, Debug)]
pub(crate) struct Pieces<'a> {
    rest: &'a [u8],
    stop: Stop,
}

impl<'a> Pieces<'a> {
    pub(crate) fn of(bytes: &'a [u8], stop: Stop) -> Pieces<'a>
        ensures { pieces_left result ≡ pieces (parting stop) bytes.now }
    {
        Pieces { rest: bytes, stop }
    }
}

impl<'a> Iterator for Pieces<'a> {
    type Item = &'a [u8];

    ghost next_gives = { YieldsFirstRef pieces_left };

    ghost remaining = { item_count pieces_left };

    #[tactic(auto, using(crate::proofs::Parting::pieces_more), unfolding(crate::specs::Pieces::pieces))]
    fn next(&mut self) -> Option<&'a [u8]> {
        if self.rest.is_empty() {
            return None;
        }
        let (piece, rest) = split(self.rest, self.stop);
        self.rest = rest;
        Some(piece)
    }
}
