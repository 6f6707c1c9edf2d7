// A line that the lister prints. It is made from its end, so that what is put last stands in front. It is put together by hand and
// not by `write!`, since std's printing into a buffer has no contract on the bytes that are left there.
ghost use Rattle.std.specs.Prelude.{◌≡◌, ◌+◌, ◌≤◌, [], ◌∷◌, ◌++◌, length, take, replicate};

// A line, from `start` to the end of the array; zeros stand before it. Both fields stay, since `PrintedAs`, which `line_from`
// promises, names them.
#[derive(Drop)]
pub struct Line {
    pub bytes: [u8; 128],
    pub start: usize,
    ghost inside: { start ≤ 128 },
    ghost zeros: { take start bytes ≡ replicate start 0 },
}

impl Line {
    ghost use Rattle.lister.specs.Listing.{decimal, spaced};
    ghost use Rattle.lister.specs.Inside.{text_of};

    // Nothing is put yet.
    pub(crate) fn new() -> Line
        ensures text { text_of result ≡ [] }
        ensures room { result.start ≡ 128 }
    {
        Line {
            bytes: [0; 128],
            start: 128,
        }
    }

    // A number and the newline behind it.
    #[tactic(auto, unfolding(crate::specs::Listing::spaced))]
    pub(crate) fn ending_with(x: usize) -> Line
        ensures text { text_of result ≡ spaced (decimal x ∷ []) }
        ensures room { 128 ≤ result.start + 21 }
    {
        let mut line = Line::new();
        line.put_text(b"\n");
        line.put_decimal(x);
        line
    }

    pub(crate) fn put_text(&mut self, text: &[u8])
        requires { length text.now ≤ self.old.start }
        ensures text { text_of self.new ≡ text.now ++ text_of self.old }
        ensures room { self.old.start ≡ self.new.start + length text.now }
    {
        let end = self.start;
        let start = end - text.len();
        self.bytes[start..end].copy_from_slice(text);
        self.start = start;
    }

    // The digits of a number. The cast stays: `u64` is not `From<usize>`.
    #[tactic(auto, using(crate::proofs::Printing::digits_put))]
    fn put_decimal(&mut self, x: usize)
        requires { 20 ≤ self.old.start }
        ensures text { text_of self.new ≡ decimal x ++ text_of self.old }
        ensures room { self.old.start ≤ self.new.start + 20 }
    {
        self.start = itoa::write_digits(x as u64, &mut self.bytes, self.start);
    }

    // A number and the space behind it.
    pub(crate) fn put_number(&mut self, x: usize)
        requires { 21 ≤ self.old.start }
        ensures text { text_of self.new ≡ decimal x ++ 32 ∷ text_of self.old }
        ensures room { self.old.start ≤ self.new.start + 21 }
    {
        self.put_text(b" ");
        self.put_decimal(x);
    }
}
