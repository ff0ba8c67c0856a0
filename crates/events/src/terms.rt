// What a record says beside its events, read from the words of block 0's terms.
ghost use Rattle.std.specs.Prelude.{◌≡◌, ◌&&◌, ◌+◌, ◌≤◌, ◌<◌, ltb, length};
ghost use Rattle.rows.specs.Row.{has};
ghost use Rattle.record.specs.Layout.{terms_length};
ghost use Rattle.record.specs.Words.{difference_from, figure_in};

#[derive(Clone, Copy)]
pub struct Terms<'a> {
    pub words: &'a [u64],
    pub ghost long: { terms_length ≤ length words.now },
}

impl<'a> Terms<'a> {
    // By how much the sites' clocks may differ.
    pub fn difference(&self) -> u64
        ensures { result ≡ difference_from self.now.words.now }
    {
        self.words[0] % 4294967296
    }

    // Whether object o has an opening.
    pub fn has_opening(&self, o: usize) -> bool
        ensures { result ≡ ltb o 32 && has self.now.words.now (32 + o) }
    {
        o < 32 && rows::test(self.words, 32 + o)
    }

    // The value of its opening.
    pub fn opening(&self, o: usize) -> u64
        requires { o < 32 }
        ensures { result ≡ figure_in self.now.words.now o }
    {
        let word = self.words[1 + o / 2];
        if o % 2 == 0 {
            word % 4294967296
        } else {
            word / 4294967296
        }
    }
}
