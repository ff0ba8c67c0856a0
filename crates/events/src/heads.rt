// The fields of an event, read from its head of words.
ghost use Rattle.std.specs.Prelude.{◌≡◌, false, ◌+◌, ◌*◌, ◌≤◌, length};
ghost use Rattle.record.specs.Layout.{head_length};
ghost use Rattle.record.specs.Words.{is_write_in, site_in, object_in, is_pending_in, value_in, is_present_in, position_in, start_in, return_in};

use record::layout;

// A head for each event.
#[derive(Clone, Copy)]
pub struct Heads<'a> {
    pub words: &'a [u64],
}

impl<'a> Heads<'a> {
    pub fn is_write(&self, e: usize) -> bool
        requires { head_length * e + head_length ≤ length self.now.words.now }
        ensures { result ≡ is_write_in self.now.words.now e }
    {
        self.words[layout::HEAD * e] % 256 == 1
    }

    pub fn site(&self, e: usize) -> u64
        requires { head_length * e + head_length ≤ length self.now.words.now }
        ensures { result ≡ site_in self.now.words.now e }
    {
        self.words[layout::HEAD * e] / 256 % 256
    }

    pub fn object(&self, e: usize) -> u64
        requires { head_length * e + head_length ≤ length self.now.words.now }
        ensures { result ≡ object_in self.now.words.now e }
    {
        self.words[layout::HEAD * e] / 65536 % 256
    }

    pub fn is_pending(&self, e: usize) -> bool
        requires { head_length * e + head_length ≤ length self.now.words.now }
        ensures { result ≡ is_pending_in self.now.words.now e }
    {
        self.words[layout::HEAD * e] / 16777216 % 256 == 1
    }

    pub fn value(&self, e: usize) -> u64
        requires { head_length * e + head_length ≤ length self.now.words.now }
        ensures { result ≡ value_in self.now.words.now e }
    {
        self.words[layout::HEAD * e] / 4294967296
    }

    pub fn is_present(&self, e: usize) -> bool
        requires { head_length * e + head_length ≤ length self.now.words.now }
        ensures { result ≡ is_present_in self.now.words.now e }
    {
        self.words[layout::HEAD * e + 1] % 256 == 1
    }

    pub fn position(&self, e: usize) -> u64
        requires { head_length * e + head_length ≤ length self.now.words.now }
        ensures { result ≡ position_in self.now.words.now e }
    {
        self.words[layout::HEAD * e + 1] / 65536 % 65536
    }

    pub fn start_time(&self, e: usize) -> u64
        requires { head_length * e + head_length ≤ length self.now.words.now }
        ensures { result ≡ start_in self.now.words.now e }
    {
        self.words[layout::HEAD * e + 2]
    }

    // A pending event has no return: its word is not read.
    pub fn return_time(&self, e: usize) -> u64
        requires { (head_length * e + head_length ≤ length self.now.words.now) × (is_pending_in self.now.words.now e ≡ false) }
        ensures { result ≡ return_in self.now.words.now e }
    {
        self.words[layout::HEAD * e + 3]
    }
}
