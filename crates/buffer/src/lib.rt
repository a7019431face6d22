// A page that may be too short for what is written to it: what does not fit is counted and not stored. An empty page only measures.
#![tactic(auto)]

ghost use Rattle.std.specs.Prelude.{◌≡◌, [], ◌∷◌, length};
ghost use Rattle.buffer.specs.Stored.{HasRoom, Grows};

// A page, and the length of what is written to it so far.
#[derive(Drop)]
pub struct Page<'a> {
    pub bytes: &'a mut [u8],
    pub size: usize,
}

// Bytes over as many others. A loop, and not the library's copy, which calls memcpy or memmove: the entries call memset alone.
fn copy(to: &mut [u8], from: &[u8])
    requires { length to.old ≡ length from.now }
    ensures { to.new ≡ from.now }
{
    for i in 0..to.len() {
        to[i] = from[i];
    }
}

impl<'a> Page<'a> {
    // Nothing is written yet.
    pub fn new(bytes: &'a mut [u8]) -> Page<'a>
        ensures same_bytes { result.bytes.ghost_name ≡ bytes.entry.ghost_name }
        ensures untouched { result.bytes.now ≡ bytes.old }
        ensures nothing { result.size ≡ 0 }
    {
        Page { bytes, size: 0 }
    }

    // One byte.
    pub fn put_byte(&mut self, b: u8)
        requires { HasRoom self.old (b ∷ []) }
        ensures { Grows self.old (b ∷ []) self.new }
    {
        if self.size < self.bytes.len() {
            let n = self.size;
            self.bytes[n] = b;
        }
        self.size += 1;
    }

    // Bytes as they are.
    pub fn put(&mut self, text: &[u8])
        requires { HasRoom self.old text.now }
        ensures { Grows self.old text.now self.new }
    {
        let n = self.size;
        self.size = n + text.len();
        let end = self.bytes.len().min(self.size);
        if n < end {
            copy(&mut self.bytes[n..end], &text[..end - n]);
        }
    }
}
