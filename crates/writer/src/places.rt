// Writing bytes one after the other.
ghost use Rattle.std.specs.Prelude.{◌≡◌, [], ◌∷◌};

// Bytes that are written one after the other. Those that would stand past the end are counted and
// not written.
#[derive(Drop)]
pub(crate) struct Page<'a> {
    bytes: &'a mut [u8],
    count: usize,
}

impl<'a> Page<'a> {
    ghost use Rattle.sheet.specs.Blocks.{two, four};
    ghost use Rattle.writer.specs.Puts.{Puts};

    // A page on which nothing was written.
    pub(crate) fn new(bytes: &'a mut [u8]) -> Page<'a>
        ensures same_bytes { result.bytes.ghost_name ≡ bytes.entry.ghost_name }
        ensures old { result.bytes.now ≡ bytes.old }
        ensures none { result.count ≡ 0 }
    {
        Page { bytes, count: 0 }
    }

    // How many bytes were written or left out.
    pub(crate) fn count(&self) -> usize
        ensures { result ≡ self.now.count }
    {
        self.count
    }

    // Writes one byte.
    pub(crate) fn put(&mut self, byte: u8)
        ensures { Puts self.old self.new (byte ∷ []) }
    {
        // After get_mut of a slice a proof knows its length and no entry, so the place is tested.
        if self.count < self.bytes.len() {
            self.bytes[self.count] = byte;
        }
        self.count = self.count.saturating_add(1);
    }

    // Writes a number as two bytes, the higher one first.
    pub(crate) fn put_two(&mut self, number: u16)
        ensures { Puts self.old self.new (two number) }
    {
        let [high, low] = number.to_be_bytes();
        self.put(high);
        self.put(low);
    }

    // Writes a number as four bytes, the highest one first.
    pub(crate) fn put_four(&mut self, number: u32)
        ensures { Puts self.old self.new (four number) }
    {
        let [first, second, third, fourth] = number.to_be_bytes();
        self.put(first);
        self.put(second);
        self.put(third);
        self.put(fourth);
    }

    // Writes what a field begins with: its tag and the length of its body.
    pub(crate) fn put_head(&mut self, tag: u8, length: u16)
        ensures { Puts self.old self.new (tag ∷ two length) }
    {
        self.put(tag);
        self.put_two(length);
    }
}
