// A lent output that bytes are put into one after the other, each where there is room for them.
ghost use Rattle.std.specs.Prelude.{[], ◌∷◌, length};
ghost use Rattle.records.specs.Put.{Adds, HasRoom};
ghost use Rattle.records.specs.Record.{be};

// The lent bytes, and the place where the next one is put.
#[derive(Drop)]
pub struct Output<'a> {
    pub lent: &'a mut [u8],
    pub at: usize,
}

impl Output<'_> {
    // One byte.
    pub fn put_byte(&mut self, x: u8)
        requires { HasRoom self.old 1 }
        ensures { Adds self.old (x ∷ []) self.new }
    {
        self.put(&[x]);
    }

    // A number in two bytes, the high byte first.
    pub fn put_word(&mut self, x: u16)
        requires { HasRoom self.old 2 }
        ensures { Adds self.old (be x) self.new }
    {
        let [high, low] = x.to_be_bytes();
        self.put_byte(high);
        self.put_byte(low);
    }

    // Bytes as they stand.
    pub fn put(&mut self, bytes: &[u8])
        requires { HasRoom self.old (length bytes.now) }
        ensures { Adds self.old bytes.now self.new }
    {
        let next = self.at + bytes.len();
        self.lent[self.at..next].copy_from_slice(bytes);
        self.at = next;
    }
}
