// A reply: words put into a page one after the other. No room is asked for: what does not fit is left out. No reply
// fills half a page, so nothing ever is.
use records::output::Output;
use records::refusal::Refusal;
use text::PAGE;
use text::inner::put_decimal;

// A lent page, of which this much is filled.
#[derive(Drop)]
pub struct Reply<'a> {
    page: &'a mut [u8; PAGE],
    size: usize,
}

impl<'a> Reply<'a> {
    // A reply with no words yet, in this page.
    pub fn new(page: &'a mut [u8; PAGE]) -> Reply<'a> {
        Reply { page, size: 0 }
    }

    // The whole reply is a text with its own line ends, which is put into the page as it stands.
    pub fn text<F: FnOnce(&[u8], &mut [u8; PAGE]) -> usize>(&mut self, s: &[u8], put_text: F)
        requires { F.IsAlwaysCallable put_text }
    {
        self.size = put_text(s, self.page);
    }

    // The bytes of the reply.
    pub fn bytes(&self) -> &[u8] {
        &self.page[..self.size.min(PAGE)]
    }

    // A fixed byte string, as it stands.
    fn put_piece(&mut self, piece: &[u8]) {
        let at = self.size;
        if at.saturating_add(piece.len()) <= PAGE {
            let mut out = Output {
                lent: self.page,
                at,
            };
            out.put(piece);
            self.size = out.at;
        }
    }

    // The space before a word that is not the first.
    fn put_space(&mut self) {
        if self.size != 0 {
            self.put_piece(b" ");
        }
    }

    // The next word.
    pub fn word(&mut self, word: &[u8]) {
        self.put_space();
        self.put_piece(word);
    }

    // The next word, a number: no number has more than twenty digits.
    pub fn number(&mut self, x: usize) {
        self.put_space();
        let at = self.size;
        if at <= PAGE - 20 {
            let mut out = Output {
                lent: self.page,
                at,
            };
            put_decimal(&mut out, x);
            self.size = out.at;
        }
    }

    // The next words, a number for each byte.
    pub fn numbers(&mut self, bytes: &[u8]) {
        for &x in bytes {
            self.number(usize::from(x));
        }
    }

    // The first words of a reply that is a refusal.
    pub fn refusal(&mut self, why: Refusal) {
        self.word(b"refusal");
        self.number(usize::from(u8::from(why)));
    }

    // The end of the line.
    pub fn end(&mut self) {
        self.put_piece(b"\n");
    }
}
