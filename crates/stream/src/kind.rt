// The kinds of a plan stream's records, and the table of their body lengths, which reader and writer share.
ghost use Rattle.std.specs.Prelude.{◌≡◌, ◌*◌, ◌<◌, ◌≤◌};
ghost use Rattle.stream.specs.Kind.{code, body_of, whole_of, kind_check, rows_of};

use records::refusal::Refusal;
use records::wide;

// The kinds, each with its byte.
#[derive(Clone, Copy)]
pub enum Kind {
    Head = 1, // f, n
    Client = 2, // client number, p, q, a, b
    Row = 3, // owners of the next eight slots
    End = 9, // end
}

impl Kind {
    // The length of its body.
    pub fn body(self) -> usize
        ensures { (result ≡ body_of (code self)) × (result < 256) }
    {
        body_of(self as u8)
    }

    // The length of a whole record.
    pub fn whole(self) -> usize
        ensures { (result ≡ whole_of (code self)) × (result ≤ 256) }
    {
        whole_of(self as u8)
    }

    // The length of k records.
    pub fn length(self, k: usize) -> usize
        requires { k ≤ 8 }
        ensures { result ≡ whole_of (code self) * k }
    {
        self.whole() * k
    }
}

// Body lengths by kind, 0 to 15.
const BODY: [u8; 16] = [0, 2, 9, 8, 0, 0, 0, 0, 0, 0, 0, 0, 0, 0, 0, 0];

// A kind's body length; 0 past the table, where every kind is reserved.
pub fn body_of(kind: u8) -> usize
    ensures { (result ≡ body_of kind) × (result < 256) }
{
    wide(BODY.get(wide(kind)).copied().unwrap_or(0))
}

// A whole record: one byte of kind, then its body.
pub fn whole_of(kind: u8) -> usize
    ensures { (result ≡ whole_of kind) × (result ≤ 256) }
{
    1 + body_of(kind)
}

// As many rows as f needs.
pub fn rows_of(f: usize) -> usize
    ensures { result ≡ rows_of f }
{
    f.div_ceil(8)
}

// Where a kind is due: 2 for a kind byte that is reserved, 3 for one that is known and not due here.
#[tactic(auto, unfolding(crate::specs::Kind::kind_check))]
pub fn check_kind(byte: u8, due: Kind) -> Result<(), Refusal>
    ensures { result ≡ kind_check (code due) byte }
{
    match byte {
        0 | 4..=8 | 10..=255 => Err(Refusal::Reserved),
        _ if byte == due as u8 => Ok(()),
        _ => Err(Refusal::NotDue),
    }
}
