// What all streams of records share, whatever their kinds and whatever they are refused for: the first refusal of two
// checks, the record due at a place, the bytes past the end. A check is a `Result`: nothing, or why it refuses and at
// which offset. `refusal` has the refusals, `output` a lent output that bytes are put into, `inner` words of two bytes.
#![tactic(auto)]

pub mod inner; // inner.rt
pub mod output; // output.rt
pub mod refusal; // refusal.rt

ghost use Rattle.std.specs.Prelude.{◌≡◌, ◌<◌, get_or};
ghost use Rattle.records.specs.First.{or_else, range_check};
ghost use Rattle.records.specs.Record.{record_check, record_check_by, over_check};

use refusal::{At, Refusal, Refused};

// The first refusal of two checks.
pub fn or_else<E: Copy>(first: Result<(), At<E>>, second: Result<(), At<E>>) -> Result<(), At<E>>
    ensures { result ≡ or_else first second }
{
    first.and(second)
}

// A number that is to be 1 to high, outside reading.
#[tactic(auto, unfolding(crate::specs::First::range_check))]
pub fn check_range<E: Copy>(x: usize, high: usize, why: E) -> Result<(), At<E>>
    ensures { result ≡ range_check x high why }
{
    if x < 1 || high < x {
        return Err(At { why, offset: 0 });
    }
    Ok(())
}

// A byte as a number that can be an index.
pub fn wide(x: u8) -> usize
    ensures { (result ≡ x) × (result < 256) }
{
    usize::from(x)
}

// The kind byte at a place, 0 past the end.
pub fn kind_at(s: &[u8], at: usize) -> u8
    ensures { result ≡ get_or s.now at 0 }
{
    s.get(at).copied().unwrap_or(0)
}

// A record at a place, by document 01's refusals: whether its kind is due there, and why not, is handed in; its body
// has this many bytes. One that ends too soon is refused by 1.
pub fn check_record(
    s: &[u8],
    at: usize,
    due: Result<(), Refusal>,
    body: usize,
) -> Result<(), Refused>
    ensures { result ≡ record_check s.now at due body }
{
    check_record_by(s, at, due, body, Refusal::Ended)
}

// The same by any reasons: one that ends too soon is refused by `ended`.
#[tactic(auto, unfolding(crate::specs::Record::record_check_by))]
pub fn check_record_by<E: Copy>(
    s: &[u8],
    at: usize,
    due: Result<(), E>,
    body: usize,
    ended: E,
) -> Result<(), At<E>>
    ensures { result ≡ record_check_by s.now at due body ended }
{
    if s.len() <= at {
        return Err(At {
            why: ended,
            offset: s.len(),
        });
    }
    if let Err(why) = due {
        return Err(At { why, offset: at });
    }
    if s.len() - at <= body {
        return Err(At {
            why: ended,
            offset: at,
        });
    }
    Ok(())
}

// Nothing follows the end record, whose next place is at.
#[tactic(auto, unfolding(crate::specs::Record::over_check))]
pub fn check_over(s: &[u8], at: usize) -> Result<(), Refused>
    ensures { result ≡ over_check s.now at }
{
    if at < s.len() {
        return Err(Refusal::Followed.at(at));
    }
    Ok(())
}
