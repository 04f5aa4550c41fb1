// What C callers are told of an answer, and the nine bytes of a record and of a step's answer.
ghost use Rattle.std.specs.Prelude.{◌≡◌, ◌∷◌, ◌<◌};
ghost use Rattle.records.specs.Said.{Answers, said_number, said_or};
ghost use Rattle.stream.specs.Read.{read_of};
ghost use Rattle.search.specs.Search.{search_check};
ghost use Rattle.capi.specs.Calls.{OfRead, emptied, IsSearchedFor, record_in};

use super::RECORD;
use arbiter::Arbiter;
use plan::Plan;
use records::refusal::{Refusal, Refused};
use records::wide;
use search::inner::check_search;

// What is said of a stream: reading's refusal, else the answer to a question about the plan that was read.
pub fn asked<A, F: FnOnce(Plan) -> Result<A, Refusal>>(s: &[u8], question: F) -> Result<A, Refusal>
    requires { F.IsAlwaysCallable question }
    ensures { OfRead (F.post question) (read_of s.now) result }
{
    question(stream::read(s)?)
}

// An answer as C callers are told it: the refusal's number, 0 where nothing is refused, and the value, or zero.
pub fn told<A: Copy>(answer: Result<A, Refusal>, zero: A) -> (usize, A)
    ensures { (result.0 ≡ said_number answer) × (result.1 ≡ said_or zero answer) }
{
    match answer {
        Ok(value) => (0, value),
        Err(why) => (wide(why.into()), zero),
    }
}

// Whether a stream's plan can be searched for.
pub fn check_searched(s: &[u8]) -> Result<(), Refusal>
    ensures { OfRead (λ plan. Answers (search_check (emptied plan)) (λ u. Unit {0})) (read_of s.now) result }
{
    check_search(stream::read(s)?)?;
    Ok(())
}

// The table that is found for the plan of a reading.
pub fn searched(reading: Result<Plan, Refused>) -> Result<Option<[u8; 64]>, Refusal>
    ensures { OfRead IsSearchedFor reading result }
{
    let plan = reading?;
    search::search(plan.f, plan.n, plan.clients)
}

// The record that nine bytes hold.
pub fn record_in(bytes: [u8; RECORD]) -> Arbiter
    ensures { (result ≡ record_in bytes) × (result.position < 256) }
{
    let [position, a, b, c, d, e, f, g, h] = bytes;
    Arbiter {
        position: wide(position),
        pending: [a, b, c, d, e, f, g, h],
    }
}

// A number and eight more, in nine bytes.
pub fn put_nine(out: &mut [u8; RECORD], first: u8, rest: [u8; 8])
    ensures { out.new ≡ first ∷ rest }
{
    let [a, b, c, d, e, f, g, h] = rest;
    *out = [first, a, b, c, d, e, f, g, h];
}
