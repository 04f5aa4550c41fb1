// The writer: a plan's records put into an output, one after the other.
ghost use Rattle.std.specs.Prelude.{◌≡◌, ◌+◌, ◌<◌, ◌≤◌, ltb, length};
ghost use Rattle.records.specs.First.{pick};
ghost use Rattle.records.specs.Pieces.{many, firsts};
ghost use Rattle.records.specs.Put.{Put, Adds, HasRoom};
ghost use Rattle.stream.specs.Kind.{head_kind, client_kind, row_kind, whole_of, rows_of};
ghost use Rattle.stream.specs.Write.{head_record, client_bytes, client_record, row_byte, row_record, stream_of};
ghost use Rattle.stream.specs.Trip.{Words, Held};

use super::kind::{self, Kind};
use plan::{Client, Plan};
use records::output::Output;

// The record of f and n.
fn put_head(out: &mut Output, plan: Plan)
    requires { (plan.f ≤ 64) × (plan.n ≤ 8) × HasRoom out.old (whole_of head_kind) }
    ensures { Adds out.old (head_record plan) out.new }
{
    out.put_byte(Kind::Head as u8);
    out.put_byte(plan.f as u8);
    out.put_byte(plan.n as u8);
}

// A client's record. That its numbers have two bytes, as their type says, is passed on for the round trip.
fn put_client(out: &mut Output, number: u8, client: Client)
    requires { HasRoom out.old (whole_of client_kind) }
    ensures put { Adds out.old (client_bytes number client) out.new }
    ensures words { Words client }
{
    out.put_byte(Kind::Client as u8);
    out.put_byte(number);
    out.put_word(client.p);
    out.put_word(client.q);
    out.put_word(client.a);
    out.put_word(client.b);
}

// The records of all clients.
fn put_clients(out: &mut Output, plan: Plan)
    requires { (plan.n ≤ 8) × HasRoom out.old (length (many (client_record plan) plan.n)) }
    ensures put { Adds out.old (many (client_record plan) plan.n) out.new }
    ensures held { Held plan }
{
    for (i, &client) in plan.clients[..plan.n].iter().enumerate() {
        put_client(out, (i + 1) as u8, client);
    }
}

// The byte of slot x, where its owner is at hand: 255 past f.
fn slot_byte(f: usize, x: usize, owner: u8) -> u8
    ensures { result ≡ pick (ltb x f) owner 255 }
{
    if x < f { owner } else { 255 }
}

// The eight bytes of row j.
fn put_slots(out: &mut Output, plan: Plan, j: usize)
    requires { (plan.f ≤ 64) × (j < 8) × HasRoom out.old 8 }
    ensures { Adds out.old (firsts (row_byte plan j) 8) out.new }
{
    // by name, since writing takes a fifth longer where each slot is read out of the plan
    let owners = plan.owners;
    for t in 0..8 {
        let x = 8 * j + t;
        out.put_byte(slot_byte(plan.f, x, owners[x]));
    }
}

// The record of row j.
fn put_row(out: &mut Output, plan: Plan, j: usize)
    requires { (plan.f ≤ 64) × (j < 8) × HasRoom out.old (whole_of row_kind) }
    ensures { Adds out.old (row_record plan j) out.new }
{
    out.put_byte(Kind::Row as u8);
    put_slots(out, plan, j);
}

// The records of all rows.
fn put_rows(out: &mut Output, plan: Plan)
    requires { (plan.f ≤ 64) × HasRoom out.old (length (many (row_record plan) (rows_of plan.f))) }
    ensures { Adds out.old (many (row_record plan) (rows_of plan.f)) out.new }
{
    for j in 0..kind::rows_of(plan.f) {
        put_row(out, plan, j);
    }
}

// The stream of a plan, into an output that holds it.
pub fn put_stream(out: &mut [u8], plan: Plan) -> usize
    requires { (plan.f ≤ 64) × (plan.n ≤ 8) × (length (stream_of plan) ≤ length out.old) }
    ensures put { Put out.old 0 (stream_of plan) out.new result }
    ensures held { Held plan }
{
    let mut stream = Output { lent: out, at: 0 };
    put_head(&mut stream, plan);
    put_clients(&mut stream, plan);
    put_rows(&mut stream, plan);
    stream.put_byte(Kind::End as u8);
    stream.at
}

// The length of a plan's stream.
pub fn stream_length(plan: Plan) -> usize
    requires { (plan.f ≤ 64) × (plan.n ≤ 8) }
    ensures { result ≡ length (stream_of plan) }
{
    Kind::Head.whole()
        + Kind::Client.length(plan.n)
        + Kind::Row.length(kind::rows_of(plan.f))
        + Kind::End.whole()
}
