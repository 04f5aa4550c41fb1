// The reader: first every check, record by record in the document's order; then the plan that the records hold.
ghost use Rattle.std.specs.Prelude.{◌≡◌, ℕ, ◌+◌, ◌*◌, ◌<◌, ◌≤◌, length, get_or};
ghost use Rattle.records.specs.First.{first_of, Fine};
ghost use Rattle.records.specs.Pieces.{padded};
ghost use Rattle.plan.specs.Plan.{no_client};
ghost use Rattle.plan.specs.Check.{owner_check};
ghost use Rattle.stream.specs.Kind.{head_kind, client_kind, row_kind, whole_of, code, rows_of};
ghost use Rattle.stream.specs.Read.{to_clients, place, due_check, head_record_check, client_at, number_check};
ghost use Rattle.stream.specs.Read.{client_record_check, client_due_check, slot_check, slot_due_check};
ghost use Rattle.stream.specs.Read.{row_record_check, row_due_check, end_record_check, rest_check, read_check};
ghost use Rattle.stream.specs.Read.{client_in, owner_in, plan_of};

use super::kind::{self, Kind};
use plan::{Client, Plan, inner, no_client};
use records::inner::word_at;
use records::refusal::{Refusal, Refused};
use records::{check_over, check_record, kind_at, wide};

// ---- checks

// A record where a kind is due: 1, 2, 3, 1. The body is looked at only where its kind is the one due.
fn check_due(s: &[u8], at: usize, due: Kind) -> Result<(), Refused>
    ensures { result ≡ due_check s.now at (code due) }
{
    let found = kind::check_kind(kind_at(s, at), due);
    check_record(s, at, found, due.body())
}

// The record of f and n: 5, 6.
#[tactic(auto, unfolding(crate::specs::Read::head_record_check))]
fn check_head(s: &[u8]) -> Result<(), Refused>
    ensures { result ≡ head_record_check s.now }
{
    check_due(s, 0, Kind::Head)?;
    inner::check_frame(wide(s[1]))?;
    inner::check_count(wide(s[2]))
}

// The requirements in a client's record.
#[tactic(auto, unfolding(crate::specs::Read::client_at))]
fn client_at(s: &[u8], at: usize) -> Client
    requires { at + whole_of client_kind ≤ length s.now }
    ensures { result ≡ client_at s.now at }
{
    Client {
        p: word_at(s, at + 2),
        q: word_at(s, at + 4),
        a: word_at(s, at + 6),
        b: word_at(s, at + 8),
    }
}

// The number in a client's record is the next one: 7.
#[tactic(auto, unfolding(crate::specs::Read::number_check))]
fn check_number(found: u8, number: usize, at: usize) -> Result<(), Refused>
    ensures { result ≡ number_check found number at }
{
    if wide(found) != number {
        return Err(Refusal::NotNext.at(at));
    }
    Ok(())
}

// A client's record: 7, 8, 9.
#[tactic(auto, unfolding(crate::specs::Read::client_record_check))]
fn check_client(s: &[u8], at: usize, number: usize) -> Result<(), Refused>
    ensures { result ≡ client_record_check s.now at number }
{
    check_due(s, at, Kind::Client)?;
    check_number(s[at + 1], number, at)?;
    inner::check_client(client_at(s, at), at)
}

// The records of all clients.
fn check_clients(s: &[u8], at: usize, n: usize) -> Result<(), Refused>
    requires { (at ≤ 4096) × (n ≤ 8) }
    ensures { result ≡ first_of (client_due_check s.now at) n }
{
    for i in 0..n {
        check_client(s, at + Kind::Client.length(i), i + 1)?;
    }
    Ok(())
}

// The byte of slot x: 10 below f, 11 past it.
#[tactic(auto, unfolding(crate::specs::Read::slot_check))]
fn check_slot(f: usize, n: usize, x: usize, byte: u8, at: usize) -> Result<(), Refused>
    ensures { result ≡ slot_check f n x byte at }
{
    if x < f {
        return inner::check_owner(byte, n, at);
    }
    if byte != 255 {
        return Err(Refusal::PastFrame.at(at));
    }
    Ok(())
}

// The eight bytes of a row that has no place past f: the highest decides.
fn check_owners(s: &[u8], n: usize, at: usize) -> Result<(), Refused>
    requires { at + whole_of row_kind ≤ length s.now }
    ensures { result ≡ first_of (λ t. owner_check (get_or s.now (at + (1 + t)) 0) n at) 8 }
{
    let mut highest = 0;
    for &byte in &s[at + 1..at + 9] {
        highest = highest.max(byte);
    }
    inner::check_owner(highest, n, at)
}

// The eight bytes of row j.
fn check_slots(s: &[u8], f: usize, n: usize, at: usize, j: usize) -> Result<(), Refused>
    requires { (j < 8) × (at + whole_of row_kind ≤ length s.now) }
    ensures { result ≡ first_of (slot_due_check s.now f n at j) 8 }
{
    for (t, &byte) in s[at + 1..at + 9].iter().enumerate() {
        check_slot(f, n, 8 * j + t, byte, at)?;
    }
    Ok(())
}

// The record of row j: 10, 11.
#[tactic(auto, unfolding(crate::specs::Read::row_record_check))]
fn check_row(s: &[u8], f: usize, n: usize, at: usize, j: usize) -> Result<(), Refused>
    requires { j < 8 }
    ensures { result ≡ row_record_check s.now f n at j }
{
    check_due(s, at, Kind::Row)?;
    if 8 * j + 8 <= f {
        return check_owners(s, n, at);
    }
    check_slots(s, f, n, at, j)
}

// The records of all rows. The place goes along with them: reading takes longer where it is a product of j.
fn check_rows(s: &[u8], f: usize, n: usize, at: usize) -> Result<(), Refused>
    requires { (at ≤ 4096) × (f ≤ 64) }
    ensures { result ≡ first_of (row_due_check s.now f n at) (rows_of f) }
{
    let mut to = at;
    for j in 0..kind::rows_of(f) {
        check_row(s, f, n, to, j)?;
        to += Kind::Row.whole();
    }
    Ok(())
}

// The end record, and nothing after it: 4.
#[tactic(auto, unfolding(crate::specs::Read::end_record_check))]
fn check_end(s: &[u8], at: usize) -> Result<(), Refused>
    requires { at ≤ 65536 }
    ensures { result ≡ end_record_check s.now at }
{
    check_due(s, at, Kind::End)?;
    check_over(s, at + Kind::End.whole())
}

// All that follows a head that passes.
fn check_rest(s: &[u8], f: usize, n: usize) -> Result<(), Refused>
    requires { (f ≤ 64) × (n ≤ 8) × (to_clients s.now ≡ whole_of head_kind) }
    ensures { result ≡ rest_check s.now f n }
{
    let to_clients = Kind::Head.whole();
    check_clients(s, to_clients, n)?;
    let to_rows = to_clients + Kind::Client.length(n);
    check_rows(s, f, n, to_rows)?;
    check_end(s, to_rows + Kind::Row.length(kind::rows_of(f)))
}

// The whole stream.
#[tactic(auto, unfolding(crate::specs::Read::read_check))]
pub fn check_stream(s: &[u8]) -> Result<(), Refused>
    ensures { result ≡ read_check s.now }
{
    check_head(s)?;
    check_rest(s, wide(s[1]), wide(s[2]))
}

// ---- the plan that the records hold

// The clients' requirements, 0 past n.
fn clients_in(s: &[u8], at: usize, n: usize) -> [Client; 8]
    requires { (at ≤ 4096) × (n ≤ 8) × (first_of (client_due_check s.now at) n ≡ Fine) }
    ensures { result ≡ padded (client_in s.now at) n 8 no_client }
{
    let mut clients = [no_client(); 8];
    for (i, client) in clients[..n].iter_mut().enumerate() {
        *client = client_at(s, at + Kind::Client.length(i));
    }
    clients
}

// The first k owners of row j, put past those of the rows before it; the rows begin at a place.
fn put_owners(owners: &mut [u8; 64], s: &[u8], at: usize, j: usize, k: usize)
    requires sizes { (at ≤ 4096) × (k ≤ 8) × (8 * j + k ≤ 64) × (place s.now at j ≡ at + whole_of row_kind * j) }
    requires room { (t : ℕ) → t < k → place s.now at j + (1 + t) < length s.now }
    requires before { owners.old ≡ padded (owner_in s.now at) (8 * j) 64 0 }
    ensures { owners.new ≡ padded (owner_in s.now at) (8 * j + k) 64 0 }
{
    let row = at + Kind::Row.length(j);
    for t in 0..k {
        owners[8 * j + t] = s[row + 1 + t];
    }
}

// The owners, 0 past f: full rows, then what f leaves of the last one.
fn owners_in(s: &[u8], at: usize, f: usize, n: usize) -> [u8; 64]
    requires { (at ≤ 4096) × (f ≤ 64) × (first_of (row_due_check s.now f n at) (rows_of f) ≡ Fine) }
    ensures { result ≡ padded (owner_in s.now at) f 64 0 }
{
    let mut owners = [0; 64];
    for j in 0..f / 8 {
        put_owners(&mut owners, s, at, j, 8);
    }
    put_owners(&mut owners, s, at, f / 8, f % 8);
    owners
}

// The plan of a stream that passes.
pub fn plan_at(s: &[u8]) -> Plan
    requires { read_check s.now ≡ Fine }
    ensures { result ≡ plan_of s.now }
{
    let f = wide(s[1]);
    let n = wide(s[2]);
    let to_clients = Kind::Head.whole();
    let clients = clients_in(s, to_clients, n);
    let owners = owners_in(s, to_clients + Kind::Client.length(n), f, n);
    Plan {
        f,
        n,
        clients,
        owners,
    }
}
