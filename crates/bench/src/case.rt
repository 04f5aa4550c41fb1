// The fields of a case.
ghost use Rattle.std.specs.Prelude.{◌+◌, ◌≤◌};

use arbiter::Arbiter;
use plan::{Client, Plan};
use records::inner::word_at;
use std::array;

// The bytes of a case.
pub const SIZE: usize = 256;

// A case.
pub type Case = [u8; SIZE];

// The number of the two bytes at a place, the high byte first.
fn number_at(case: &Case, at: usize) -> usize
    requires { at + 2 ≤ SIZE }
{
    usize::from(word_at(case, at))
}

// The op, byte 0.
pub fn op(case: &Case) -> u8 {
    case[0]
}

// x, bytes 1 and 2: a client, a position or a length, as the op says.
pub fn x(case: &Case) -> usize {
    number_at(case, 1)
}

// k, bytes 3 and 4: the waiting number, or how many arrivals are handed in.
pub fn k(case: &Case) -> usize {
    number_at(case, 3)
}

// The stream, in a case that has one: the first x bytes from byte 5 on, or all.
pub fn stream(case: &Case) -> &[u8] {
    &case[5..5 + x(case).min(SIZE - 5)]
}

// The client whose p, q, a and b start at a place.
fn client_at(case: &Case, at: usize) -> Client
    requires { at + 8 ≤ SIZE }
{
    Client {
        p: word_at(case, at),
        q: word_at(case, at + 2),
        a: word_at(case, at + 4),
        b: word_at(case, at + 6),
    }
}

// The plan: f, n, clients 1 to 8 from byte 9 on, and the owners from byte 73 on.
pub fn plan(case: &Case) -> Plan {
    let mut owners = [0; 64];
    owners.copy_from_slice(&case[73..137]);
    Plan {
        f: number_at(case, 5),
        n: number_at(case, 7),
        clients: array::from_fn(|i| client_at(case, 9 + 8 * i)),
        owners,
    }
}

// The arbiter's record: position x, and the pending counts from byte 137 on.
pub fn arbiter(case: &Case) -> Arbiter {
    let mut pending = [0; 8];
    pending.copy_from_slice(&case[137..145]);
    Arbiter {
        position: x(case),
        pending,
    }
}

// The arrivals, from byte 145 on: the first k, and at most 16.
pub fn arrivals(case: &Case) -> &[u8] {
    &case[145..145 + k(case).min(16)]
}
