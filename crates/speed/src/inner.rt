// Plans, records and answers between arrays and the library's values, and a run of inner steps.
ghost use Rattle.std.specs.Prelude.{◌≡◌, length};
ghost use Rattle.records.specs.First.{Fine};
ghost use Rattle.arbiter.specs.Step.{step_check};

use arbiter::inner::serve_slot;
use arbiter::{Arbiter, Served, Stepped};
use frame::inner::next;
use plan::{Client, Plan};
use records::refusal::Refusal;
use std::array;

// The requirements of eight clients.
pub fn clients_in(words: &[u16; 32]) -> [Client; 8] {
    array::from_fn(|i| Client {
        p: words[4 * i],
        q: words[4 * i + 1],
        a: words[4 * i + 2],
        b: words[4 * i + 3],
    })
}

// The plan with these numbers.
pub fn plan_in(f: usize, n: usize, words: &[u16; 32], owners: &[u8; 64]) -> Plan {
    Plan {
        f,
        n,
        clients: clients_in(words),
        owners: *owners,
    }
}

// The numbers of eight clients.
pub fn put_clients(words: &mut [u16; 32], clients: &[Client; 8]) {
    for (i, client) in clients.iter().enumerate() {
        words[4 * i] = client.p;
        words[4 * i + 1] = client.q;
        words[4 * i + 2] = client.a;
        words[4 * i + 3] = client.b;
    }
}

// A refusal's number.
pub fn number_of(why: Refusal) -> usize {
    usize::from(u8::from(why))
}

// The record in nine bytes: the position, and the counts.
pub fn arbiter_in(record: &[u8; 9]) -> Arbiter {
    let mut pending = [0; 8];
    pending.copy_from_slice(&record[1..]);
    Arbiter {
        position: usize::from(record[0]),
        pending,
    }
}

// A number below 256 and eight counts, in nine bytes.
fn put_nine(bytes: &mut [u8; 9], x: usize, counts: &[u8; 8]) {
    bytes[0] = (x % 256) as u8;
    bytes[1..].copy_from_slice(counts);
}

// A step's record and answer, each in nine bytes.
pub fn put_step(record: &mut [u8; 9], answer: &mut [u8; 9], stepped: Stepped) {
    put_nine(record, stepped.next.position, &stepped.next.pending);
    put_nine(answer, stepped.served.client, &stepped.served.turned);
}

// This many inner steps, at least one, each with the same arrivals: the last step's answer, and the record after it.
#[tactic(auto, using(arbiter::proofs::Questions::bounds, arbiter::proofs::Questions::next_passes))]
pub fn steps(plan: Plan, arbiter: Arbiter, arrivals: &[u8], times: usize) -> Stepped
    requires { step_check plan arbiter.position (length arrivals.now) ≡ Fine }
{
    let Arbiter {
        mut position,
        mut pending,
    } = arbiter;
    let mut turned = [0; 8];
    let mut client = serve_slot(plan, position, &mut pending, arrivals, &mut turned);
    for _ in 1..times {
        position = next(plan.f, position);
        client = serve_slot(plan, position, &mut pending, arrivals, &mut turned);
    }
    Stepped {
        served: Served { client, turned },
        next: Arbiter {
            position: next(plan.f, position),
            pending,
        },
    }
}
