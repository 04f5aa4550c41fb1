// The library's operations for tests/speed to time beside their C twins. A plan is handed in as f, n, the clients' p,
// q, a and b one after the other, and the owners; a refusal's number is returned, 0 where nothing is refused. Only that
// these functions are safe and return is proved; what they call has its own contracts.
#![tactic(auto)]

pub mod inner; // inner.rt

use inner::{arbiter_in, clients_in, number_of, plan_in, put_clients, put_step, steps};
use stream::LONGEST;
use text::PAGE;

// Reads a stream: the plan's clients and owners, and f, n and the refusal's offset.
#[unsafe(no_mangle)]
pub extern "C" fn speed_read(
    s: &[u8],
    words: &mut [u16; 32],
    owners: &mut [u8; 64],
    sizes: &mut [usize; 3],
) -> usize {
    let (number, offset, plan) = match stream::read(s) {
        Ok(plan) => (0, 0, plan),
        Err(refused) => (number_of(refused.why), refused.offset, plan::no_plan()),
    };
    put_clients(words, &plan.clients);
    *owners = plan.owners;
    *sizes = [plan.f, plan.n, offset];
    number
}

// Writes a stream: its length, or 0.
#[unsafe(no_mangle)]
pub extern "C" fn speed_write(
    f: usize,
    n: usize,
    words: &[u16; 32],
    owners: &[u8; 64],
    out: &mut [u8; LONGEST],
) -> usize {
    stream::write(plan_in(f, n, words, owners), out).unwrap_or(0)
}

// Checks a plan.
#[unsafe(no_mangle)]
pub extern "C" fn speed_check(f: usize, n: usize, words: &[u16; 32], owners: &[u8; 64]) -> usize {
    match plan::check(plan_in(f, n, words, owners)) {
        Ok(()) => 0,
        Err(refused) => number_of(refused.why),
    }
}

// A client's m and L.
#[unsafe(no_mangle)]
pub extern "C" fn speed_figures(
    f: usize,
    n: usize,
    words: &[u16; 32],
    owners: &[u8; 64],
    client: usize,
    figure: &mut [usize; 2],
) -> usize {
    let (number, numbers) = match figures::figure_of(plan_in(f, n, words, owners), client) {
        Ok(found) => (0, [found.slots, found.scaled]),
        Err(why) => (number_of(why), [0; 2]),
    };
    *figure = numbers;
    number
}

// Judges a plan: client, verdict (0 ok, 1 rate, 2 late), start, length.
#[unsafe(no_mangle)]
pub extern "C" fn speed_judge(
    f: usize,
    n: usize,
    words: &[u16; 32],
    owners: &[u8; 64],
    found: &mut [usize; 4],
) -> usize {
    let (number, numbers) = match judge::judge(plan_in(f, n, words, owners)) {
        Ok(j) => (0, [j.client, j.verdict as usize, j.start, j.length]),
        Err(why) => (number_of(why), [0; 4]),
    };
    *found = numbers;
    number
}

// Searches: 0 where a table is found, 1 for none, else the refusal's number, which is above 1.
#[unsafe(no_mangle)]
pub extern "C" fn speed_search(
    f: usize,
    n: usize,
    words: &[u16; 32],
    owners: &mut [u8; 64],
) -> usize {
    let (number, table) = match search::search(f, n, clients_in(words)) {
        Ok(Some(table)) => (0, table),
        Ok(None) => (1, [0; 64]),
        Err(why) => (number_of(why), [0; 64]),
    };
    *owners = table;
    number
}

// One step, the plan checked: the record is its position and eight counts, the answer the client served and eight
// turned-away counts.
#[unsafe(no_mangle)]
pub extern "C" fn speed_step(
    f: usize,
    n: usize,
    words: &[u16; 32],
    owners: &[u8; 64],
    record: &mut [u8; 9],
    arrivals: &[u8],
    answer: &mut [u8; 9],
) -> usize {
    match arbiter::step(plan_in(f, n, words, owners), arbiter_in(record), arrivals) {
        Ok(stepped) => {
            put_step(record, answer, stepped);
            0
        },
        Err(why) => {
            *answer = [0; 9];
            number_of(why)
        },
    }
}

// The plan checked once, then this many inner steps with the same arrivals: the last step's answer.
#[unsafe(no_mangle)]
pub extern "C" fn speed_steps(
    f: usize,
    n: usize,
    words: &[u16; 32],
    owners: &[u8; 64],
    record: &mut [u8; 9],
    arrivals: &[u8],
    answer: &mut [u8; 9],
    times: usize,
) -> usize {
    let plan = plan_in(f, n, words, owners);
    let arbiter = arbiter_in(record);
    match arbiter::inner::check_step(plan, arbiter.position, arrivals.len()) {
        Ok(()) => {
            put_step(record, answer, steps(plan, arbiter, arrivals, times));
            0
        },
        Err(refused) => number_of(refused.why),
    }
}

// The report of a stream: the text's length.
#[unsafe(no_mangle)]
pub extern "C" fn speed_report(s: &[u8], page: &mut [u8; PAGE]) -> usize {
    listing::report(s, page)
}
