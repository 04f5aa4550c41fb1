// What each op calls, and its reply.
use super::case;
use super::case::Case;
use super::reply::Reply;
use arbiter::{Arbiter, Served, Stepped};
use judge::{Judgement, Verdict};
use plan::Plan;
use records::refusal::Refusal;

// A plan: f, n, clients 1 to n with their p, q, a and b, and its owners.
fn put_plan(reply: &mut Reply, plan: &Plan) {
    reply.word(b"plan");
    reply.number(plan.f);
    reply.number(plan.n);
    for client in &plan.clients[..plan.n.min(8)] {
        for x in [client.p, client.q, client.a, client.b] {
            reply.number(usize::from(x));
        }
    }
    reply.numbers(&plan.owners[..plan.f.min(64)]);
}

// 1: the stream is read.
fn read(reply: &mut Reply, case: &Case) {
    match stream::read(case::stream(case)) {
        Ok(plan) => put_plan(reply, &plan),
        Err(refused) => {
            reply.refusal(refused.why);
            reply.word(b"at");
            reply.number(refused.offset);
        },
    }
}

// 2: the plan is written into a lent output of x bytes, at most 200, each 170 before; the reply has each of them as it
// is after the call.
fn write(reply: &mut Reply, case: &Case) {
    let mut lent = [170; 200];
    let size = case::x(case).min(200);
    match stream::write(case::plan(case), &mut lent[..size]) {
        Ok(_) => reply.word(b"ok"),
        Err(why) => reply.refusal(why),
    }
    reply.numbers(&lent[..size]);
}

// 3: the figures of client x.
fn figure(reply: &mut Reply, case: &Case) {
    match figures::figure_of(case::plan(case), case::x(case)) {
        Ok(figure) => {
            reply.number(figure.slots);
            reply.number(figure.scaled);
        },
        Err(why) => reply.refusal(why),
    }
}

// 4 and 5: a wait, or its refusal.
fn put_wait(reply: &mut Reply, wait: Result<usize, Refusal>) {
    match wait {
        Ok(slots) => reply.number(slots),
        Err(why) => reply.refusal(why),
    }
}

// A client that is not ok: its number and verdict, and the stretch.
fn put_failure(reply: &mut Reply, judgement: Judgement, verdict: &[u8]) {
    reply.number(judgement.client);
    reply.word(verdict);
    reply.number(judgement.start);
    reply.number(judgement.length);
}

// 6: the plan is judged.
fn judge(reply: &mut Reply, case: &Case) {
    match judge::judge(case::plan(case)) {
        Ok(judgement) => match judgement.verdict {
            Verdict::Ok => reply.word(b"accepted"),
            Verdict::Rate => put_failure(reply, judgement, b"rate"),
            Verdict::Late => put_failure(reply, judgement, b"late"),
        },
        Err(why) => reply.refusal(why),
    }
}

// 7: a table for f, n and the clients is searched.
fn search(reply: &mut Reply, case: &Case) {
    let plan = case::plan(case);
    match search::search(plan.f, plan.n, plan.clients) {
        Ok(Some(owners)) => reply.numbers(&owners[..plan.f.min(64)]),
        Ok(None) => reply.word(b"none"),
        Err(why) => reply.refusal(why),
    }
}

// Whom a step serves and the turned-away counts, or its refusal; and the record after it.
fn put_step(reply: &mut Reply, answer: Result<Served, Refusal>, after: Arbiter) {
    match answer {
        Ok(served) => {
            reply.number(served.client);
            reply.numbers(&served.turned);
        },
        Err(why) => reply.refusal(why),
    }
    reply.word(b":");
    reply.number(after.position);
    reply.numbers(&after.pending);
}

// 8: a step by value, after whose refusal the record is the caller's.
fn step(reply: &mut Reply, case: &Case) {
    let before = case::arbiter(case);
    match arbiter::step(case::plan(case), before, case::arrivals(case)) {
        Ok(Stepped { served, next }) => put_step(reply, Ok(served), next),
        Err(why) => put_step(reply, Err(why), before),
    }
}

// 9: a step in place, and the record that was lent to it as it is after the call.
fn step_in_place(reply: &mut Reply, case: &Case) {
    let mut lent = case::arbiter(case);
    let answer = arbiter::step_in_place(case::plan(case), &mut lent, case::arrivals(case));
    put_step(reply, answer, lent);
}

// The words of a reply that is one line.
fn put_line(reply: &mut Reply, case: &Case) {
    match case::op(case) {
        1 => read(reply, case),
        2 => write(reply, case),
        3 => figure(reply, case),
        4 => put_wait(
            reply,
            figures::wait_for(case::plan(case), case::x(case), case::k(case)),
        ),
        5 => put_wait(
            reply,
            figures::default_wait(case::plan(case), case::x(case)),
        ),
        6 => judge(reply, case),
        7 => search(reply, case),
        8 => step(reply, case),
        9 => step_in_place(reply, case),
        _ => reply.word(b"op?"),
    }
}

// The whole reply to a case, into a reply with no words. Ops 10 and 11: the texts of the two programs, with their own
// line ends.
pub fn put_reply(reply: &mut Reply, case: &Case) {
    match case::op(case) {
        10 => reply.text(case::stream(case), listing::report),
        11 => reply.text(case::stream(case), listing::homing),
        _ => {
            put_line(reply, case);
            reply.end();
        },
    }
}
