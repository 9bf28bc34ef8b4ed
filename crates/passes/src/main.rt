//! Two crews wait for their carrier. Both have the same yes, the same no and the same majority rule. The yes reaches crew one over
//! lines of two and of three memberships, and crew two over two lines of two. Every line counts, so both get their carrier.
#![tactic(auto)]

use anyhow::anyhow;
use book::Book;
use model::access::Access;
use model::answer::Answer;
use model::grant::{Grant, UNWRITTEN};
use model::refusal::Refusal;
use numbered::Numbered;
use plans::Channels;
use std::io;
use strategies::marks::Sign;
use strategies::strategy::Strategy;

// The accounts.
const CONSORTIUM: u32 = 0;

const MISSION: u32 = 1;

const UNIVERSITY: u32 = 2;

const LABORATORY: u32 = 3;

const STATION: u32 = 4;

const CREW_ONE: u32 = 5;

const CREW_TWO: u32 = 6;

// The channel, and the right to key its transmitter.
const CHANNEL: u32 = 5;

const KEYING: u32 = 4;

// Who is made a member of whom.
const JOINS: [(u32, u32); 9] = [
    (CONSORTIUM, MISSION),
    (CONSORTIUM, UNIVERSITY),
    (UNIVERSITY, LABORATORY),
    (MISSION, CREW_ONE),
    (LABORATORY, CREW_ONE),
    (MISSION, CREW_TWO),
    (UNIVERSITY, CREW_TWO),
    (STATION, CREW_ONE),
    (STATION, CREW_TWO),
];

// Says why a call was refused.
fn print_refusal(rt: &HostRuntime, refusal: Refusal) -> io::Result<()> {
    println!(rt; "refused with {}", refusal.number())
}

// Says what came of a call that changes the book.
fn print_reply(rt: &HostRuntime, reply: Result<(), Refusal>) -> io::Result<()> {
    match reply {
        Ok(()) => println!(rt; "done"),
        Err(refusal) => print_refusal(rt, refusal),
    }
}

// Makes the memberships, and then one that would close a circle.
fn join_all(rt: &HostRuntime, book: &mut Book) -> io::Result<()> {
    for (group, member) in JOINS {
        print!(rt; "join {member} to {group}: ")?;
        print_reply(rt, book.join(group, member))?;
    }
    print!(rt; "join {CONSORTIUM} to {CREW_TWO}: ")?;
    print_reply(rt, book.join(CREW_TWO, CONSORTIUM))
}

// Gives the one a yes and the other a no.
fn grant_both(rt: &HostRuntime, book: &mut Book) -> io::Result<()> {
    for (account, sign) in [(CONSORTIUM, Sign::Plus), (STATION, Sign::Minus)] {
        print!(rt; "grant {sign} to {account} on item 1, right {KEYING}: ")?;
        let grant = Grant {
            account,
            item: 1,
            right: KEYING,
            sign,
        };
        print_reply(rt, book.grant(grant))?;
    }
    Ok(())
}

// Says how many marks arrive over each distance over which any do, and what comes of them.
fn print_answer(rt: &HostRuntime, answer: &Answer) -> io::Result<()> {
    let signed = answer.plus.iter().zip(answer.minus.iter());
    for (distance, ((plus, minus), default)) in signed.zip(answer.default.iter()).enumerate() {
        if *plus > 0 || *minus > 0 || *default > 0 {
            println!(rt; "  over {distance}: {plus} +, {minus} -, {default} d")?;
        }
    }
    let sign = answer.sign;
    println!(rt;
        "  {sign}, by {} to {}",
        answer.plus_total, answer.minus_total
    )
}

// Says what a question was answered.
fn print_question(rt: &HostRuntime, asked: Result<Answer, Refusal>) -> io::Result<()> {
    match asked {
        Ok(answer) => {
            println!(rt; "answered")?;
            print_answer(rt, &answer)
        }
        Err(refusal) => print_refusal(rt, refusal),
    }
}

// Puts the question for the crew both ways, and asks for its nearest yes.
fn ask(rt: &HostRuntime, book: &Book, crew: u32, rule: Strategy) -> io::Result<()> {
    let access = Access {
        account: crew,
        item: CHANNEL,
        right: KEYING,
    };
    print!(rt; "may {crew} use right {KEYING} on item {CHANNEL}? ")?;
    print_question(rt, book.quick(&Channels, access, rule))?;
    print!(rt; "the same, walked: ")?;
    print_question(rt, book.walked(&Channels, access, rule))?;
    print!(rt; "the nearest yes: ")?;
    match book.least(&Channels, access, Sign::Plus) {
        Ok(Some(distance)) => println!(rt; "over {distance}"),
        Ok(None) => println!(rt; "none"),
        Err(refusal) => print_refusal(rt, refusal),
    }
}

// Makes the book, fills it, and asks for both crews.
fn tell(rt: &HostRuntime) -> anyhow::Result<()> {
    let rule = Strategy::named(b"MP-").map_err(|_| anyhow!("no such strategy"))?;
    let mut counts = [0; 512];
    let mut records = [UNWRITTEN; 4];
    let mut book = Book::make(&mut counts, &mut records);
    println!(rt; "a book of {} accounts", book.accounts())?;
    join_all(rt, &mut book)?;
    grant_both(rt, &mut book)?;
    for crew in [CREW_ONE, CREW_TWO] {
        ask(rt, &book, crew, rule)?;
    }
    Ok(())
}

// Prints what comes of the calls and of the questions for both crews.
fn main(rt: HostRuntime) -> anyhow::Result<()> {
    tell(&rt)
}
