//! One line of an access list, made as a call on the book, the equipment table or the strategy of a session.

ghost use Rattle.reader.specs.Standing.{standing};
ghost use Rattle.output.specs.declared.outcome.Outcome.TheVariants.{Refused};
ghost use Rattle.plans.specs.Table.{table};
ghost use Rattle.book.specs.Books.{shown};
ghost use Rattle.model.specs.Question.{asked};
ghost use Rattle.reader.specs.Sessions.{by_call, by_question, outcome_of, plan_for, prefer_minus, session_after};
ghost use Rattle.std.specs.Prelude.{◌≡◌};

use crate::session::Session;
use lines::line::Line;
use model::access::Access;
use model::answer::Answer;
use model::refusal::Refusal;
use numbered::Numbered;
use output::outcome::Outcome;
use plans::Channels;
use strategies::marks::Sign;
use strategies::strategy::{DefaultRule, Locality, Majority, Strategy};

// What a refused call came to.
fn refused<R: Numbered>(refusal: R) -> Outcome
    ensures { result ≡ Refused (R.number_of refusal) }
{
    Outcome::Refused {
        number: refusal.number(),
    }
}

// What a call came to that gives nothing.
fn by_call<R: Numbered>(reply: Result<(), R>) -> Outcome
    ensures { result ≡ by_call R.number_of reply }
{
    match reply {
        Ok(()) => Outcome::Done,
        Err(refusal) => refused(refusal),
    }
}

// What a question came to.
fn by_question(reply: Result<Answer, Refusal>) -> Outcome
    ensures { result ≡ by_question reply }
{
    match reply {
        Ok(answer) => Outcome::Answered {
            sign: answer.sign,
            plus_total: answer.plus_total,
            minus_total: answer.minus_total,
        },
        Err(refusal) => refused(refusal),
    }
}

// The strategy `P-`, which holds until a line chooses another.
pub(crate) fn prefer_minus() -> Strategy
    ensures { result ≡ prefer_minus }
{
    Strategy::standing_for(
        DefaultRule::Dropped,
        Locality::Anywhere,
        Majority::Skipped,
        Sign::Minus,
    )
}

impl Session<'_> {
    // Asks over the plan of the right.
    fn ask(&self, access: Access) -> Result<Answer, Refusal>
        ensures { result ≡ asked 32 (shown self.now.book) (plan_for (table self.now.equipment) access.right) access.account access.item access.right self.now.strategy }
    {
        // Two calls and no plan chosen before: the plans are of two types.
        if access.right < 4 {
            self.book.quick(&self.equipment, access, self.strategy)
        } else {
            self.book.quick(&Channels, access, self.strategy)
        }
    }

    // Makes the call that a line says.
    pub(crate) fn act(&mut self, line: Line) -> Outcome
        ensures answer { result ≡ outcome_of (standing self.old) line }
        ensures after { standing self.new ≡ session_after (standing self.old) line }
    {
        match line {
            Line::Join { group, member } => by_call(self.book.join(group, member)),
            Line::Leave { group, member } => by_call(self.book.leave(group, member)),
            Line::Give { grant } => by_call(self.book.grant(grant)),
            Line::Withdraw { access } => by_call(self.book.withdraw(access)),
            Line::Ask { access } => by_question(self.ask(access)),
            Line::Equip {
                item,
                first,
                second,
            } => by_call(self.equipment.add(item, first, second)),
            Line::Choose(chosen) => {
                self.strategy = chosen;
                Outcome::Done
            }
        }
    }
}
