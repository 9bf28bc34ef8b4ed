//! Writes replies and grants into records.

ghost use Rattle.ffi.specs.Left.{grant_of};
ghost use Rattle.ffi.specs.Replies.{answer_reply, done_record, equipment_record, grant_record, reply_record, short_reply};
ghost use Rattle.std.specs.Prelude.{◌≡◌};

use crate::plain::{GrantRecord, ReplyRecord};
use model::answer::Answer;
use model::call::Reply;
use model::grant::Grant;
use numbered::Numbered;
use plans::EquipmentRefusal;
use strategies::marks::Sign;
use strategies::rows::DISTANCES;

// The number of no distance.
const NO_DISTANCE: u64 = 255;

// The reply to a call that was accepted and gives nothing.
const DONE: ReplyRecord = ReplyRecord {
    refusal: 0,
    sign: 0,
    distance: 0,
    plus: [0; DISTANCES],
    minus: [0; DISTANCES],
    default: [0; DISTANCES],
    plus_total: 0,
    minus_total: 0,
};

impl From<Grant> for GrantRecord {
    ghost from_gives = { λ grant written. written ≡ grant_record grant };

    // The record of a grant.
    fn from(grant: Grant) -> GrantRecord {
        GrantRecord {
            account: grant.account,
            item: grant.item,
            right: grant.right,
            sign: grant.sign as u32,
        }
    }
}

impl From<GrantRecord> for Grant {
    ghost from_gives = { λ written grant. grant ≡ grant_of written };

    // The grant of a record.
    fn from(written: GrantRecord) -> Grant {
        Grant {
            account: written.account,
            item: written.item,
            right: written.right,
            sign: if written.sign == 0 {
                Sign::Plus
            } else {
                Sign::Minus
            },
        }
    }
}

// A refusal, or 0, and a distance.
pub(crate) fn short_reply(number: u32, distance: u64) -> ReplyRecord
    ensures { result ≡ short_reply number distance }
{
    ReplyRecord {
        refusal: number,
        distance,
        ..DONE
    }
}

// The record of what gives nothing unless it is refused.
fn done_record<R: Numbered>(reply: Result<(), R>) -> ReplyRecord
    ensures { result ≡ done_record R.Numbered.number_of reply }
{
    match reply {
        Ok(()) => DONE,
        Err(refusal) => short_reply(refusal.number(), 0),
    }
}

impl From<Answer> for ReplyRecord {
    ghost from_gives = { λ answer reply. reply ≡ answer_reply answer };

    // The whole answer of a question.
    fn from(answer: Answer) -> ReplyRecord {
        let Answer {
            sign,
            plus,
            minus,
            default,
            plus_total,
            minus_total,
        } = answer;
        ReplyRecord {
            sign: sign as u32,
            plus,
            minus,
            default,
            plus_total,
            minus_total,
            ..DONE
        }
    }
}

impl From<Reply> for ReplyRecord {
    ghost from_gives = { λ reply written. written ≡ reply_record reply };

    // The record of what a call on the book gave.
    fn from(reply: Reply) -> ReplyRecord {
        match reply {
            Reply::Done(done) => done_record(done),
            Reply::Answered(Ok(answer)) => ReplyRecord::from(answer),
            Reply::Distance(Ok(distance)) => {
                short_reply(0, distance.map_or(NO_DISTANCE, |d| d as u64))
            }
            Reply::Answered(Err(refusal)) | Reply::Distance(Err(refusal)) => {
                done_record(Err(refusal))
            }
        }
    }
}

impl From<Result<(), EquipmentRefusal>> for ReplyRecord {
    ghost from_gives = { λ reply written. written ≡ equipment_record reply };

    // The record of what the equipment table gave.
    fn from(reply: Result<(), EquipmentRefusal>) -> ReplyRecord {
        done_record(reply)
    }
}
