//! Reads records of calls.

ghost use Rattle.ffi.specs.Requests.{access_of, call_of, container_of, give_of, over, request_of, sign_of};
ghost use Rattle.ffi.specs.Strategies.{strategy_with};
ghost use Rattle.std.specs.Prelude.{◌≡◌};

use crate::plain::CallRecord;
use crate::request::Request;
use model::access::Access;
use model::call::Call;
use model::grant::Grant;
use strategies::marks::Sign;
use strategies::strategy::Strategy;

// Functions and not `From` or `TryFrom`: of a number and a sign, or a number and a container, neither type is this crate's own,
// and of a record that asks for nothing an error would say no more than that.

// The number that stands for no container.
const NO_CONTAINER: u32 = 4_294_967_295;

// The sign with the number, if there is one.
fn sign_of(number: u32) -> Option<Sign>
    ensures { result ≡ sign_of number }
{
    match number {
        0 => Some(Sign::Plus),
        1 => Some(Sign::Minus),
        _ => None,
    }
}

// The container with the number, if it stands for one.
fn container_of(number: u32) -> Option<u32>
    ensures { result ≡ container_of number }
{
    (number != NO_CONTAINER).then_some(number)
}

// The strategy with the number, if there is one: `numbered` by the list of strategies, and not by what their numbers are.
fn strategy_with(number: u32) -> Option<Strategy>
    ensures { result ≡ strategy_with number }
{
    Strategy::numbered(number)
}

// What a record that withdraws or asks is for.
fn access_of(written: CallRecord) -> Access
    ensures { result ≡ access_of written }
{
    Access {
        account: written.first,
        item: written.second,
        right: written.third,
    }
}

// A grant to be given.
fn give_of(written: CallRecord) -> Option<Call>
    ensures { result ≡ give_of written }
{
    Some(Call::Give {
        grant: Grant {
            account: written.first,
            item: written.second,
            right: written.third,
            sign: sign_of(written.fourth)?,
        },
    })
}

// The call on the book that a record names, if it names one.
// A match on the number and not on an enum of kinds: making the enum would be a second match.
fn call_of(written: CallRecord) -> Option<Call>
    ensures { result ≡ call_of written }
{
    match written.kind {
        0 => Some(Call::Join {
            group: written.first,
            member: written.second,
        }),
        1 => Some(Call::Leave {
            group: written.first,
            member: written.second,
        }),
        2 => give_of(written),
        3 => Some(Call::Withdraw {
            access: access_of(written),
        }),
        4 => Some(Call::Quick {
            access: access_of(written),
            strategy: strategy_with(written.fourth)?,
        }),
        5 => Some(Call::Walked {
            access: access_of(written),
            strategy: strategy_with(written.fourth)?,
        }),
        6 => Some(Call::Least {
            access: access_of(written),
            sign: sign_of(written.fourth)?,
        }),
        _ => None,
    }
}

// The call over the plan with the number, if there is one. The number is matched as a kind is.
fn over(plan: u32, call: Call) -> Option<Request>
    ensures { result ≡ over plan call }
{
    match plan {
        0 => Some(Request::OverChannels(call)),
        1 => Some(Request::OverEquipment(call)),
        _ => None,
    }
}

// What a record asks for, if it asks for anything.
pub(crate) fn request_of(written: CallRecord) -> Option<Request>
    ensures { result ≡ request_of written }
{
    if written.kind == 7 {
        return Some(Request::Equip {
            item: written.first,
            first: container_of(written.second),
            second: container_of(written.third),
        });
    }
    let call = call_of(written)?;
    over(written.plan, call)
}
