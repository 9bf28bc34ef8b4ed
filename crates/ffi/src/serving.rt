//! Serves records of calls on a book and an equipment table.

ghost use Rattle.std.specs.Prelude.{◌≡◌, min, ◌++◌, length, take, drop};
ghost use Rattle.book.specs.Books.{accounts_of, capacity_in};
ghost use Rattle.ffi.specs.Requests.{request_of};
ghost use Rattle.ffi.specs.Runs.{after, all_replies, reply_to, run, standing_on};

use crate::answers::short_reply;
use crate::plain::{CallRecord, ReplyRecord};
use crate::request::Request;
use crate::requests::request_of;
use crate::served::Served;
use plans::Channels;
use runs::step;

// The number that a record which asks for nothing is told.
const NO_CALL: u32 = 255;

impl Served<'_> {
    // Serves one request.
    fn serve(&mut self, request: Option<Request>) -> ReplyRecord
        ensures answer { result ≡ reply_to (accounts_of self.old.book) (capacity_in self.old.book) (standing_on self.old) request }
        ensures after { standing_on self.new ≡ after (accounts_of self.old.book) (capacity_in self.old.book) (standing_on self.old) request }
        ensures accounts { accounts_of self.new.book ≡ accounts_of self.old.book }
        ensures capacity { capacity_in self.new.book ≡ capacity_in self.old.book }
    {
        let Served { book, equipment } = self;
        match request {
            None => short_reply(NO_CALL, 0),
            Some(Request::OverChannels(call)) => step(book, &Channels, call).into(),
            Some(Request::OverEquipment(call)) => step(book, equipment, call).into(),
            Some(
                Request::Equip {
                    item,
                    first,
                    second,
                },
            ) => equipment.add(item, first, second).into(),
        }
    }

    // Serves the records in their order, as many as there is room for replies, and gives their number. Replies behind them are left as they are.
    #[tactic(auto, using(crate::proofs::Running::one_more))]
    pub(crate) fn serve_all(&mut self, calls: &[CallRecord], replies: &mut [ReplyRecord]) -> usize
        ensures made { result ≡ min (length calls.now) (length replies.old) }
        ensures answers { replies.new ≡ all_replies (accounts_of self.old.book) (capacity_in self.old.book) (standing_on self.old) (take result calls.now) ++ drop result replies.old }
        ensures after { standing_on self.new ≡ run (accounts_of self.old.book) (capacity_in self.old.book) (standing_on self.old) (take result calls.now) }
        ensures accounts { accounts_of self.new.book ≡ accounts_of self.old.book }
        ensures capacity { capacity_in self.new.book ≡ capacity_in self.old.book }
    {
        let many = calls.len().min(replies.len());
        // A write by place and not a zip: of elements that `iter_mut` lent, a proof knows the number alone.
        for (i, call) in calls[..many].iter().enumerate() {
            replies[i] = self.serve(request_of(*call));
        }
        many
    }
}
