//! Lists of calls on a book.

ghost use Rattle.std.specs.Prelude.{◌≡◌, ℕ, ◌+◌, ◌*◌, ◌<◌, min, ◌++◌, length, take, drop, slice_index};
ghost use Rattle.book.specs.Books.{accounts_of, capacity_in, counts_in, records_in, shown};
ghost use Rattle.runs.specs.Records.{record_run, record_step};
ghost use Rattle.chains.specs.Chains.{count};
ghost use Rattle.chains.specs.Table.{size, table_of};
ghost use Rattle.model.specs.Model.{just_made};
ghost use Rattle.model.specs.RunLaws.{CirclesInRuns};
ghost use Rattle.model.specs.Runs.{next, reply, run, run_replies};
ghost use Rattle.table.specs.Tables.{Largest};

use book::Book;
use model::call::{Call, Reply};
use model::grant::Grant;
use plans::Plan;

/// Makes one call; a question is put over the plan.
pub fn step<P: Plan>(book: &mut Book, plan: &P, call: Call) -> Reply
    ensures answer { result ≡ reply (accounts_of book.old) (capacity_in book.old) (P.Plan.meaning plan.now) (shown book.old) call }
    ensures after { shown book.new ≡ next (accounts_of book.old) (capacity_in book.old) (shown book.old) call }
    ensures records { records_in book.new ≡ record_step (accounts_of book.old) (capacity_in book.old) (shown book.old) (records_in book.old) call }
    ensures behind { drop (size (accounts_of book.old)) (counts_in book.new) ≡ drop (size (accounts_of book.old)) (counts_in book.old) }
    ensures accounts { accounts_of book.new ≡ accounts_of book.old }
    ensures capacity { capacity_in book.new ≡ capacity_in book.old }
{
    match call {
        Call::Join { group, member } => Reply::Done(book.join(group, member)),
        Call::Leave { group, member } => Reply::Done(book.leave(group, member)),
        Call::Give { grant } => Reply::Done(book.grant(grant)),
        Call::Withdraw { access } => Reply::Done(book.withdraw(access)),
        Call::Quick { access, strategy } => Reply::Answered(book.quick(plan, access, strategy)),
        Call::Walked { access, strategy } => Reply::Answered(book.walked(plan, access, strategy)),
        Call::Least { access, sign } => Reply::Distance(book.least(plan, access, sign)),
    }
}

/// Makes the calls in their order, as many as there is room for replies, and goes on where one is refused. Gives the number of
/// calls that were made. Replies behind them are left as they are.
#[tactic(auto, unfolding(model::specs::Runs::run, model::specs::Runs::run_replies, crate::specs::Records::record_run))]
pub fn run_calls<P: Plan>(book: &mut Book, plan: &P, calls: &[Call], replies: &mut [Reply]) -> usize
    ensures made { result ≡ min (length calls.now) (length replies.old) }
    ensures after { shown book.new ≡ run (accounts_of book.old) (capacity_in book.old) (shown book.old) (take result calls.now) }
    ensures answers { replies.new ≡ run_replies (accounts_of book.old) (capacity_in book.old) (P.Plan.meaning plan.now) (shown book.old) (take result calls.now) ++ drop result replies.old }
    ensures records { records_in book.new ≡ record_run (accounts_of book.old) (capacity_in book.old) (shown book.old) (records_in book.old) (take result calls.now) }
    ensures behind { drop (size (accounts_of book.old)) (counts_in book.new) ≡ drop (size (accounts_of book.old)) (counts_in book.old) }
    ensures accounts { accounts_of book.new ≡ accounts_of book.old }
    ensures capacity { capacity_in book.new ≡ capacity_in book.old }
{
    let many = calls.len().min(replies.len());
    // An index and not `replies.iter_mut().zip(calls)`: after that chain a proof knows how many replies there are, and not which.
    for (i, call) in calls[..many].iter().enumerate() {
        replies[i] = step(book, plan, *call);
    }
    many
}

/// Makes a book over the two pieces of memory and then the calls in their order, as many as there is room for replies.
///
/// What stands afterwards, every reply and every number in both pieces of memory are those of the model, which is fed the number
/// of accounts, the capacity and the calls, and nothing of the book.
#[tactic(auto, using(model::proofs::Circles::circles_in_runs))]
pub fn make_and_run<'a, P: Plan>(
    counts: &'a mut [u32],
    records: &'a mut [Grant],
    plan: &P,
    calls: &[Call],
    replies: &mut [Reply],
) -> Book<'a>
    ensures accounts { Largest (length counts.old) (accounts_of result) }
    ensures after { shown result ≡ run (accounts_of result) (min 512 (length records.old)) just_made (take (length replies.old) calls.now) }
    ensures places { (a s k : ℕ) → a < accounts_of result → s < accounts_of result → k < 8 → slice_index (counts_in result) ((a * accounts_of result + s) * 8 + k) ≡ count (accounts_of result) (run (accounts_of result) (min 512 (length records.old)) just_made (take (length replies.old) calls.now)).members a s k }
    ensures counts { counts_in result ≡ table_of (accounts_of result) (run (accounts_of result) (min 512 (length records.old)) just_made (take (length replies.old) calls.now)).members ++ drop (size (accounts_of result)) counts.old }
    ensures records { records_in result ≡ record_run (accounts_of result) (min 512 (length records.old)) just_made records.old (take (length replies.old) calls.now) }
    ensures answers { replies.new ≡ run_replies (accounts_of result) (min 512 (length records.old)) (P.Plan.meaning plan.now) just_made (take (length replies.old) calls.now) ++ drop (length calls.now) replies.old }
    ensures circles { CirclesInRuns }
{
    let mut book = Book::make(counts, records);
    let _ = run_calls(&mut book, plan, calls, replies);
    book
}
