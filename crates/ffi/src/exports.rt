//! The functions that a caller in C links.

ghost use Rattle.std.specs.Prelude.{◌≡◌, ◌<◌, ◌≤◌, min, ◌++◌, map, length, take, drop};
ghost use Rattle.chains.specs.Table.{size, table_of};
ghost use Rattle.ffi.specs.Replies.{grant_record};
ghost use Rattle.ffi.specs.Runs.{all_replies, at_first, run};
ghost use Rattle.reader.specs.Sessions.{list_output};
ghost use Rattle.table.specs.Tables.{Largest};

use crate::memory::{MOST_COUNTS, copy_first, write_first};
use crate::plain::{CallRecord, GrantRecord, ListRun, ReplyRecord, Run};
use crate::served::Served;
use book::Book;
use chains::LENGTHS;
use model::grant::{Grant, UNWRITTEN};
use plans::Equipment;
use reader::running::run_list;
use records::MOST_GRANTS;
use std::alloc::Global;

// Makes a book over memory of the library's own, serves the calls, and writes what then stands into the caller's memory.
fn run_over(
    table: &mut [u32],
    grants: &mut [Grant],
    counts: &mut [u32],
    records: &mut [GrantRecord],
    calls: &[CallRecord],
    replies: &mut [ReplyRecord],
) -> Run
    requires table { length table.old ≡ min 32768 (length counts.old) }
    requires grants { length grants.old ≡ min 512 (length records.old) }
    ensures status { result.status ≡ 0 }
    ensures accounts { Largest (length counts.old) result.accounts }
    ensures calls { result.calls ≡ min (length calls.now) (length replies.old) }
    ensures answers { replies.new ≡ all_replies result.accounts (min 512 (length records.old)) at_first (take result.calls calls.now) ++ drop result.calls replies.old }
    ensures counts { counts.new ≡ table_of result.accounts (run result.accounts (min 512 (length records.old)) at_first (take result.calls calls.now)).model.members ++ drop (size result.accounts) counts.old }
    ensures records { records.new ≡ map grant_record (run result.accounts (min 512 (length records.old)) at_first (take result.calls calls.now)).model.grants ++ drop result.grants records.old }
    ensures grants { result.grants ≡ length (run result.accounts (min 512 (length records.old)) at_first (take result.calls calls.now)).model.grants }
{
    let mut served = Served {
        book: Book::make(table, grants),
        equipment: Equipment::new(),
    };
    let made = served.serve_all(calls, replies);
    let accounts = served.book.accounts();
    let size = accounts * accounts * LENGTHS;
    copy_first(counts, served.book.counts(), size);
    let standing = served.book.grants();
    write_first(records, standing);
    Run {
        status: 0,
        calls: made as u64,
        accounts: accounts as u64,
        grants: standing.len() as u64,
    }
}

/// Makes a book and serves the calls in their order, as many as there is room for replies. The book knows as many accounts as the counts
/// have room for, 64 at most, and as many grants as there are records, 512 at most, can stand.
///
/// Afterwards the counts hold the table of the memberships that then stand, and the first records the grants that then stand, in
/// their order. Counts, records and replies behind them are left as they are. Every reply is that of the model.
#[unsafe(no_mangle)]
pub extern "C" fn ladle_make_and_run(
    counts: &mut [u32],
    records: &mut [GrantRecord],
    calls: &[CallRecord],
    replies: &mut [ReplyRecord],
) -> Run
    ensures status { result.status ≡ 0 }
    ensures accounts { Largest (length counts.old) result.accounts }
    ensures calls { result.calls ≡ min (length calls.now) (length replies.old) }
    ensures answers { replies.new ≡ all_replies result.accounts (min 512 (length records.old)) at_first (take result.calls calls.now) ++ drop result.calls replies.old }
    ensures counts { counts.new ≡ table_of result.accounts (run result.accounts (min 512 (length records.old)) at_first (take result.calls calls.now)).model.members ++ drop (size result.accounts) counts.old }
    ensures records { records.new ≡ map grant_record (run result.accounts (min 512 (length records.old)) at_first (take result.calls calls.now)).model.grants ++ drop result.grants records.old }
    ensures grants { result.grants ≡ length (run result.accounts (min 512 (length records.old)) at_first (take result.calls calls.now)).model.grants }
{
    let mut table = [0; MOST_COUNTS];
    let mut grants = [UNWRITTEN; MOST_GRANTS];
    let size = counts.len().min(MOST_COUNTS);
    let capacity = records.len().min(MOST_GRANTS);
    run_over(
        &mut table[0..size],
        &mut grants[0..capacity],
        counts,
        records,
        calls,
        replies,
    )
}

// Writes the output of a list into the caller's memory, if it has room for all of it.
// The status is a number and not an enum: the caller in C reads it.
fn write_output(output: &[u8], out: &mut [u8]) -> ListRun
    ensures status { result.status ≤ 1 }
    ensures written { result.status ≡ 0 → out.new ≡ output.now ++ drop (length output.now) out.old }
    ensures lacking { result.status ≡ 1 → (length out.old < length output.now) × (out.new ≡ out.old) }
    ensures bytes { result.bytes ≡ length output.now }
{
    let bytes = output.len();
    if bytes > out.len() {
        return ListRun {
            status: 1,
            bytes: bytes as u64,
        };
    }
    copy_first(out, output, bytes);
    ListRun {
        status: 0,
        bytes: bytes as u64,
    }
}

/// Runs an access list, and writes its output, a line for each line of the list.
///
/// Status 0: the output stands in the first bytes of `out`, and has this many bytes; those behind it are left as they are. Status 1: the
/// output has this many bytes, more than `out`. Status 2: memory was wanting. In both, `out` is left as it is.
#[unsafe(no_mangle)]
pub extern "C" fn ladle_run_list(heap: Global, text: &[u8], out: &mut [u8]) -> ListRun
    ensures status { result.status ≤ 2 }
    ensures written { result.status ≡ 0 → (result.bytes ≡ length (list_output text.now)) × (out.new ≡ list_output text.now ++ drop result.bytes out.old) }
    ensures lacking { result.status ≡ 1 → (result.bytes ≡ length (list_output text.now)) × (length out.old < result.bytes) × (out.new ≡ out.old) }
    ensures wanting { result.status ≡ 2 → (result.bytes ≡ 0) × (out.new ≡ out.old) }
{
    match run_list(text, heap) {
        Ok(output) => write_output(&output, out),
        Err(_) => ListRun {
            status: 2,
            bytes: 0,
        },
    }
}
