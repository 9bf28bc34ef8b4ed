//! Runs a whole access list: a text in, the output bytes out.

ghost use Rattle.std.specs.Prelude.{◌≡◌, ◌<◌, [], ◌++◌, length, IfOk, MatchOption, OnSome};
ghost use Rattle.reader.specs.Lists.{unread};
ghost use Rattle.output.specs.Output.{Pushed, output_line};
ghost use Rattle.reader.specs.Sessions.{lines_output, list_output, started};
ghost use Rattle.reader.specs.Standing.{standing};

use crate::acting::prefer_minus;
use crate::reader::Reader;
use crate::session::Session;
use book::Book;
use chains::LENGTHS;
use model::grant::{Grant, UNWRITTEN};
use output::outcome::Outcome;
use output::pushing::push_line;
use plans::Equipment;
use records::MOST_GRANTS;
use std::alloc::{AllocError, Global};

/// No list is longer than this many bytes.
pub const MOST_BYTES: usize = 57_000;

// A book here has so many accounts.
const ACCOUNTS: usize = 32;

// A table of them has so many counts: one for each pair of accounts and each length.
const COUNTS: usize = ACCOUNTS * ACCOUNTS * LENGTHS;

// The number that a longer text is refused with. A number alone: no call refuses so, and nothing else is told of it.
const TOO_LONG: u32 = 21;

// What the next line comes to, if there is one: its call is made, unless the line has a fault.
fn run_line(reader: &mut Reader, session: &mut Session) -> Option<Outcome>
    ensures answer { MatchOption result (lines_output reader.old.line (standing session.old) (unread reader.old) ≡ []) (λ o. lines_output reader.old.line (standing session.old) (unread reader.old) ≡ output_line reader.new.line o ++ lines_output reader.new.line (standing session.new) (unread reader.new)) }
    ensures fewer { OnSome result (length (unread reader.new) < length (unread reader.old)) }
{
    match reader.next() {
        Ok(None) => None,
        Ok(Some(line)) => Some(session.act(line)),
        Err(at) => Some(Outcome::Faulty(at.fault)),
    }
}

// Runs the lines that the reader has before it, and writes what each comes to.
fn run_lines(
    reader: &mut Reader,
    session: &mut Session,
    out: &mut Vec<u8>,
) -> Result<(), AllocError>
    ensures { Pushed result out.old.items out.new.items (lines_output reader.old.line (standing session.old) (unread reader.old)) }
{
    while let Some(outcome) = run_line(reader, session) {
        push_line(out, reader.line(), outcome)?;
    }
    Ok(())
}

// What stands before the first line, in memory for 32 accounts and 512 grants.
fn start<'a>(counts: &'a mut [u32; COUNTS], records: &'a mut [Grant; MOST_GRANTS]) -> Session<'a>
    ensures { standing result ≡ started }
{
    Session {
        book: Book::make(counts, records),
        equipment: Equipment::new(),
        strategy: prefer_minus(),
    }
}

/// Runs an access list and gives its output, a line for each line of the list.
///
/// The book has 32 accounts and room for 512 grants, the strategy is `P-` until a line chooses another, rights 0 to 3 are asked
/// over the equipment table that E lines fill, rights 4 to 7 over the channel plan. A refusal or a fault does not end the list.
/// Above 57,000 bytes the output is one line: 0, 21 and 0. An `Err` is a want of memory.
pub fn run_list(text: &[u8], heap: Global) -> Result<Vec<u8>, AllocError>
    ensures { IfOk result (λ out. out.items ≡ list_output text.now) }
{
    let mut out = Vec::new(heap);
    if text.len() > MOST_BYTES {
        push_line(&mut out, 0, Outcome::Refused { number: TOO_LONG })?;
        return Ok(out);
    }
    let mut counts = [0; COUNTS];
    let mut records = [UNWRITTEN; MOST_GRANTS];
    let mut session = start(&mut counts, &mut records);
    run_lines(&mut Reader::new(text), &mut session, &mut out)?;
    Ok(out)
}
