//! Writes what the lines of a list came to, a line for each.

ghost use Rattle.std.specs.Prelude.{◌≡◌, ◌-◌, ◌++◌, Some, decimal, length, replicate};
ghost use Rattle.std.specs.Fmt.{WritesOnOk};
ghost use Rattle.fields.specs.Spelling.{spelled};
ghost use Rattle.output.specs.Output.{Pushed, outcome_bytes, output_line};

use crate::outcome::Outcome;
use numbered::Numbered;
use std::alloc::AllocError;
use std::fmt;
use std::fmt::Write;
use strategies::marks::Sign;

// Writes bytes one by one: they are few.
fn push_bytes(out: &mut Vec<u8>, bytes: &[u8]) -> Result<(), AllocError>
    ensures after { Pushed result out.old.items out.new.items bytes.now }
{
    for byte in bytes {
        out.push(*byte)?;
    }
    Ok(())
}

// A vector, behind whose bytes text is written.
#[derive(Drop)]
struct Behind<'a> {
    out: &'a mut Vec<u8>,
}

impl fmt::Write for Behind<'_> {
    ghost write_str_gives = { λ s bs t. (t.out.ghost_name ≡ s.out.ghost_name) × (t.out.now.items ≡ s.out.now.items ++ bs) };

    fn write_str(&mut self, s: &str) -> fmt::Result {
        push_bytes(self.out, s.as_bytes()).map_err(|_| fmt::Error)
    }
}

/// Writes a number right-justified in the width; one that is wider is written whole.
pub fn push_number(out: &mut Vec<u8>, n: u64, width: usize) -> Result<(), AllocError>
    ensures after { Pushed result out.old.items out.new.items (spelled width n) }
{
    write!(Behind { out }, "{n:>width$}").map_err(|_| AllocError)
}

// The blanks that stand before a number in three columns.
#[tactic(auto, using(crate::proofs::Columns::two_blanks, crate::proofs::Columns::one_blank, crate::proofs::Columns::no_blank))]
fn blanks_before(n: u32) -> &'static str
    ensures { result.now ≡ replicate (3 - length (decimal n)) 32 }
{
    if n < 10 {
        "  "
    } else if n < 100 {
        " "
    } else {
        ""
    }
}

// Writes a number right-justified in three columns. Most are small, and by a width, as in `{n:>3}`, writing them takes longer.
fn write_column<W: fmt::Write>(f: &mut fmt::Formatter<W>, n: u32) -> fmt::Result
    ensures { WritesOnOk W.write_str_gives f.old result (spelled 3 n) f.new }
{
    f.write_str(blanks_before(n))?;
    f.write(n)
}

// The number of a refusal or a fault and the fault's column, in three columns each. Behind zeros, what a question answers: a blank,
// the sign, and both totals in thirteen columns each.
impl fmt::Display for Outcome {
    ghost output = { λ o. Some (outcome_bytes o) };

    fn fmt<W: fmt::Write>(&self, f: &mut fmt::Formatter<W>) -> fmt::Result {
        match *self {
            Outcome::Done => f.write_str("  0  0"),
            Outcome::Refused { number } => {
                write_column(f, number)?;
                f.write_str("  0")
            }
            Outcome::Faulty(fault) => {
                write_column(f, fault.number())?;
                write_column(f, fault.column())
            }
            // Two arms: of {sign} the clause of Display says nothing.
            Outcome::Answered {
                sign: Sign::Plus,
                plus_total,
                minus_total,
            } => write!(f, "  0  0 +{plus_total:>13}{minus_total:>13}"),
            Outcome::Answered {
                sign: Sign::Minus,
                plus_total,
                minus_total,
            } => write!(f, "  0  0 -{plus_total:>13}{minus_total:>13}"),
        }
    }
}

/// Writes the line for one line of a list: its number in five columns, what it came to, and a line feed. Where memory runs out, some of it may be written.
pub fn push_line(out: &mut Vec<u8>, number: usize, outcome: Outcome) -> Result<(), AllocError>
    ensures after { Pushed result out.old.items out.new.items (output_line number outcome) }
{
    writeln!(Behind { out }, "{number:>5}{outcome}").map_err(|_| AllocError)
}
