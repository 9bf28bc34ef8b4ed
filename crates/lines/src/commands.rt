//! Reads a line: the letter first, and then the columns behind it, from the left.

ghost use Rattle.std.specs.Prelude.{◌≡◌, ◌≤◌};
ghost use Rattle.lines.specs.Laws.{OneSpelling};
ghost use Rattle.lines.specs.Lines.{at_columns, pair_of, access_of, access_alone_of, containers_of, give_of, equip_of, choose_of, command_of, line_of};

use crate::faults::LineFault;
use crate::line::Line;
use fields::faults::{FieldCause, FieldFault};
use fields::field::Field;
use model::access::Access;
use model::grant::Grant;

// The columns `from` to `to` of a line, of which `rest` begins at column 2.
fn columns(rest: &[u8; 17], from: u32, to: u32) -> Field<'_>
    requires { (2 ≤ from) × ((from ≤ to) × (to ≤ 18)) }
    ensures value { result.bytes.now ≡ at_columns from to rest.now }
    ensures column { result.column ≡ from }
{
    Field {
        bytes: &rest[(from - 2) as usize..(to - 1) as usize],
        column: from,
    }
}

// Two numbers, and blanks behind them.
fn pair(rest: &[u8; 17]) -> Result<(u32, u32), FieldFault>
    ensures answer { result ≡ pair_of rest.now }
{
    let first = columns(rest, 2, 6).number()?;
    let second = columns(rest, 7, 11).number()?;
    columns(rest, 12, 18).expect_blank()?;
    Ok((first, second))
}

// An account, an item and a right, and a blank behind them.
fn access(rest: &[u8; 17]) -> Result<Access, FieldFault>
    ensures answer { result ≡ access_of rest.now }
{
    let account = columns(rest, 2, 6).number()?;
    let item = columns(rest, 7, 11).number()?;
    let right = columns(rest, 12, 16).number()?;
    columns(rest, 17, 17).expect_blank()?;
    Ok(Access {
        account,
        item,
        right,
    })
}

// An access, and nothing behind it.
fn access_alone(rest: &[u8; 17]) -> Result<Access, FieldFault>
    ensures answer { result ≡ access_alone_of rest.now }
{
    let access = access(rest)?;
    columns(rest, 18, 18).expect_blank()?;
    Ok(access)
}

// The containers of an item: both, the first alone, or none.
fn containers(rest: &[u8; 17]) -> Result<(Option<u32>, Option<u32>), FieldFault>
    ensures answer { result ≡ containers_of rest.now }
{
    let before = columns(rest, 7, 11);
    let behind = columns(rest, 12, 16);
    let first = before.optional()?;
    if first.is_none() && !behind.is_blank() {
        return Err(before.fault(FieldCause::Number));
    }
    let second = behind.optional()?;
    Ok((first, second))
}

// A grant: an access, a blank, and a sign.
fn give(rest: &[u8; 17]) -> Result<Line, FieldFault>
    ensures answer { result ≡ give_of rest.now }
{
    let Access {
        account,
        item,
        right,
    } = access(rest)?;
    let sign = columns(rest, 18, 18).sign()?;
    Ok(Line::Give {
        grant: Grant {
            account,
            item,
            right,
            sign,
        },
    })
}

// An item and its containers, and blanks behind them.
fn equip(rest: &[u8; 17]) -> Result<Line, FieldFault>
    ensures answer { result ≡ equip_of rest.now }
{
    let item = columns(rest, 2, 6).number()?;
    let (first, second) = containers(rest)?;
    columns(rest, 17, 18).expect_blank()?;
    Ok(Line::Equip {
        item,
        first,
        second,
    })
}

// Blanks, and the name of a strategy behind them.
fn choose(rest: &[u8; 17]) -> Result<Line, FieldFault>
    ensures answer { result ≡ choose_of rest.now }
{
    columns(rest, 2, 12).expect_blank()?;
    let strategy = columns(rest, 13, 18).strategy()?;
    Ok(Line::Choose(strategy))
}

// What the letter and the columns behind it say.
fn command(letter: u8, rest: &[u8; 17]) -> Result<Line, LineFault>
    ensures answer { result ≡ command_of letter rest.now }
{
    let line = match letter {
        b'J' => {
            let (group, member) = pair(rest)?;
            Line::Join { group, member }
        }
        b'L' => {
            let (group, member) = pair(rest)?;
            Line::Leave { group, member }
        }
        b'G' => give(rest)?,
        b'W' => Line::Withdraw {
            access: access_alone(rest)?,
        },
        b'Q' => Line::Ask {
            access: access_alone(rest)?,
        },
        b'E' => equip(rest)?,
        b'S' => choose(rest)?,
        _ => return Err(LineFault::Letter),
    };
    Ok(line)
}

/// What a line says, or its first fault: not 18 bytes, an unknown letter, and then the columns from the left.
///
/// The last clause is a law of the format: a line is read as what it says exactly if it is the one spelling of that.
pub fn read_line(line: &[u8]) -> Result<Line, LineFault>
    ensures answer { result ≡ line_of line.now }
    ensures spelling { OneSpelling }
{
    let [letter, rest @ ..] = line else {
        return Err(LineFault::Length);
    };
    let rest = <&[u8; 17]>::try_from(rest).map_err(|_| LineFault::Length)?;
    command(*letter, rest)
}
