//! What lines say: each letter, with the least and the greatest numbers.

use lines::line::Line;
use lines::read_line;
use strategies::marks::Sign;

// What a line says, in numbers: which letter, and its fields; 100000 for a blank container. In numbers, since a constant cannot hold a strategy.
fn said(line: Line) -> (u8, u32, u32, u32, u32) {
    match line {
        Line::Join { group, member } => (b'J', group, member, 0, 0),
        Line::Leave { group, member } => (b'L', group, member, 0, 0),
        Line::Give { grant } => {
            let sign = match grant.sign {
                Sign::Plus => 43,
                Sign::Minus => 45,
            };
            (b'G', grant.account, grant.item, grant.right, sign)
        }
        Line::Withdraw { access } => (b'W', access.account, access.item, access.right, 0),
        Line::Ask { access } => (b'Q', access.account, access.item, access.right, 0),
        Line::Equip {
            item,
            first,
            second,
        } => (
            b'E',
            item,
            first.unwrap_or(100000),
            second.unwrap_or(100000),
            0,
        ),
        Line::Choose(strategy) => (b'S', strategy.number(), 0, 0, 0),
    }
}

// What the line says, if it has no fault.
fn read(line: &[u8]) -> Option<(u8, u32, u32, u32, u32)> {
    read_line(line).ok().map(said)
}

const GOOD: [(&[u8], (u8, u32, u32, u32, u32)); 14] = [
    (b"J    0    1       ", (b'J', 0, 1, 0, 0)),
    (b"J9999912345       ", (b'J', 99999, 12345, 0, 0)),
    (b"L   31   30       ", (b'L', 31, 30, 0, 0)),
    (b"G    4    1    4 -", (b'G', 4, 1, 4, 45)),
    (b"G    4  255    7 +", (b'G', 4, 255, 7, 43)),
    (b"W    4    1    4  ", (b'W', 4, 1, 4, 0)),
    (b"Q    3   10  100  ", (b'Q', 3, 10, 100, 0)),
    (b"E    7            ", (b'E', 7, 100000, 100000, 0)),
    (b"E    7    3       ", (b'E', 7, 3, 100000, 0)),
    (b"E    7    3    5  ", (b'E', 7, 3, 5, 0)),
    (b"S              MP-", (b'S', 3, 0, 0, 0)),
    (b"S               P+", (b'S', 0, 0, 0, 0)),
    (b"S             D+P-", (b'S', 17, 0, 0, 0)),
    (b"S           D-GMP-", (b'S', 47, 0, 0, 0)),
];

#[test]
fn lines(rt: HostRuntime) {
    for (line, says) in GOOD {
        assert_eq!(rt; read(line), Some(says));
    }
}
