//! Lines with a fault: each fault at each column that it can have.

use lines::read_line;
use numbered::Numbered;

// The number and the column of a line's fault, if it has one.
fn fault(line: &[u8]) -> Option<(u32, u32)> {
    read_line(line)
        .err()
        .map(|fault| (fault.number(), fault.column()))
}

const NUMBERS: [(&[u8], u32); 24] = [
    (b"J         1       ", 2),
    (b"J   00    1       ", 2),
    (b"J   01    1       ", 2),
    (b"J1        1       ", 2),
    (b"J  1 1    1       ", 2),
    (b"J   -1    1       ", 2),
    (b"J   +1    1       ", 2),
    (b"J    x    1      x", 2),
    (b"L    0            ", 7),
    (b"L    0   01       ", 7),
    (b"L    0 1          ", 7),
    (b"L    0    x     x ", 7),
    (b"G    0    0      +", 12),
    (b"W    0    0    x  ", 12),
    (b"Q    0    0   00  ", 12),
    (b"Q    0    0 1     ", 12),
    (b"E                 ", 2),
    (b"E         1    2  ", 2),
    (b"E    7   01       ", 7),
    (b"E    7         3  ", 7),
    (b"E    7         x  ", 7),
    (b"E    7    x    x  ", 7),
    (b"E    7    3   05  ", 12),
    (b"E    7    3 5    x", 12),
];

const COLUMNS: [(&[u8], u32); 26] = [
    (b"J    0    1x      ", 12),
    (b"J    0    1 x     ", 13),
    (b"J    0    1  x    ", 14),
    (b"L    0    1   x   ", 15),
    (b"L    0    1    1  ", 16),
    (b"L    0    1     xx", 17),
    (b"L    0    1      +", 18),
    (b"G    0    0    0++", 17),
    (b"G    0    0    0  ", 18),
    (b"G    0    0    0 x", 18),
    (b"W    0    0    0x ", 17),
    (b"W    0    0    0 +", 18),
    (b"Q    0    0    0- ", 17),
    (b"Q    0    0    0 -", 18),
    (b"E    7    3    5x ", 17),
    (b"E    7           x", 18),
    (b"Sx             MP-", 2),
    (b"S x            MP-", 3),
    (b"S  x           MP-", 4),
    (b"S   1          MP-", 5),
    (b"S    1         MP-", 6),
    (b"S     x        MP-", 7),
    (b"S      x       MP-", 8),
    (b"S       x         ", 9),
    (b"S        x     MP-", 10),
    (b"S         xx   MP-", 11),
];

#[test]
fn numbers(rt: HostRuntime) {
    for (line, column) in NUMBERS {
        assert_eq!(rt; fault(line), Some((19, column)));
    }
}

#[test]
fn columns(rt: HostRuntime) {
    for (line, column) in COLUMNS {
        assert_eq!(rt; fault(line), Some((20, column)));
    }
    assert_eq!(rt; fault(b"S          x   MP-"), Some((20, 12)));
}

const OTHERS: [(&[u8], (u32, u32)); 16] = [
    (b"", (17, 1)),
    (b"J", (17, 1)),
    (b"J    0    1      ", (17, 1)),
    (b"J    0    1        ", (17, 1)),
    (b"X    0    1", (17, 1)),
    (b"X    0    1       ", (18, 1)),
    (b"j    0    1       ", (18, 1)),
    (b"                  ", (18, 1)),
    (b"\xca    0    1       ", (18, 1)),
    (b"J\xff   0    1       ", (19, 2)),
    (b"J    0    1  \xa0    ", (20, 14)),
    (b"G    0    0    0 \xab", (20, 18)),
    (b"S            \xff MP-", (16, 13)),
    (b"S             MP- ", (16, 13)),
    (b"S                 ", (16, 13)),
    (b"S              mp-", (16, 13)),
];

#[test]
fn others(rt: HostRuntime) {
    for (line, at) in OTHERS {
        assert_eq!(rt; fault(line), Some(at));
    }
}
