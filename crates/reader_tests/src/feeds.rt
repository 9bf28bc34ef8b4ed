//! Texts with and without a last line feed, read line by line.

use numbered::Numbered;
use reader::reader::Reader;

// How many lines the text has, and the number, the line and the column of its last fault, if it has one.
fn last_fault(text: &[u8]) -> (usize, Option<(u32, usize, u32)>) {
    let mut reader = Reader::new(text);
    let mut last = None;
    while let Some(line) = reader.next().transpose() {
        if let Err(at) = line {
            last = Some((at.fault.number(), at.line, at.fault.column()));
        }
    }
    (reader.line(), last)
}

const TEXTS: [(&[u8], (usize, Option<(u32, usize, u32)>)); 8] = [
    (b"", (0, None)),
    (b"\n", (1, Some((17, 1, 1)))),
    (b"\n\n", (2, Some((17, 2, 1)))),
    (b"J    0    1       ", (1, None)),
    (b"J    0    1       \n", (1, None)),
    (
        b"J    0    1       \nbad\n\nQ    3    1    4  ",
        (4, Some((17, 3, 1))),
    ),
    (
        b"J    0    1       \nQ    3    1    4 x\nQ    3    1    4  \n",
        (3, Some((20, 2, 18))),
    ),
    (b"J    0    1       \n\xff", (2, Some((17, 2, 1)))),
];

#[test]
fn texts(rt: HostRuntime) {
    for (text, at) in TEXTS {
        assert_eq!(rt; last_fault(text), at);
    }
}
