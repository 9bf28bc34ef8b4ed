//! Whole lists as they are run, and what is written of them.

use lines::faults::LineFault;
use output::outcome::Outcome;
use output::pushing::push_line;
use reader::running::run_list;
use std::test::Fail;
use strategies::marks::Sign;

#[test]
fn output(rt: HostRuntime) -> Result<(), Fail> {
    let mut out = Vec::new(rt.alloc());
    push_line(&mut out, 1, Outcome::Done)?;
    push_line(&mut out, 9, Outcome::Refused { number: 2 })?;
    push_line(&mut out, 12, Outcome::Faulty(LineFault::Letter))?;
    let answered = Outcome::Answered {
        sign: Sign::Plus,
        plus_total: 2,
        minus_total: 104498155008,
    };
    push_line(&mut out, 99999, answered)?;
    assert_eq!(rt;
        out.as_slice(),
        b"    1  0  0\n    9  2  0\n   12 18  1\n99999  0  0 +            2 104498155008\n".as_slice()
    );
    Ok(())
}

// Lists, and what they come to: an empty one; equipment asked for right 3 and channels for right 4; a bad S line that leaves the
// strategy as it was; refusals of the equipment table and of the book.
const RUNS: [(&[u8], &[u8]); 4] = [
    (b"", b""),
    (
        b"E    0            \nE    1    0       \nG    2    0    3 +\nQ    2    1    3  \nQ    2    1    4  ",
        b"    1  0  0\n    2  0  0\n    3  0  0\n    4  0  0 +            1            0\n    5  0  0 -            0            0\n",
    ),
    (
        b"S            D+MP-\nS              XP-\nQ    7    1    4  \n",
        b"    1  0  0\n    2 16 13\n    3  0  0 +            1            0\n",
    ),
    (
        b"E    1            \nE    0    0       \nE    0            \nE    1    0    0  \nJ   32    0       \nQ    0    9    2  \n",
        b"    1 13  0\n    2 14  0\n    3  0  0\n    4 14  0\n    5  1  0\n    6 12  0\n",
    ),
];

#[test]
fn runs(rt: HostRuntime) -> Result<(), Fail> {
    for (text, output) in RUNS {
        let out = run_list(text, rt.alloc())?;
        assert_eq!(rt; out.as_slice(), output);
    }
    Ok(())
}

#[test]
fn longest_list(rt: HostRuntime) -> Result<(), Fail> {
    let mut text = Vec::new(rt.alloc());
    text.resize(57_000, b'\n')?;
    let out = run_list(text.as_slice(), rt.alloc())?;
    assert!(rt; out.len() == 57_000 * 12);
    text.push(b'\n')?;
    let refused = run_list(text.as_slice(), rt.alloc())?;
    assert_eq!(rt; refused.as_slice(), b"    0 21  0\n".as_slice());
    Ok(())
}
