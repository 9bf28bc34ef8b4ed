// The account 0 has the members 1 and 2, and 3 is a member of 1, 2 and 4: two ways lead from 0 down to 3.
use crate::meaning::{least_distance, rows_of_arrivals};
use crate::weight::Weight;
use chains::MOST_ACCOUNTS;
use counts::reading::Counts;
use strategies::rows::{Row, Rows};

fn join_five(counts: &mut [u32; 200]) {
    counts[(0 * 5 + 1) * 8 + 1] = 1;
    counts[(0 * 5 + 2) * 8 + 1] = 1;
    counts[(1 * 5 + 3) * 8 + 1] = 1;
    counts[(2 * 5 + 3) * 8 + 1] = 1;
    counts[(4 * 5 + 3) * 8 + 1] = 1;
}

fn one_at_0() -> Row {
    let mut row = Row::none();
    row.add(0);
    row
}

#[test]
fn two_ways_count_twice_and_marks_stay_apart(rt: HostRuntime) {
    let mut counts = [0; 200];
    join_five(&mut counts);
    let five = Counts {
        numbers: &counts,
        accounts: 5,
    };
    let mut start = [Rows::nothing(); MOST_ACCOUNTS];
    start[0].plus = one_at_0();
    start[4].minus = one_at_0();
    let rows = rows_of_arrivals(five, &start, 3);
    let plus = rows.plus.counts;
    let minus = rows.minus.counts;
    assert_eq!(rt; plus[2], 2);
    assert_eq!(rt; plus[1], 0);
    assert_eq!(rt; minus[1], 1);
    assert_eq!(rt; minus[2], 0);
}

#[test]
fn the_nearest_wins(rt: HostRuntime) {
    let mut counts = [0; 200];
    join_five(&mut counts);
    let five = Counts {
        numbers: &counts,
        accounts: 5,
    };
    let mut start = [None; MOST_ACCOUNTS];
    start[0] = Some(0);
    assert_eq!(rt; least_distance(five, &start, 3), Some(2));
    start[4] = Some(0);
    assert_eq!(rt; least_distance(five, &start, 3), Some(1));
    assert_eq!(rt; least_distance(five, &start, 2), Some(1));
    start[0] = Some(254);
    assert_eq!(rt; least_distance(five, &start, 2), None);
}
