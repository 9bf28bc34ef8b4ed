//! How grants, calls, replies and what a run came to are laid out in memory that a caller in C lends.

use strategies::rows::DISTANCES;

/// A grant. The sign is 0 for plus and 1 for minus.
#[repr(C)]
#[derive(Clone, Copy)]
pub struct GrantRecord {
    pub account: u32,
    pub item: u32,
    pub right: u32,
    pub sign: u32,
}

/// A call: its kind, the plan that a question is put over, and up to four numbers. Numbers that a kind does not use are not looked at; the
/// plan must be one of the two in every kind but equip.
///
/// 0 join: group, member. 1 leave: group, member. 2 give: account, item, right, sign. 3 withdraw: account, item, right. 4 quick and
/// 5 walked: account, item, right, number of the strategy. 6 least: account, item, right, sign. 7 equip: item and two
/// containers, 4294967295 for none. The plan is 0 for the channels and 1 for the equipment table that equip fills.
#[repr(C)]
#[derive(Clone, Copy)]
pub struct CallRecord {
    pub kind: u32,
    pub plan: u32,
    pub first: u32,
    pub second: u32,
    pub third: u32,
    pub fourth: u32,
}

/// What a call gave: the number of its refusal, 0 if it was accepted, 255 if the record is no call; and, of an accepted question, the
/// sign, or the least distance, 255 for none, and the counts and totals. What a call does not give is 0.
#[repr(C)]
#[derive(Clone, Copy)]
pub struct ReplyRecord {
    pub refusal: u32,
    pub sign: u32,
    pub distance: u64,
    pub plus: [u64; DISTANCES],
    pub minus: [u64; DISTANCES],
    pub default: [u64; DISTANCES],
    pub plus_total: u64,
    pub minus_total: u64,
}

/// What a run came to: 0 for a status, how many calls were made, how many accounts the book knows, and how many grants stand.
#[repr(C)]
#[derive(Clone, Copy)]
pub struct Run {
    pub status: u64,
    pub calls: u64,
    pub accounts: u64,
    pub grants: u64,
}

/// What running a list came to. 0: the output is written, and has this many bytes. 1: it has this many bytes, more than the memory for
/// it, and nothing is written. 2: memory was wanting, and nothing is written.
#[repr(C)]
#[derive(Clone, Copy)]
pub struct ListRun {
    pub status: u64,
    pub bytes: u64,
}
