//! Every chain walked one by one: down over members, and up over containers.

ghost use Rattle.std.specs.Prelude.{◌≡◌, ◌-◌, ◌++◌, ◌∷◌, List, OnOk, IfOk};
ghost use Rattle.lister.specs.Walks.{BeginsAt, Walked, chain};

use plans::Plan;
use std::alloc::{AllocError, Global};

/// How many lengths are listed, 0 to 8: a chain has at most seven memberships, and one more is walked so that a longer one is seen.
pub const LISTED: usize = 9;

// No list has so many elements. Up to `usize::MAX` itself the loop of `walk_by_place` is compiled otherwise, and is slower.
const ANY_NUMBER: usize = usize::MAX - 1;

/// A chain that was walked: where it ends, and how long it is.
#[derive(Clone, Copy, PartialEq, Eq, Debug)]
pub struct Chain {
    pub end: u32,
    pub length: usize,
}

// Lists the chain that has come to `at`, and then each that goes on from there, depth first.
fn walk<F: Fn(u32) -> Result<Vec<u32>, AllocError>>(
    onward: &F,
    at: u32,
    length: usize,
    found: &mut Vec<Chain>,
) -> Result<(), AllocError>
    requires { F.IsAlwaysCallable onward.now }
    ensures behind { OnOk result ((more : List Chain) × (found.new.items ≡ found.old.items ++ more) × Walked (F.post onward.now) (8 - length) at length more) }
{
    found.push(Chain { end: at, length })?;
    if length < LISTED - 1 {
        for next in onward(at)?.iter() {
            walk(onward, *next, length + 1, found)?;
        }
    }
    Ok(())
}

/// Every chain from `from` on, that of length 0 first; `onward` lists the numbers that are one step further on.
pub fn chains_over<F: Fn(u32) -> Result<Vec<u32>, AllocError>>(
    heap: Global,
    onward: F,
    from: u32,
) -> Result<Vec<Chain>, AllocError>
    requires { F.IsAlwaysCallable onward }
    ensures walked { IfOk result (λ found. Walked (F.post onward) 8 from 0 found.items) }
{
    let mut found = Vec::new(heap);
    walk(&onward, from, 0, &mut found)?;
    Ok(found)
}

// The same, where `onward` tells one number at a time.
fn walk_by_place<F: Fn(u32, usize) -> Option<u32>>(
    onward: &F,
    at: u32,
    length: usize,
    found: &mut Vec<Chain>,
) -> Result<(), AllocError>
    requires { F.IsAlwaysCallable onward.now }
    ensures behind { OnOk result ((more : List Chain) × (found.new.items ≡ found.old.items ++ chain at length ∷ more)) }
{
    found.push(Chain { end: at, length })?;
    if length < LISTED - 1 {
        for next in (0..ANY_NUMBER).map_while(|place| onward(at, place)) {
            walk_by_place(onward, next, length + 1, found)?;
        }
    }
    Ok(())
}

/// Every chain from `from` on, that of length 0 first. `onward` tells the numbers that are one step further on, by their places from 0 on, up to the first place that
/// has none: no list of them is made at each step, as for `chains_over`.
pub fn chains_by_place<F: Fn(u32, usize) -> Option<u32>>(
    heap: Global,
    onward: F,
    from: u32,
) -> Result<Vec<Chain>, AllocError>
    requires { F.IsAlwaysCallable onward }
    ensures first { IfOk result (λ found. BeginsAt from found.items) }
{
    let mut found = Vec::new(heap);
    walk_by_place(&onward, from, 0, &mut found)?;
    Ok(found)
}

/// Every chain up from an item over its containers, that of length 0 first.
pub fn item_chains<P: Plan>(heap: Global, plan: &P, item: u32) -> Result<Vec<Chain>, AllocError>
    ensures first { IfOk result (λ found. BeginsAt item found.items) }
{
    let onward = |at: u32, place: usize| plan.containers(at).into_iter().flatten().nth(place);
    chains_by_place(heap, onward, item)
}
