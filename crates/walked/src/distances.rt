//! The distances at which grants of a sign start.

ghost use Rattle.std.specs.Prelude.{◌≡◌, ◌<◌, ◌&&◌, ◌==◌, slice_index};
ghost use Rattle.strategies.specs.Resolve.{same_sign};
ghost use Rattle.walked.specs.Distances.{FirstIfAny, Lowered, NearestStarts};
ghost use Rattle.walked.specs.Starts.{InRange, lengths_in};

use chains::MOST_ACCOUNTS;
use model::grant::Grant;
use plans::{ItemCounts, Lengths};
use strategies::marks::Sign;
use walk::weight::Weight;

// The length of the shortest chain, or none.
fn shortest(chains: &Lengths) -> Option<u8>
    ensures { FirstIfAny (λ k. slice_index chains.now k) result }
{
    chains.iter().position(|count| *count > 0).map(|k| k as u8)
}

// Is the grant one of the right and of the sign?
fn is_asked(grant: &Grant, right: u32, sign: Sign) -> bool
    ensures { result ≡ (grant.now.right == right && same_sign sign grant.now.sign) }
{
    grant.right == right && sign == grant.sign
}

// Lowers the distance of the grant's account to the length of the shortest chain from its item.
fn lower(starts: &mut [Option<u8>; MOST_ACCOUNTS], above: &ItemCounts, grant: &Grant)
    requires { grant.now.account < 64 }
    ensures { Lowered (lengths_in above.now.counts) grant.now starts.old starts.new }
{
    let account = grant.account as usize;
    let near = shortest(&above.row(grant.item));
    starts[account] = starts[account].plus(&near);
}

/// The least distance that grants of the right and the sign give to each account: the length of the shortest chain from any of
/// their items.
pub fn nearest_starts(
    grants: &[Grant],
    above: &ItemCounts,
    right: u32,
    sign: Sign,
) -> [Option<u8>; MOST_ACCOUNTS]
    requires { InRange grants.now }
    ensures { NearestStarts grants.now (lengths_in above.now.counts) right sign result }
{
    let mut starts = [None; MOST_ACCOUNTS];
    for grant in grants {
        if is_asked(grant, right, sign) {
            lower(&mut starts, above, grant);
        }
    }
    starts
}
