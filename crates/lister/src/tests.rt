// Chains that are counted by hand. 0 has the members 1 and 2, and both have the member 3: two chains lead from 0 down to 3.
use crate::every_chain::{Chain, chains_by_place, chains_over};
use crate::lister::Lister;
use crate::refused::Refused;
use model::access::Access;
use model::grant::Grant;
use plans::Channels;
use std::alloc::AllocError;
use std::test::Fail;
use strategies::marks::Sign;

const MEMBERS: [&[u32]; 4] = [&[1, 2], &[3], &[3], &[]];

fn members_of(account: u32) -> &'static [u32] {
    match MEMBERS.get(account as usize) {
        Some(members) => members,
        None => &[],
    }
}

fn chain(end: u32, length: usize) -> Chain {
    Chain { end, length }
}

#[test]
fn each_chain_is_walked_once_and_depth_first(rt: HostRuntime) -> Result<(), Fail> {
    let heap = rt.alloc();
    let all = [
        chain(0, 0),
        chain(1, 1),
        chain(3, 2),
        chain(2, 1),
        chain(3, 2),
    ];
    let lists = |at: u32| Vec::from_slice(heap, members_of(at));
    assert_eq!(rt; chains_over(heap, lists, 0)?.as_slice(), all.as_slice());
    let places = |at: u32, place: usize| members_of(at).get(place).copied();
    assert_eq!(rt;
        chains_by_place(heap, places, 0)?.as_slice(),
        all.as_slice()
    );
    Ok(())
}

#[test]
fn a_chain_of_eight_is_the_last(rt: HostRuntime) -> Result<(), Fail> {
    let heap = rt.alloc();
    let next = |at: u32| Vec::from_slice(heap, &[at.saturating_add(1)]);
    let chains = chains_over(heap, next, 5)?;
    assert_eq!(rt; chains.len(), 9);
    assert_eq!(rt; chains.last(), Some(&chain(13, 8)));
    Ok(())
}

#[test]
fn a_list_that_cannot_be_made_ends_the_walk(rt: HostRuntime) {
    let heap = rt.alloc();
    let none = |at: u32| if at == 0 {
        Vec::from_slice(heap, &[1])
    } else {
        Err(AllocError)
    };
    assert!(rt; chains_over(heap, none, 0).is_err());
}

// A hundred numbers may be one step further on, though a `Lister` made by `new` never has more than 64. The account 0 has the member 1 many times, and the last is 2.
#[test]
fn a_hundred_members_are_all_walked(rt: HostRuntime) -> Result<(), Fail> {
    let heap = rt.alloc();
    let mut hundred = Vec::from_elem(heap, 1u32, 99)?;
    hundred.push(2)?;
    let lists = |at: u32| Vec::from_slice(heap, if at == 0 { hundred.as_slice() } else { &[] });
    assert_eq!(rt; chains_over(heap, lists, 0)?.len(), 101);
    let grant = Grant {
        account: 0,
        item: 1,
        right: 4,
        sign: Sign::Plus,
    };
    let mut lister = Lister {
        heap,
        accounts: 3,
        capacity: 1,
        members: vec![in heap; hundred, Vec::new(heap), Vec::new(heap)]?,
        grants: vec![in heap; grant]?,
        records: Vec::new(heap),
    };
    assert_eq!(rt; lister.chains_from(0)?.len(), 101);
    assert!(rt; lister.leads(0, 2)?);
    assert_eq!(rt;
        lister.counted_from(0)?.get(2).map(|lengths| lengths[1]),
        Some(1)
    );
    assert_eq!(rt;
        lister
            .rows(
                &Channels,
                Access {
                    account: 2,
                    item: 1,
                    right: 4
                }
            )?
            .len(),
        1
    );
    assert_eq!(rt; lister.join(2, 0), Err(Refused::Circle.into()));
    Ok(())
}
