//! The ids and numbers that two threads are given: each is given once, and why there are no more.
use crate::tests::passes::{Held, Reader, Sender, Shared, open};
use hub_fifodir::{Enter, PassError};
use hub_record::{Kind, SubError};
use std::alloc::{AllocError, Global};
use std::sync::{Arc, Wait};
use std::test::Fail;
use std::thread;
use std::thread::Threads;

/// How many ids and numbers a fifodir gives in all.
const GIVEN: u64 = 6000;

type Given<E> = Result<(Vec<u64>, E), AllocError>;

/// The numbers of the passes that are given until one is refused, and why it is.
fn numbers_given<R: Wait + Enter, H: Held>(
    rt: &R,
    alloc: Global,
    fifodir: &Shared,
) -> Given<H::Refusal> {
    let mut numbers = Vec::new(alloc);
    for _ in rt.forever() {
        match H::make(rt, Arc::try_clone(fifodir)?) {
            Ok(held) => {
                let number = held.own_number();
                held.end(rt);
                numbers.push(number)?;
            }
            Err(refusal) => return Ok((numbers, refusal)),
        }
    }
    unreachable!()
}

/// Whether each number from 1 on is in one of two lists, once and in order.
fn are_all(ones: &[u64], others: &[u64]) -> bool {
    let (mut one, mut other) = (0usize, 0usize);
    for before in 0..GIVEN {
        let number = Some(before.wrapping_add(1));
        if ones.get(one).copied() == number {
            one = one.wrapping_add(1);
        } else if others.get(other).copied() == number {
            other = other.wrapping_add(1);
        } else {
            return false;
        }
    }
    (one, other) == (ones.len(), others.len())
}

fn two_threads_get_all<R: Threads + Wait + Enter + Sync>(
    rt: &R,
    alloc: Global,
    fifodir: &Shared,
) -> Result<bool, AllocError> {
    let (one, other) = thread::join_mut(
        rt,
        &mut || -> Given<SubError> { numbers_given::<R, Reader>(rt, alloc, fifodir) },
        &mut || -> Given<SubError> { numbers_given::<R, Reader>(rt, alloc, fifodir) },
    );
    let (one, other) = (one?, other?);
    let (first, second) = thread::join_mut(
        rt,
        &mut || -> Given<PassError> { numbers_given::<R, Sender>(rt, alloc, fifodir) },
        &mut || -> Given<PassError> { numbers_given::<R, Sender>(rt, alloc, fifodir) },
    );
    let (first, second) = (first?, second?);
    Ok(
        are_all(&one.0, &other.0)
            && (one.1, other.1) == (SubError::Spent, SubError::Spent)
            && are_all(&first.0, &second.0)
            && (first.1, second.1) == (PassError::Spent, PassError::Spent),
    )
}

#[test]
fn each_id_is_given_once(rt: HostRuntime) -> Result<(), Fail> {
    let fifodir = open(rt.alloc(), Kind::Plain, (64, 1000, GIVEN))?;
    assert!(rt; two_threads_get_all(&rt, rt.alloc(), &fifodir)?);
    Ok(())
}
