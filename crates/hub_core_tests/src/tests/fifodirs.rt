//! Fifodirs, by rows of calls.
use crate::tests::fixtures::{BLANK, BLANKS, none_is_unlike, row};
use crate::tests::scenes::{Row, Step, goes_so};
use hub_fifodir::{Enter, PassError};
use hub_letters::State;
use hub_record::{Closed, Kind, Policy, PubError, SubError, Taken};
use std::alloc::Global;
use std::sync::Wait;
use std::test::Fail;

static ROWS: [Row; 10] = [
    row!("there is room again when the slowest leaves", Plain (2, 100, 10):
        Subscribe(Ok((1, 0))), Subscribe(Ok((2, 0))), Join(Ok(1)), Publish("ab", Ok(0)),
        Take(1, Taken::Got(2), [(1, b'a'), (1, b'b'), BLANK]), Publish("c", Err(PubError::Full)),
        Cancel(0), Publish("cd", Ok(2)), Take(0, Taken::Got(2), [(1, b'c'), (1, b'd'), BLANK]),
        Shows(0, (4, 0, false))),
    row!("publishers' numbers are spent", Plain (2, 100, 1):
        Join(Ok(1)), Leave, Join(Err(PassError::Spent))),
    row!("what is published is taken, until the end", Plain (64, 1000, 10):
        Subscribe(Ok((1, 0))), Join(Ok(1)), Publish("ab", Ok(0)),
        Take(0, Taken::Got(2), [(1, b'a'), (1, b'b'), BLANK]), Take(0, Taken::Nothing, BLANKS),
        Close(Ok(())), Take(0, Taken::End, BLANKS), Publish("c", Err(PubError::Closed)),
        Close(Err(Closed)), Subscribe(Err(SubError::Closed)), Ticket(0, (1, 0, 2))),
    row!("up to 1,024 passes are current at once", Plain (64, 1000, 1_000_000_000_000):
        HoldUpTo(1023), Subscribe(Ok((1024, 0))), Subscribe(Err(SubError::Many)), Cancel(1023),
        Subscribe(Ok((1025, 0))), Join(Ok(1024)), Join(Err(PassError::Many)), Leave,
        Join(Ok(1025))),
    row!("many goes before spent, and closed before both", Plain (64, 1000, 1024):
        HoldUpTo(1024), Subscribe(Err(SubError::Many)), Join(Err(PassError::Many)), Cancel(1023),
        Leave, Subscribe(Err(SubError::Spent)), Join(Err(PassError::Spent)), Close(Ok(())),
        Subscribe(Err(SubError::Closed)), Join(Err(PassError::Spent))),
    row!("many as long as an id is left, and then spent", Plain (64, 1000, 1025):
        HoldUpTo(1024), Subscribe(Err(SubError::Many)), Join(Err(PassError::Many)), Cancel(0),
        Leave, Subscribe(Ok((1025, 0))), Join(Ok(1025)), Subscribe(Err(SubError::Many)),
        Join(Err(PassError::Many)), Cancel(0), Leave, Subscribe(Err(SubError::Spent)),
        Join(Err(PassError::Spent))),
    row!("a take adds nothing, also where nothing is pending", Plain (64, 100, 10):
        Join(Ok(1)), Publish("ab", Ok(0)), Subscribe(Ok((1, 2))), Take(0, Taken::Nothing, BLANKS),
        Publish("c", Ok(2)), Take(0, Taken::Got(1), [(1, b'c'), BLANK, BLANK]),
        Take(0, Taken::Nothing, BLANKS), Ticket(0, (1, 2, 3)), Close(Ok(())),
        Take(0, Taken::End, BLANKS), Shows(0, (3, 0, true)), Cancel(0)),
    row!("no refusal, no leave and no cancel changes the front", Plain (2, 100, 3):
        Join(Ok(1)), Subscribe(Ok((1, 0))), Publish("ab", Ok(0)), Publish("c", Err(PubError::Full)),
        Join(Ok(2)), Leave, Join(Ok(3)), Publish("c", Err(PubError::Full)),
        Join(Err(PassError::Spent)), Subscribe(Ok((2, 2))), Subscribe(Ok((3, 2))),
        Subscribe(Err(SubError::Spent)), Cancel(2), Cancel(1), Publish("", Ok(2)), Close(Ok(())),
        Close(Err(Closed)), Publish("c", Err(PubError::Closed)), Subscribe(Err(SubError::Closed)),
        Join(Err(PassError::Spent)), Leave, Take(0, Taken::Got(2), [(1, b'a'), (1, b'b'), BLANK]),
        Take(0, Taken::End, BLANKS), Cancel(0)),
    row!("an unlawful message and one too many leave the front", Service (64, 3, 10):
        Join(Ok(1)), Publish("su", Ok(0)), Publish("UdU", Err(PubError::Unlawful(2))),
        Publish("Ud", Err(PubError::Spent)), Publish("U", Ok(2)),
        Publish("d", Err(PubError::Spent))),
    row!("a status shows each change", Service (64, 1000, 10):
        Subscribe(Ok((1, 0))), Shows(0, (0, 0, false)), Join(Ok(1)), Publish("su", Ok(0)),
        Shows(0, (2, 5, false)), Publish("U", Ok(2)), Front(3), Close(Ok(())),
        Shows(0, (3, 7, true))),
];

/// Rows of services, which whoever published last tells where they are.
static LAST: [Row; 4] = [
    row!("nobody tells a service without events", Service (64, 100, 10):
        Join(Ok(1)), TellAsLast(State::Down, None, ""), Publish("", Ok(0)),
        TellAsLast(State::Off, None, ""), Close(Ok(())), TellAsLast(State::Down, None, "")),
    row!("a successor that published nothing isn't last", Service (64, 100, 10):
        Subscribe(Ok((1, 0))), Join(Ok(1)), Publish("su", Ok(0)), Join(Ok(2)), Publish("", Ok(2)),
        Publish("D", Err(PubError::Unlawful(0))), TellAsLast(State::Down, None, ""), Leave,
        TellAsLast(State::Down, Some(Ok(2)), "dD"), TellAsLast(State::Down, Some(Ok(4)), ""),
        Take(0, Taken::Got(3), [(1, b's'), (1, b'u'), (1, b'd')]),
        Take(0, Taken::Got(1), [(1, b'D'), BLANK, BLANK])),
    row!("a successor that published is last, also once it has left", Service (64, 100, 10):
        Subscribe(Ok((1, 0))), Join(Ok(1)), Publish("su", Ok(0)), Join(Ok(2)), Publish("U", Ok(2)),
        Leave, TellAsLast(State::Down, None, ""), TellAsLast(State::Ready, None, ""),
        Publish("d", Ok(3)), TellAsLast(State::Down, Some(Ok(4)), "D"), Shows(0, (5, 6, false))),
    row!("only the last one learns of full, spent and closed", Service (2, 4, 10):
        Subscribe(Ok((1, 0))), Join(Ok(1)), Publish("su", Ok(0)),
        TellAsLast(State::Down, Some(Err(PubError::Full)), ""),
        TellAsLast(State::Off, Some(Err(PubError::Spent)), ""),
        TellAsLast(State::Up, Some(Ok(2)), ""), Join(Ok(2)), TellAsLast(State::Down, None, ""),
        TellAsLast(State::Off, None, ""), Leave,
        Take(0, Taken::Got(2), [(1, b's'), (1, b'u'), BLANK]),
        TellAsLast(State::Down, Some(Ok(2)), "dD"),
        Take(0, Taken::Got(2), [(1, b'd'), (1, b'D'), BLANK]),
        TellAsLast(State::Up, Some(Err(PubError::Spent)), ""), Close(Ok(())),
        TellAsLast(State::Down, Some(Err(PubError::Closed)), ""), Join(Ok(3)),
        TellAsLast(State::Down, None, ""), Leave, Shows(0, (4, 6, true)),
        Take(0, Taken::End, BLANKS)),
];

/// Rows of fifodirs that evict.
static EVICTING: [Row; 3] = [
    row!("a slow ticket is evicted, and no other", Plain (2, 100, 10):
        Subscribe(Ok((1, 0))), Subscribe(Ok((2, 0))), Join(Ok(1)), Publish("ab", Ok(0)),
        Take(1, Taken::Got(2), [(1, b'a'), (1, b'b'), BLANK]), Publish("c", Ok(2)),
        Take(0, Taken::Evicted, BLANKS), Take(1, Taken::Got(1), [(1, b'c'), BLANK, BLANK]),
        Ticket(0, (1, 0, 0)), Shows(0, (3, 0, false)), Publish("def", Err(PubError::Full)),
        Close(Ok(())), Take(0, Taken::Evicted, BLANKS), Cancel(0), Take(0, Taken::End, BLANKS)),
    row!("a long message fits if there is no ticket", Plain (2, 100, 10):
        Join(Ok(1)), Publish("abc", Ok(0)), Subscribe(Ok((1, 3))),
        Publish("def", Err(PubError::Full)), Cancel(0), Publish("def", Ok(3)),
        Subscribe(Ok((2, 6))), Publish("gh", Ok(6)), Publish("i", Ok(8)), Publish("jkl", Ok(9)),
        Take(0, Taken::Evicted, BLANKS)),
    row!("a service's letters are lawful though the slow one missed some", Service (2, 100, 10):
        Subscribe(Ok((1, 0))), Join(Ok(1)), Publish("su", Ok(0)), Publish("U", Ok(2)),
        Take(0, Taken::Evicted, BLANKS), Publish("U", Err(PubError::Unlawful(0))),
        Publish("dD", Ok(3)), Shows(0, (5, 6, false))),
];

/// The name of the first row that goes otherwise.
fn first_unlike<R: Wait + Enter>(
    rt: &R,
    alloc: Global,
    rows: &[Row],
    policy: Policy,
) -> Result<Option<&'static str>, Fail> {
    for row in rows {
        if !goes_so(rt, alloc, row, policy)? {
            return Ok(Some(row.name));
        }
    }
    Ok(None)
}

#[test]
fn fifodirs_by_rows(rt: HostRuntime) -> Result<(), Fail> {
    none_is_unlike(&rt, first_unlike(&rt, rt.alloc(), &ROWS, Policy::Hold)?);
    none_is_unlike(&rt, first_unlike(&rt, rt.alloc(), &LAST, Policy::Hold)?);
    none_is_unlike(
        &rt,
        first_unlike(&rt, rt.alloc(), &EVICTING, Policy::Evict)?,
    );
    Ok(())
}
