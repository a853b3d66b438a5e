//! The states of a fifodir, the calls, and what each has to leave behind.

/// How the fifodir of a service, with room for 8 events, came to be as it is. Two publishers, a ticket and a post came first, in
/// this order, and then the supervisor started.
#[derive(Clone, Copy, Debug, PartialEq)]
pub(crate) enum State {
    /// Nothing else came.
    Fresh,
    /// 20 more events came, so its room was used again.
    Wrapped,
    /// 5,100 more events came.
    Long,
    /// 40 publishers and 40 tickets came and went.
    Busy,
    /// 2 more posts wait.
    Three,
    /// 25 more posts wait.
    Awaited,
    /// 8 events are pending.
    Full,
    /// 9 events came, and the ticket was evicted. The post had taken 8 of them, and so it wasn't.
    Evicted,
    /// 2 events are pending, and it is closed.
    Closed,
    /// It is closed, and the ticket knows its end.
    Ended,
    /// The service has failed.
    Failed,
}

#[derive(Clone, Copy, Debug)]
pub(crate) enum Call {
    Nothing,
    Publish,
    PublishNothing,
    PublishTooMuch,
    PublishUnlawful,
    TellDown,
    TellUp,
    /// By the publisher whose event is last.
    TellUpAsLast,
    TellDownAsLast,
    /// By another one.
    TellAsAnother,
    Close,
    CloseTwice,
    /// Two more publishers publish a letter each, from two threads.
    SendBoth,
    /// An event of another fifodir is sent on to this one.
    SendHere,
    Take,
    TakeNone,
    /// An event of this fifodir is sent on to another one.
    SendOn,
    Status,
    Front,
    Usage,
    HasMore,
    Meet,
    Await,
    Receive,
    CatchUp,
    SvWait,
    SvListen,
    /// A publisher comes and leaves.
    Publisher,
    /// A ticket is made and cancelled.
    Ticket,
    /// A post is opened and ended.
    Post,
}

/// What is there: how many events, the flags' code, whether it is closed, the number of the next publisher, the id of the next
/// ticket, which a closed one doesn't give, the number of the event that the ticket takes next, and how often the bell rang
/// meanwhile.
pub(crate) type Left = (u64, u64, bool, u64, Option<u64>, u64, u64);

/// How many tickets are neither cancelled nor evicted (one, and that of each post), how many publishers there are, how many
/// events are pending for the slowest of these tickets, and how many tickets are evicted and not cancelled.
pub(crate) type Counts = (u64, u64, u64, u64);

/// A state, and what is there.
pub(crate) type Before = (State, Left, Counts);

pub(crate) static STATES: [Before; 11] = [
    (State::Fresh, (1, 6, false, 3, Some(3), 1, 0), (2, 2, 0, 0)),
    (
        State::Wrapped,
        (21, 6, false, 3, Some(3), 21, 0),
        (2, 2, 0, 0),
    ),
    (
        State::Long,
        (5_101, 6, false, 3, Some(3), 5_101, 0),
        (2, 2, 0, 0),
    ),
    // All who came since have left.
    (State::Busy, (1, 6, false, 43, Some(43), 1, 0), (2, 2, 0, 0)),
    (State::Three, (1, 6, false, 3, Some(5), 1, 0), (4, 2, 0, 0)),
    (
        State::Awaited,
        (1, 6, false, 3, Some(28), 1, 0),
        (27, 2, 0, 0),
    ),
    (State::Full, (9, 6, false, 3, Some(3), 1, 0), (2, 2, 8, 0)),
    // The ticket is counted as evicted, and one event is pending for the post.
    (
        State::Evicted,
        (10, 6, false, 3, Some(3), 1, 0),
        (1, 2, 1, 1),
    ),
    (State::Closed, (3, 6, true, 3, None, 1, 0), (2, 2, 2, 0)),
    (State::Ended, (3, 6, true, 3, None, 3, 0), (2, 2, 0, 0)),
    (
        State::Failed,
        (2, 14, false, 3, Some(3), 2, 0),
        (2, 2, 0, 0),
    ),
];

/// A call, how many events it adds, whether it closes, how many events it takes at most, and how often it rings.
pub(crate) type Row = (Call, u64, bool, u64, u64);

/// What each call changes of that, in a state where it has an effect.
pub(crate) static CALLS: [Row; 30] = [
    (Call::Nothing, 0, false, 0, 0),
    (Call::Publish, 1, false, 0, 1),
    (Call::PublishNothing, 0, false, 0, 1),
    (Call::PublishTooMuch, 0, false, 0, 0),
    (Call::PublishUnlawful, 0, false, 0, 0),
    (Call::TellDown, 0, false, 0, 1),
    (Call::TellUp, 1, false, 0, 1),
    (Call::TellUpAsLast, 1, false, 0, 1),
    (Call::TellDownAsLast, 0, false, 0, 1),
    (Call::TellAsAnother, 0, false, 0, 0),
    (Call::Close, 0, true, 0, 1),
    (Call::CloseTwice, 0, true, 0, 1),
    (Call::SendBoth, 2, false, 0, 2),
    (Call::SendHere, 1, false, 0, 1),
    (Call::Take, 0, false, 4, 0),
    (Call::TakeNone, 0, false, 0, 0),
    (Call::SendOn, 0, false, 1, 0),
    (Call::Status, 0, false, 0, 0),
    (Call::Front, 0, false, 0, 0),
    (Call::Usage, 0, false, 0, 0),
    (Call::HasMore, 0, false, 0, 0),
    (Call::Meet, 0, false, 0, 0),
    (Call::Await, 0, false, 0, 0),
    (Call::Receive, 0, false, 4, 0),
    (Call::CatchUp, 0, false, 0, 0),
    (Call::SvWait, 0, false, 0, 0),
    (Call::SvListen, 0, false, 0, 0),
    (Call::Publisher, 0, false, 0, 0),
    (Call::Ticket, 0, false, 0, 0),
    (Call::Post, 0, false, 0, 0),
];

/// The code of the flags after the letters that a call adds: `u` of a service that is told to be up, and `s` else.
fn code_after(call: Call) -> u64 {
    match call {
        Call::TellUp | Call::TellUpAsLast => 5,
        _ => 6,
    }
}

/// How many publishers and tickets a call makes.
fn made_by(call: Call) -> (u64, u64) {
    match call {
        Call::SendBoth => (2, 0),
        Call::Publisher => (1, 0),
        Call::Ticket | Call::Post => (0, 1),
        _ => (0, 0),
    }
}

/// What is there after the call: a closed one takes no message, isn't closed again and gives no ticket, a full one takes no letter,
/// and an evicted ticket takes nothing.
fn left_by(before: Before, call: Row) -> Left {
    let (state, (number, code, closed, next, id, taken, _), _) = before;
    let (_, adds, closes, takes, rings) = call;
    let refused = closed || (state == State::Full && adds > 0);
    let added = if refused { 0 } else { adds };
    let (publishers, tickets) = made_by(call.0);
    let pending = number.saturating_sub(taken);
    let took = if state == State::Evicted {
        0
    } else {
        takes.min(pending)
    };
    (
        number.saturating_add(added),
        if added > 0 { code_after(call.0) } else { code },
        closed || closes,
        next.saturating_add(publishers),
        if closes {
            None
        } else {
            id.map(|id| id.saturating_add(tickets))
        },
        taken.saturating_add(took),
        if refused { 0 } else { rings },
    )
}

/// How much is there after the call, which left this. The posts take what is pending if they look.
fn counts_after(before: Before, call: Call, left: Left) -> Counts {
    let (state, (number, _, _, _, _, _, _), counts) = before;
    let (subscriptions, publishers, pending, evicted) = counts;
    let (now, _, _, _, _, taken, _) = left;
    let of_posts = match call {
        Call::CatchUp | Call::SvWait | Call::SvListen => 0,
        _ => pending.saturating_add(now.saturating_sub(number)),
    };
    let of_ticket = if state == State::Evicted {
        0
    } else {
        now.saturating_sub(taken)
    };
    (subscriptions, publishers, of_posts.max(of_ticket), evicted)
}

/// What is there after the call, how much there is, and the events, flags, close and counts once all have left.
pub(crate) type Found = (Left, Counts, (u64, u64, bool), Counts);

pub(crate) fn wanted(before: Before, call: Row) -> Found {
    let left = left_by(before, call);
    let (number, code, closed, _, _, _, _) = left;
    let counts = counts_after(before, call.0, left);
    (left, counts, (number, code, closed), (0, 0, 0, 0))
}
