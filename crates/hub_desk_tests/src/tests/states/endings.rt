//! What a `next`, an `about` and a `will` are answered in a state: the reply behind the arrow. Behind the double arrows are the status
//! after it, and the one after the session's end, if they are others.

/// In each of the states.
pub static ANYWHERE: &str = "
    will log down -> no name; will log none -> no name; about log -> no name; next 3 2 -> no id
";

/// Nothing came.
pub static FRESH: &str = "
    about db -> ok svc 1 8 10000 hold 2 0 0
    next 1 3 -> late; next 2 3 -> late; next 1 0 -> late; next 2 0 -> late
    will db off -> ok; will db down -> ok; will db failed -> ok; about db -> ok svc 1 8 10000 hold 2 1 0
    will db none -> ok; about db -> ok svc 1 8 10000 hold 2 1 0
    tell db up -> ok 0; will db down -> ok => 2 5 open => 4 6 open
    tell db failed -> ok 0; will db off -> ok; will db none -> ok => 2 14 open
";

/// 22 events came, so the room of 8 was used again.
pub static WRAPPED: &str = "
    about db -> ok svc 1 8 10000 hold 2 1 0
    next 1 3 -> late; next 2 3 -> late; next 1 0 -> late; next 2 0 -> late
    will db off -> ok; will db down -> ok; will db failed -> ok; about db -> ok svc 1 8 10000 hold 2 2 0
    will db none -> ok; about db -> ok svc 1 8 10000 hold 2 2 0
    tell db up -> ok 22; will db down -> ok => 23 5 open => 25 6 open
";

/// 5,101 events came.
pub static LONG: &str = "
    about db -> ok svc 1 8 10000 hold 2 1 0; next 1 3 -> late; next 2 3 -> late; will db off -> ok; about db -> ok svc 1 8 10000 hold 2 2 0
    tell db up -> ok 5101; will db failed -> ok => 5102 5 open => 5105 14 open
";

/// 8 events are pending, and the service is down.
pub static FULL: &str = "
    about db -> ok svc 1 8 10000 hold 2 1 8
    next 1 3 -> got sudDsudD; next 1 3 -> late; about db -> ok svc 1 8 10000 hold 2 1 8
    next 2 3 -> hit s; next 2 0 -> hit udD; next 2 0 -> hit s; next 2 3 -> hit udD; next 2 3 -> late
    will db off -> ok; will db down -> ok; will db failed -> ok; about db -> ok svc 1 8 10000 hold 2 2 8
    will db none -> ok; about db -> ok svc 1 8 10000 hold 2 2 8
    cancel 2 -> ok; next 1 0 -> got sudDsudD; tell db ready -> ok 9; will db off -> ok => 11 7 open => 14 2 open
";

/// 2 events are pending, and it is closed.
pub static CLOSED: &str = "
    about db -> ok svc 1 8 10000 hold 2 1 2
    next 1 3 -> got ud; next 1 3 -> end; about db -> ok svc 1 8 10000 hold 2 1 2
    next 2 3 -> end; next 2 0 -> end
    will db off -> ok; will db down -> ok; will db failed -> ok; about db -> ok svc 1 8 10000 hold 2 2 2
    will db none -> ok; about db -> ok svc 1 8 10000 hold 2 2 2
";

/// It is closed, and both handles know their end.
pub static ENDED: &str = "
    about db -> ok svc 1 8 10000 hold 2 1 0
    next 1 3 -> end; next 2 3 -> end; next 1 0 -> end; next 2 0 -> end
    will db off -> ok; will db down -> ok; will db failed -> ok; about db -> ok svc 1 8 10000 hold 2 2 0
    will db none -> ok; about db -> ok svc 1 8 10000 hold 2 2 0
";

/// Both handles were evicted.
pub static EVICTED: &str = "
    about db -> ok svc 1 8 10000 evict 0 1 0
    next 1 3 -> evicted; next 2 3 -> evicted; next 1 0 -> evicted; next 2 0 -> evicted
    will db off -> ok; will db down -> ok; will db failed -> ok; about db -> ok svc 1 8 10000 evict 0 2 0
    will db none -> ok; about db -> ok svc 1 8 10000 evict 0 2 0
    tell db up -> ok 10; will db down -> ok => 11 5 open => 13 6 open
";

/// The service has failed.
pub static FAILED: &str = "
    about db -> ok svc 1 8 10000 hold 2 1 0
    next 1 3 -> late; next 2 3 -> late; next 1 0 -> late; next 2 0 -> late
    will db off -> ok; will db down -> ok; will db failed -> ok; about db -> ok svc 1 8 10000 hold 2 2 0
    will db none -> ok; about db -> ok svc 1 8 10000 hold 2 2 0
    tell db up -> ok 2; will db failed -> ok => 3 5 open => 6 14 open
";

/// The service is ready.
pub static READY: &str = "
    about db -> ok svc 1 8 10000 hold 2 1 0
    next 1 3 -> late; next 2 3 -> late; next 1 0 -> late; next 2 0 -> late
    will db off -> ok; will db down -> ok; will db failed -> ok; about db -> ok svc 1 8 10000 hold 2 2 0
    will db none -> ok; about db -> ok svc 1 8 10000 hold 2 2 0
    tell db failed -> ok 3; will db off -> ok => 6 14 open => 7 10 open
    tell db ready -> ok 3; will db down -> ok
";

/// All 4 events came that it will ever accept.
pub static SPENT: &str = "
    about db -> ok svc 1 8 4 hold 2 1 0
    next 1 3 -> late; next 2 3 -> late; next 1 0 -> late; next 2 0 -> late
    will db off -> ok; will db down -> ok; will db failed -> ok; about db -> ok svc 1 8 4 hold 2 2 0
    will db none -> ok; about db -> ok svc 1 8 4 hold 2 2 0
";

/// It is no service.
pub static PLAIN: &str = "
    about db -> ok dir 0 8 10000 hold 2 1 0
    next 1 3 -> late; next 2 3 -> late; next 1 0 -> late; next 2 0 -> late
    will db off -> no kind; will db down -> no kind; will db failed -> no kind; will db none -> no kind
    will db off -> no kind; about db -> ok dir 0 8 10000 hold 2 1 0
";
