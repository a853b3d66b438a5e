//! What each request is answered in a state: the reply behind the arrow, and what the status is then behind the double arrow, if that
//! is another one.

/// In each of the states.
pub static ANYWHERE: &str = "
    take 2 1 -> no id
    poll 1 -> no id
    cancel 3 -> no id
    cancel 1 -> ok
    cancel 2 -> ok
    svc db 8 10 1 -> no exists
    dir log 1 1 -> ok
    names 0 -> names db
    tell log up -> no name
    wait all up 0 db log -> no name
";

/// Nothing came.
pub static FRESH: &str = "
    status db -> ok 0 0 open
    pub db s -> ok 0 => 1 6 open
    pub db u -> no unlawful 0
    pub db U -> no unlawful 0
    pub db sudDudDud -> no full
    tell db off -> ok 0
    tell db down -> ok 0 => 1 6 open
    tell db up -> ok 0 => 2 5 open
    tell db ready -> ok 0 => 3 7 open
    tell db failed -> ok 0 => 2 14 open
    close db -> ok => 0 0 closed
    sub db -> ok 3
    listen db once u -> ok 3
    take 1 256 -> none
    poll 2 -> none
    await 1 3 -> late
    await 2 3 -> late
    wait all up 0 db -> late
    wait all ready 0 db -> late
    wait all down 0 db -> yes 0
    wait all finished 0 db -> late
    wait all restarted 0 db -> late
";

/// 22 events came, so the room of 8 was used again.
pub static WRAPPED: &str = "
    status db -> ok 22 6 open
    pub db s -> ok 22 => 23 6 open
    pub db u -> ok 22 => 23 5 open
    pub db U -> no unlawful 0
    pub db sudDudDud -> no full
    tell db off -> ok 22 => 23 2 open
    tell db down -> ok 22
    tell db up -> ok 22 => 23 5 open
    tell db ready -> ok 22 => 24 7 open
    tell db failed -> ok 22 => 23 14 open
    close db -> ok => 22 6 closed
    sub db -> ok 3
    listen db once u -> ok 3
    take 1 256 -> none
    poll 2 -> none
    await 1 3 -> late
    await 2 3 -> late
    wait all up 0 db -> late
    wait all ready 0 db -> late
    wait all down 0 db -> yes 22
    wait all finished 0 db -> yes 22
    wait all restarted 0 db -> late
";

/// 5,101 events came.
pub static LONG: &str = "
    status db -> ok 5101 6 open
    pub db s -> ok 5101 => 5102 6 open
    pub db u -> ok 5101 => 5102 5 open
    pub db U -> no unlawful 0
    pub db sudDudDud -> no full
    tell db off -> ok 5101 => 5102 2 open
    tell db down -> ok 5101
    tell db up -> ok 5101 => 5102 5 open
    tell db ready -> ok 5101 => 5103 7 open
    tell db failed -> ok 5101 => 5102 14 open
    close db -> ok => 5101 6 closed
    sub db -> ok 3
    listen db once u -> ok 3
    take 1 256 -> none
    poll 2 -> none
    await 1 3 -> late
    await 2 3 -> late
    wait all up 0 db -> late
    wait all ready 0 db -> late
    wait all down 0 db -> yes 5101
    wait all finished 0 db -> yes 5101
    wait all restarted 0 db -> late
";

/// 8 events are pending, and the service is down.
pub static FULL: &str = "
    status db -> ok 9 6 open
    pub db s -> no full
    pub db u -> no full
    pub db U -> no unlawful 0
    pub db sudDudDud -> no full
    tell db off -> no full
    tell db down -> ok 9
    tell db up -> no full
    tell db ready -> no full
    tell db failed -> no full
    close db -> ok => 9 6 closed
    sub db -> ok 3
    listen db once u -> ok 3
    take 1 256 -> got sudDsudD
    take 1 3 -> got sud
    poll 2 -> hit s
    await 1 3 -> ok
    await 2 3 -> ok
    wait all up 0 db -> late
    wait all ready 0 db -> late
    wait all down 0 db -> yes 9
    wait all finished 0 db -> yes 9
    wait all restarted 0 db -> late
";

/// 2 events are pending, and it is closed.
pub static CLOSED: &str = "
    status db -> ok 3 4 closed
    pub db s -> no closed
    pub db U -> no closed
    pub db sudDudDud -> no closed
    tell db off -> no closed
    tell db down -> no closed
    tell db up -> no closed
    tell db ready -> no closed
    tell db failed -> no closed
    close db -> no closed
    sub db -> no closed
    listen db once u -> no closed
    take 1 256 -> got ud
    take 1 1 -> got u
    poll 2 -> end
    await 1 3 -> ok
    await 2 3 -> ok
    wait all up 0 db -> no closed
    wait all ready 0 db -> no closed
    wait all down 0 db -> no closed
    wait all finished 0 db -> no closed
";

/// It is closed, and both handles know their end.
pub static ENDED: &str = "
    status db -> ok 1 6 closed
    pub db s -> no closed
    pub db U -> no closed
    pub db sudDudDud -> no closed
    tell db off -> no closed
    tell db down -> no closed
    tell db up -> no closed
    tell db ready -> no closed
    tell db failed -> no closed
    close db -> no closed
    sub db -> no closed
    listen db once u -> no closed
    take 1 256 -> end
    poll 2 -> end
    await 1 3 -> ok
    await 2 3 -> ok
    wait all up 0 db -> no closed
    wait all ready 0 db -> no closed
    wait all down 0 db -> no closed
    wait all finished 0 db -> no closed
";

/// Both handles were evicted.
pub static EVICTED: &str = "
    status db -> ok 10 6 open
    pub db s -> ok 10 => 11 6 open
    pub db u -> ok 10 => 11 5 open
    pub db U -> no unlawful 0
    pub db sudDudDud -> ok 10 => 19 4 open
    tell db off -> ok 10 => 11 2 open
    tell db down -> ok 10
    tell db up -> ok 10 => 11 5 open
    tell db ready -> ok 10 => 12 7 open
    tell db failed -> ok 10 => 11 14 open
    close db -> ok => 10 6 closed
    sub db -> ok 3
    listen db once u -> ok 3
    take 1 256 -> evicted
    poll 2 -> evicted
    await 1 3 -> ok
    await 2 3 -> ok
    wait all up 0 db -> late
    wait all ready 0 db -> late
    wait all down 0 db -> yes 10
    wait all finished 0 db -> yes 10
    wait all restarted 0 db -> late
";

/// The service has failed.
pub static FAILED: &str = "
    status db -> ok 2 14 open
    pub db s -> ok 2 => 3 6 open
    pub db u -> ok 2 => 3 5 open
    pub db U -> no unlawful 0
    pub db sudDudDud -> no full
    tell db off -> ok 2 => 3 10 open
    tell db down -> ok 2
    tell db up -> ok 2 => 3 5 open
    tell db ready -> ok 2 => 4 7 open
    tell db failed -> ok 2
    close db -> ok => 2 14 closed
    sub db -> ok 3
    listen db once u -> ok 3
    take 1 256 -> none
    poll 2 -> none
    await 1 3 -> late
    await 2 3 -> late
    wait all up 0 db -> never
    wait all ready 0 db -> never
    wait all down 0 db -> yes 2
    wait all finished 0 db -> yes 2
    wait all restarted 0 db -> never
";

/// The service is ready.
pub static READY: &str = "
    status db -> ok 3 7 open
    pub db s -> ok 3 => 4 6 open
    pub db u -> no unlawful 0
    pub db U -> no unlawful 0
    pub db sudDudDud -> no full
    tell db off -> ok 3 => 6 2 open
    tell db down -> ok 3 => 5 6 open
    tell db up -> ok 3
    tell db ready -> ok 3
    tell db failed -> ok 3 => 6 14 open
    close db -> ok => 3 7 closed
    sub db -> ok 3
    listen db once u -> ok 3
    take 1 256 -> none
    poll 2 -> none
    await 1 3 -> late
    await 2 3 -> late
    wait all up 0 db -> yes 3
    wait all ready 0 db -> yes 3
    wait all down 0 db -> late
    wait all finished 0 db -> late
    wait all restarted 0 db -> late
";

/// All 4 events came that it will ever accept.
pub static SPENT: &str = "
    status db -> ok 4 6 open
    pub db s -> no spent
    pub db u -> no spent
    pub db U -> no unlawful 0
    pub db sudDudDud -> no spent
    tell db off -> no spent
    tell db down -> ok 4
    tell db up -> no spent
    tell db ready -> no spent
    tell db failed -> no spent
    close db -> ok => 4 6 closed
    sub db -> ok 3
    listen db once u -> ok 3
    take 1 256 -> none
    poll 2 -> none
    await 1 3 -> late
    await 2 3 -> late
    wait all up 0 db -> late
    wait all ready 0 db -> late
    wait all down 0 db -> yes 4
    wait all finished 0 db -> yes 4
    wait all restarted 0 db -> late
";

/// It is no service.
pub static PLAIN: &str = "
    status db -> ok 1 6 open
    pub db s -> ok 1 => 2 6 open
    pub db u -> ok 1 => 2 5 open
    pub db U -> ok 1 => 2 7 open
    pub db sudDudDud -> no full
    tell db off -> no kind
    tell db down -> no kind
    tell db up -> no kind
    tell db ready -> no kind
    tell db failed -> no kind
    close db -> ok => 1 6 closed
    sub db -> ok 3
    listen db once u -> ok 3
    take 1 256 -> none
    poll 2 -> none
    await 1 3 -> late
    await 2 3 -> late
    wait all up 0 db -> no kind
    wait all ready 0 db -> no kind
    wait all down 0 db -> no kind
    wait all finished 0 db -> no kind
";
