//! The texts of `--help` of the subcommands that ask a hub for one thing, or look at it, in lines of at most 80 columns.

/// The subcommand `ask` in one line.
pub const ASK_ABOUT: &str = "Send one request to a hub, and write its reply";

/// What `ask` does.
pub const ASK_LINES: &str = "\
Sends one request line to the hub, and writes the reply line to standard output.
The line is the words, joined by single spaces, so `ask status db` and
`ask 'status db'` are the same. All that comes after the first word is a word of
the request. `ftrighub script --help` has the requests.

  ftrighub ask status db

The session ends with the reply, and its subscriptions with it. Without
--socket, FTRIGHUB_SOCKET in the environment has the path. If it has none, the
path is /run/ftrighub/hub.socket for root, and ftrighub.socket in the folder
that XDG_RUNTIME_DIR has for other users.

  ftrighub ask wait all ready 5000 db web && echo 'both are ready'

If the hub refuses, standard error has a line on what to do:

  ftrighub: the form is: pub NAME LETTERS

Exit status: 0 the reply is ok, got, hit, yes or names; 3 no; 4 never; 5 late;
6 none, end or evicted. 2 the command line was refused. 1 an error while
running, with a line on standard error: `cannot connect to PATH` and why, `no
answer` (no reply within 10 seconds, and the time of the wait, await or next
itself), `send failed`, `receive failed`, `connection ended`, `unknown reply`
(it isn't a hub), `write failed`, `too many reads`, `out of memory`.";

/// The subcommand `wait` in one line.
pub const WAIT_ABOUT: &str = "Wait until services reach a state, and report those that don't";

/// What `wait` does.
pub const WAIT_LINES: &str = "\
Waits until all of 1 to 32 services are in a state, or with `any` before WANT
until one of them is. It writes the reply line to standard output: yes with each
one's number of events (or `-` if it isn't in that state), never, or late.

  ftrighub wait ready db web --timeout 5s

WANT is up, ready, down, finished (wholly down), restarted or restarted-ready.
The wait for up, ready, down or finished is over at once if the services are in
that state already. For restarted or restarted-ready, a service has to go down
during the wait, and to be up, or ready, again.

A hub that isn't there yet, or has no room, and a name that isn't made yet are
waited for, unless there is --now. After a second standard error says so:

  ftrighub: waiting for the hub at /run/hub.sock
  ftrighub: waiting until web is made (the hub has db log)

D is a number with ms, s, m or h, or alone for seconds, such as 500ms, 0.5s, 90,
2m or 1h. It is for all of this together: if the hub doesn't answer within a
second after that, the error is `no answer`. Without it, a wait for restarted or
restarted-ready takes 1000s, which is the most for these, and any other wait has
no end. --for is another name of --timeout.

If the reply is never, late or no, standard error has a line for each service
that isn't in that state (it asks the hub for that, for a second at most):

  db: failed, won't be restarted
  web: up, not ready
  log: no such service

Exit status: 0 yes, 3 no (the hub refused), 4 never (impossible: one failed or
is closed), 5 late (the time ran out). 2 the command line was refused. 1 an
error while running, with a line on standard error: see `ftrighub ask --help`.
It is `cannot connect` if no hub came in time, and `connection ended` if the hub
ends during the wait. A reply that isn't one to a wait is `unknown reply`.";

/// The subcommand `status` in one line.
pub const STATUS_ABOUT: &str = "Show the state of services";

/// What `status` does.
pub const STATUS_LINES: &str = "\
Writes a row for each NAME to standard output, or for each fifodir of the hub if
there is none. A hub without fifodirs has the line `no services`.

  ftrighub status db web

  NAME  KIND     STATE            EVENTS     SUBSCRIBERS  PENDING       POLICY
  db    service  ready            3          1            0 of 64       evict
  web   service  off              0          0            0 of 64       evict

KIND         service, or plain
STATE        off        no supervisor runs
             down       supervised, and wholly down
             up         up, and hasn't reported that it is ready
             ready      up, and reported that it is ready
             stopping   its process died, and its finish script still runs
             failed     down, and won't be restarted
             orphaned   up, but no supervisor runs
             `-` if it is plain; a closed one has `ready,closed`, or `closed`
EVENTS       how many events were published
SUBSCRIBERS  how many subscriptions there are, with those of waits
PENDING      how many events are pending for the slowest of them, of how many
POLICY       what happens if more would be: evict ends that subscription, hold
             refuses the message

With --json it writes an object on a line for each instead, and nothing for a
hub without fifodirs: name, kind, state (null if plain), readiness (whether it
reports that), closed, events, subscribers, publishers, pending, waiting (how
many events may be pending), total (how many it takes), policy.

A NAME that the hub refuses has no row, and a line on standard error:
`log: no such fifodir`.

Exit status: 0 each NAME has a row or an object, 3 the hub refused one. 2 the
command line was refused. 1 an error while running, with a line on standard
error: see `ftrighub ask --help`. It is `no answer` if the hub takes longer than
10 seconds to let it connect, or for one of the replies.";

/// The subcommand `follow` in one line.
pub const FOLLOW_ABOUT: &str = "Print events as they arrive";

/// What `follow` does.
pub const FOLLOW_LINES: &str = "\
Writes a line to standard output for each letter that is published from now on,
until all NAMEs are closed: the time (UTC), the fifodir, the letter's number
there, the letter, and what it says of a service.

  ftrighub follow db web

  2026-11-23T10:15:02Z db 17 U ready

With --plain the line is the letter alone, and with --json an object of JSON.
With --pattern P it writes the hits of a regular expression: the time, the
fifodir, and all letters up to the hit. With --once it ends with the first
letter or hit, and with --timeout D after that time at the latest:

  ftrighub follow --once --plain --pattern 'd.*U' db && echo 'db was restarted'

A follow is a subscription, so the letters that it hasn't taken yet are pending.
If it is evicted, it ends, with a line on standard error: `db: evicted`. With
several NAMEs it looks at one after the other, at all of them within about a
fifth of a second.

With --retry a hub that ends doesn't end it: it says so, waits until there is a
hub with all NAMEs again, says `following again; events may lie between`, and
goes on.

Exit status: 0 with --once, after a letter or a hit; 5 the time of --timeout ran
out; 6 all NAMEs are closed, or it was evicted; 3 the hub refused, with a line
on standard error. 2 the command line was refused. 1 an error while running,
with a line on standard error: see `ftrighub ask --help`. It is `connection
ended` if the hub ends, and `no answer` if it doesn't reply within 10 seconds.
Without --timeout it waits for letters without end.";
