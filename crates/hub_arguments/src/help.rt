//! The texts of `--help`, in lines of at most 80 columns.

/// The program in one line.
pub const ABOUT: &str =
    "An event hub: lets scripts wait until services are up, ready, down or restarted.";

/// How to begin, what the letters of a service mean, and the exit statuses.
pub const LINES: &str = "\
These lines start a hub, make two services, say that they are ready, wait for
both of them for five seconds at most, and end the hub:

  ftrighub serve hub.socket --forever & export FTRIGHUB_SOCKET=hub.socket
  until ftrighub make db web 2>/dev/null || ! kill -0 $!; do sleep 0.1; done
  ftrighub tell db ready; ftrighub tell web ready
  ftrighub wait all ready --for 5s db web
  kill $!; wait

`ftrighub COMMAND --help` has examples, and `ftrighub script --help` each
request. `tell` publishes letters in the service's fifodir (a list of events,
named after the event directories of s6): s (a supervisor runs), u (up), U
(ready), d (down), D (wholly down), O (failed, won't be restarted), x (the
supervisor ended). Each subscriber gets every letter that is published after it
subscribed, once and in order.

Exit status: 0 all went well, 1 an error while running (one line on standard
error), 2 the command line was refused, 3 the hub refused. The others are in the
--help of a command.";

/// The subcommand `script` in one line.
pub const SCRIPT_ABOUT: &str = "Answer the request lines of standard input on standard output";

/// The request lines and their replies.
pub const SCRIPT_LINES: &str = "\
Each line of standard input is a request, and each gets one reply line, in
order:

  printf 'dir web 64 1000\\npub web ab\\n' | ftrighub script

N is a name of 1 to 32 bytes (letters, digits, `_`, `.`, `-`). Fields are
separated by exactly one space. Each request below has an example and its reply.

  dir N W T      make a fifodir. W: how many events may be pending (1 to 4096).
                 T: how many it will ever accept (1 to 10^12)
                 dir web 64 1000000000000      ok
  svc N W T R    make a service's fifodir, which accepts letters in their lawful
                 order. R is 1 if the service reports that it is ready, else 0
                 svc db 64 1000000000000 1     ok
                 Both may end with the word evict. Then, if a pub leaves more
                 than W events pending for a subscription, it is evicted: each
                 later take or poll of it gets `evicted`
                 dir log 64 1000 evict         ok
  pub N LETTERS  publish letters (bytes from ! to ~); the reply has the number
                 of the first event
                 pub web ab                    ok 0
  tell N STATE   say where a service is: off, down, up, ready or failed. The
                 letters that bring it there are published, or none if it is
                 there; the reply has the number of the first event
                 tell db ready                 ok 0
  will N STATE   what a service is told when this session ends, however it ends,
                 if nobody else has published there since: off, down or failed,
                 or none to take it back
                 will db down                  ok
  status N       the number of events, the sum of the state's flags (up 1,
                 settled 2, supervised 4, failed 8), and open or closed
                 status web                    ok 2 0 open
  about N        what a fifodir is: dir or svc, R (0 for a dir), W, T, and hold
                 or evict; then how many subscriptions and publishers it has,
                 and how many events are pending for its slowest subscription
                 about log                     ok dir 0 64 1000 evict 0 0 0
  wait SPAN WANT TURNS N1 .. Nk
                 wait until all or any (SPAN) of 1 to 32 services are up, ready,
                 down, finished, restarted or restarted-ready (WANT), for at
                 most TURNS turns (0 to 1000000) of about a millisecond. The
                 reply has each one's number of events, or `-` if it isn't so
                 wait all ready 5000 db        yes 3, or late, or never
                 `never`: it is impossible, because one failed or is closed
  sub N          subscribe; the reply has the handle
                 sub web                       ok 1
  take ID MAX    take at most MAX pending events (1 to 256) of a subscription
                 take 1 256                    got ab, or none, end or evicted
  listen N MODE PATTERN
                 listen for a regular expression of 1 to 200 bytes, MODE once or
                 repeat; the reply has the handle
                 listen db once u.*U           ok 2
  poll ID        a listener's next hit: the letters since the last one, up to
                 where the pattern first matches
                 poll 2                        hit suU, or none, end or evicted
  await ID TURNS sleep until the next take or poll of a handle has something to
                 do, for at most TURNS turns; it takes nothing
                 await 1 5000                  ok, or late
  next ID TURNS  await, and then take at most 4096, or poll until it isn't none,
                 in one request, for at most TURNS turns
                 next 1 5000                   got ab, or hit suU, or end,
                                               evicted or late
  cancel ID      end a subscription or a listener
                 cancel 1                      ok
  close N        accept no more events and subscriptions; what is pending may
                 still be taken
                 close web                     ok
  names FROM     the names of the fifodirs in the order in which they were made,
                 from place FROM on (the first has 0), as many as fit in a reply
                 of 4101 bytes
                 names 0                       names web db log, or none

A line that can't be carried out gets `no` and one word, and changes nothing:

  long, text, word, form, range
                 the line isn't a request: too long, with bytes that aren't
                 ASCII, an unknown word, not the fields of its word, a number
                 out of range
  right          this session may only look (see `serve --help`)
  name, id       there is no such fifodir; no such handle
  exists         there is a fifodir with this name
  kind           a wait, tell or will for a fifodir that isn't a service's
  unlawful I     the letter at I (the first has 0) isn't in the lawful order
  full           too many events would be pending: retry
  spent          the fifodir has accepted all the events that it ever will
  closed         it is closed
  many           too many names, handles or subscriptions
  pattern        not a regular expression, or too large
  overlong       4096 letters came since the last hit: cancel the listener
  memory         no memory is left

The session goes on after a refusal.

In `script` nothing can change during a wait, an await or a next, so each
answers immediately. In a session of `serve` it sleeps until something changes,
for about a millisecond a turn, but this isn't promised.

Exit status: 0 all went well, 1 an error while running (one line on standard
error), 2 the command line was refused.";

/// The subcommand `serve` in one line.
pub const SERVE_ABOUT: &str = "Run a hub at a Unix socket";

/// What `serve` does.
pub const SERVE_LINES: &str = "\
With --forever it runs until it is stopped, and serves at most N clients at the
same time; one more waits until another disconnects. This is how a supervisor
such as s6 runs it, with --ready-fd 3 for a notification-fd of 3:

  ftrighub serve hub.socket --forever --mode 0660

Without SOCKET it listens where the commands look for it, such as at
/run/ftrighub/hub.socket for root: `ftrighub ask --help` has the rule. If root
has no folder /run/ftrighub, it is made. No other folder is.

A socket file that an earlier hub left is replaced. SOCKET.lock keeps a second
hub away, and from the folder SOCKET.a the hub puts its socket file back if
somebody removes it. A client that disconnects ends its session, with its
subscriptions and waits; the fifodirs stay as long as the hub. With
--idle SECONDS a client is disconnected if it sends no whole line for so many
seconds while its session waits for one, or takes no whole reply. The time of a
wait, an await or a next doesn't count.

With --setup FILE the hub first carries out the request lines of FILE, such as
these. So no client finds a service missing.

  # a line like this one, or an empty one, is passed over
  svc db 64 1000000000000 1 evict

The handles that these lines ask for are released before a client can connect.
If a line is refused, the hub ends.

With --look PATH it listens at PATH too. Sessions there only look, so its socket
may be open to all users. It is, with the mode 0666, without --look-mode:

  ftrighub serve hub.socket --forever --mode 0660 --look look.socket

They see the same fifodirs. They may `wait`, and subscribe to fifodirs that
evict. What would change something or hold a publisher up gets `no right`. Both
sockets share the N sessions (at least 2), of which a quarter, at least one, is
kept for SOCKET. With --names-per-session N each session makes at most N
fifodirs, 1 to 256, and gets `no many` for the next one. The lines of a setup
don't count.

Without --forever it accepts N connections, serves all of them at the same time,
and ends when all have ended: N is the number of calls that a script makes.

  ftrighub serve /run/hub.sock --sessions 8 &
  printf 'svc db 64 1000000000000 1\\n' | ftrighub call /run/hub.sock

Then SOCKET has to be a free path. Remove the file that an earlier one left:

  rm -f /run/hub.sock

The request lines are those of `ftrighub script --help`. All clients share one
hub: each sees the fifodirs that another one makes.

Exit status: 0 all went well, 2 the command line was refused, 1 an error while
running, with a line on standard error: `cannot listen`, `another server listens
there`, `socket file lost`, `cannot notify`, `cannot read the setup`, `cannot
accept`, `cannot start a session`, `out of memory`. A line of a setup that was
refused is told as in `setup line 3: no form`. A session that stopped gets a
line at the end, such as `session 2: read failed` (or write failed, too many
reads, out of memory).

With --forever standard error is a log. It says that the hub listens, why it
can't, as in `cannot listen: no such directory`, that all sessions are taken and
clients wait, and which session stopped, when it does, as in:

  session 2 stopped after 90 s (lines: 5): no whole line came (--idle)";

/// The subcommand `call` in one line.
pub const CALL_ABOUT: &str = "Send the request lines of standard input to a hub";

/// What `call` does.
pub const CALL_LINES: &str = "\
Connects to the hub at SOCKET and sends it each line of standard input, once the
line before has its reply. Each reply is written to standard output. At the end
of input it disconnects, which ends its session and its subscriptions. Without
SOCKET it takes the one that `ftrighub ask --help` says.

  printf 'pub db suU\\n' | ftrighub call hub.socket

A start-up script goes on if both services are ready, and gives up after about
five seconds:

  case $(printf 'wait all ready 5000 db web\\n' | ftrighub call /run/hub.sock) in
  yes*) echo 'both are ready' ;;
  *) echo 'not ready' >&2; exit 1 ;;
  esac

A refusal such as `no name` is a reply like any other: the status is 0. For one
request, `ftrighub ask` says by its status what the reply was.

Exit status: 0 each line has its reply, 2 the command line was refused, 1 an
error while running, with a line on standard error: `cannot connect` (no hub is
at SOCKET), `read failed` and `write failed` (its own input and output), `send
failed`, `receive failed` and `connection ended` (the hub's), `too many reads`,
`out of memory`.";
