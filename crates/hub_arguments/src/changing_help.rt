//! The texts of `--help` of the subcommands that change something at a hub, in lines of at most 80 columns.

/// The subcommand `make` in one line.
pub const MAKE_ABOUT: &str = "Make services, or check those that are there";

/// What `make` does.
pub const MAKE_LINES: &str = "\
Makes the fifodir (a list of events) of each service, in the order of the NAMEs.

  ftrighub make db web

If a NAME is there already, of the same kind and with or without readiness as
wanted, that counts as made, whatever its limits are. So each script that needs
a service may make it. If another is there, it stays as it is, and standard
error says both:

  db: is a plain fifodir, not a service with readiness

Another refusal of the hub is such a line too, as `db: no many`. The other NAMEs
are made nevertheless.

Exit status: 0 each NAME is there as wanted, 3 one isn't. 2 the command line was
refused. 1 an error while running, with a line on standard error: see
`ftrighub ask --help`. It is `no answer` if the hub takes longer than 10 seconds
to let it connect, or for one of the replies.";

/// The subcommand `tell` in one line.
pub const TELL_ABOUT: &str = "Say whether a service is off, down, up, ready or failed";

/// What `tell` does.
pub const TELL_LINES: &str = "\
Says where a service is, so that those who wait for that go on. It prints
nothing. If the service is there already, nothing changes.

  ftrighub tell db ready

off     no supervisor runs
down    it is supervised, and down
up      it is up
ready   it is up, and ready
failed  it is down, and won't be restarted

A supervisor runs it when it knows: systemd in ExecStartPost= and ExecStopPost=,
s6 in a finish script. If the hub refuses, standard error says why:

  web: no such service
  log: not a service
  db: closed
  db: no full           (too many events are pending: retry)

Exit status: 0 told, 3 the hub refused. 2 the command line was refused. 1 an
error while running, with a line on standard error: see `ftrighub ask --help`.
It is `no answer` if the hub takes longer than 10 seconds to let it connect, or
for the reply.";

/// The subcommand `hold` in one line.
pub const HOLD_ABOUT: &str = "Say where a service is, and what it is once this command has ended";

/// What `hold` does.
pub const HOLD_LINES: &str = "\
Leaves a will for a service: when this command ends, however it ends, the hub
tells that the service is down (or off, or failed). With --tell it also says
where the service is now. Then it stays connected until its standard input ends
or a signal ends it. It prints nothing, and throws its input away.

  sleep 2 | ftrighub hold db failed --tell ready

In the place of `sleep` is what speaks for the service, and keeps the pipe open.
Without one, a script gives a command with `&` an input that has ended.

The hub carries the will out only if the last event of the service is one that
--tell published. So it isn't carried out without --tell, if the service was in
that state already, or if another `tell` or `pub` said something since.

If the hub refuses, standard error says why:

  web: no such service
  log: not a service
  db: closed
  db: no full           (too many events are pending: retry)

Exit status: 0 its input ended, 3 the hub refused. 2 the command line was
refused. 1 an error while running, with a line on standard error: see `ftrighub
ask --help`. It is `connection ended` if the hub ended, and `no answer` if the
hub takes longer than 10 seconds to let it connect, or for one of the replies.";
