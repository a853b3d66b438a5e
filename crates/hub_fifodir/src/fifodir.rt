//! The fifodir, and what a pass reads of it without the lock.
ghost use Rattle.std.specs.Prelude.{◌≡◌, length, IfOk};
ghost use Rattle.hub_fifodir.specs.Notes.{IsSized};

use crate::bell::{Bell, Heard, Waiter, Waiters};
use crate::locked::Locked;
use crate::pass::{Pass, Seated};
use crate::rule::{Board, OneHistory};
use crate::views::{Rules, View};
use crate::{steps, word};
use atomic_table::{Refused, Table};
use hub_record::{Kind, Limits, Status};
use std::alloc::{AllocError, Global};
use std::sync::atomic::AtomicU64;
use std::sync::{Arc, Wait};

/// A record that threads share. Publishers and tickets are its passes, and each call takes the pass of its caller.
#[derive(Drop)]
pub struct Fifodir {
    table: Table<Option<Locked>, View, Rules, OneHistory, Global>,
    rules: Rules,
    /// How many threads may be asleep, waiting for the lock.
    sleepers: AtomicU64,
    waiters: Waiters,
    ghost sized: { IsSized table.shared.table_id },
    ghost ruled: { table.shared.key ≡ rules },
}

impl Fifodir {
    ghost use Rattle.hub_fifodir.specs.Passes.{IsOf, IsStatusOf, OnlyLooks, Remains, table_heard, table_of, table_of_waiter, rules_of, kind_of, limits_of};

    /// An open fifodir without events and passes, with a bell of its own.
    pub fn new(alloc: Global, kind: Kind, limits: Limits) -> Result<Fifodir, AllocError>
        ensures { IfOk result (λ f. (kind_of f ≡ kind) × (limits_of f ≡ limits)) }
    {
        let Ok(bell) = Arc::new(alloc, Bell::new()) else {
            return Err(AllocError);
        };
        Fifodir::with_bell(alloc, kind, limits, bell)
    }

    /// The same, with a bell that other fifodirs may share.
    pub fn with_bell(
        alloc: Global,
        kind: Kind,
        limits: Limits,
        bell: Arc<Bell, Global>,
    ) -> Result<Fifodir, AllocError>
        ensures { IfOk result (λ f. (kind_of f ≡ kind) × (limits_of f ≡ limits)) }
    {
        let rules = Rules { kind, limits };
        let mut slots = Vec::with_capacity(alloc, 1)?;
        slots.push_reserved(Some(Locked::new(alloc, kind, limits)?));
        match Table::new(alloc, &[0, 0], slots, &rules) {
            Ok((table, _seat)) => Ok(Fifodir {
                table,
                rules,
                sleepers: AtomicU64::new(0),
                waiters: Waiters::new(bell),
            }),
            Err(Refused { slots: _ }) => Err(AllocError),
        }
    }

    /// `Service` if it takes only letters in their lawful order, `Plain` if it takes any letters.
    pub fn kind(&self) -> Kind
        ensures { result ≡ kind_of self.now }
    {
        self.rules.kind
    }

    /// How much its record may hold, and what gives way.
    pub fn limits(&self) -> Limits
        ensures { result ≡ limits_of self.now }
    {
        self.rules.limits
    }

    pub(crate) fn board(&self) -> &Board
        ensures { (result.now.table_id ≡ table_of self.now) × IsSized result.now.table_id
            × (result.now.key ≡ rules_of self.now) }
    {
        &self.table.shared
    }

    pub(crate) fn sleepers(&self) -> &AtomicU64 {
        &self.sleepers
    }

    /// The bell that rings after each accepted message and after the close, if somebody waits. A message without letters rings it too.
    pub fn bell(&self) -> &Bell {
        self.waiters.bell()
    }

    /// Somebody waits for changes from now on. It changes nothing that a pass could see.
    pub fn admit(&self) -> Waiter
        ensures { table_of_waiter result ≡ table_of self.now }
    {
        self.waiters.admit(steps::new_seat(self.board()))
    }

    /// One of its waiters hears the bell, before a look.
    pub fn hear(&self, waiter: &Waiter) -> Heard
        requires { table_of_waiter waiter.now ≡ table_of self.now }
        ensures { table_heard result ≡ table_of self.now }
    {
        self.waiters.hear(waiter)
    }

    /// Rings if somebody waits, after a change. A late bell wakes at once if it is urgent.
    pub(crate) fn ring(&self, is_urgent: bool) {
        self.waiters.tell(is_urgent);
    }

    /// One of its waiters waits no more.
    pub fn dismiss(&self, waiter: Waiter)
        requires { table_of_waiter waiter ≡ table_of self.now }
    {
        self.waiters.dismiss(waiter);
    }

    /// The number of events, the flags and whether it is closed, all of one moment. It is one load of the front word,
    /// and never waits for the lock.
    pub fn status<A: Pass>(&self, me: &mut A) -> Status
        requires { IsOf self.now (A.view me.old) }
        ensures remains { Remains self.now (A.view me.old) (A.view me.new) }
        ensures looks { OnlyLooks (A.view me.old) (A.view me.new) }
        ensures status { IsStatusOf result (A.view me.new).sight }
    {
        word::unpack(me.look(self.board(), None))
    }

    /// The number of events. It is one load of the front word, and never waits for the lock.
    pub fn front<A: Pass>(&self, me: &mut A) -> u64
        requires { IsOf self.now (A.view me.old) }
        ensures remains { Remains self.now (A.view me.old) (A.view me.new) }
        ensures looks { OnlyLooks (A.view me.old) (A.view me.new) }
        ensures number { result ≡ length (A.view me.new).sight.seen }
    {
        self.status(me).number
    }

    /// Brings two passes together: afterwards both have seen the same record. It takes no lock, and looks again until
    /// the front word was the same before and after.
    pub fn meet<R: Wait, A: Pass, B: Pass>(&self, rt: &R, one: &mut A, other: &mut B)
        requires one { IsOf self.now (A.view one.old) }
        requires other { IsOf self.now (B.view other.old) }
        ensures one { Remains self.now (A.view one.old) (A.view one.new) }
        ensures other { Remains self.now (B.view other.old) (B.view other.new) }
        ensures one_looks { OnlyLooks (A.view one.old) (A.view one.new) }
        ensures other_looks { OnlyLooks (B.view other.old) (B.view other.new) }
        ensures same { (B.view other.new).sight ≡ (A.view one.new).sight }
    {
        let board = self.board();
        for _ in rt.forever() {
            let first = one.look(board, None);
            let note = one.note(board);
            let last = other.look(board, Some(note));
            if first == last {
                return;
            }
        }
        unreachable!()
    }
}
