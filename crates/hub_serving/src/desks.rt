//! Sessions over one hub.
ghost use Rattle.std.specs.Prelude.{◌≤◌, IfOk, IfErr, vec_len};
ghost use Rattle.std.specs.Arc.{arc_value};
ghost use Rattle.hub_front.specs.declared.stay.Stay.TheVariants.{Short};
ghost use Rattle.hub_io.specs.Lines.{lines_of};
ghost use Rattle.hub_serving.specs.Setup.{IsSetUp};
ghost use Rattle.hub_server.specs.Gates.{StopsEarly, ThenCloses};
ghost use Rattle.hub_server.specs.Reports.{IsReport};
ghost use Rattle.hub_shared.specs.Desks.{IsNewDesk};
ghost use Rattle.hub_shared.specs.declared.shared_desk.SharedDesk.{SharedDesk};

use crate::lost_wills::LostWills;
use crate::setup::set_up;
use hub_endings::Fault;
use hub_gather::{Enter, Settles, Stay, serve_staying};
use hub_io::{Client, FrontError, Sink, Source};
use hub_requests::Desk;
use hub_server::{Desks, Gate, Report, ServeError, serve_each};
use hub_shared::{Hub, SharedDesk};
use hub_wait::Pause;
use std::alloc::{AllocError, Global};
use std::sync::{Arc, Wait};
use std::thread::Threads;

// Opens a desk over the hub for each session, with a copy of the pause for its waits.
#[derive(Drop)]
pub(crate) struct HubDesks<P: Pause + Copy> {
    pub(crate) hub: Arc<Hub, Global>,
    pub(crate) pause: P,
    pub(crate) stay: Stay,
    /// Where wills are counted that weren't carried out, if somebody tells of them.
    pub(crate) lost: Option<LostWills>,
}

impl<P: Pause + Copy> HubDesks<P> {
    // A desk for one session, which watches this client. One that may stay long wakes late, since its engine settles.
    pub(crate) fn open(
        &self,
        alloc: Global,
        client: Option<Client>,
    ) -> Result<SharedDesk<P>, AllocError>
        ensures { IfOk result (IsNewDesk (arc_value self.now.hub) self.now.pause) }
    {
        let hub = Arc::try_clone(&self.hub)?;
        let mut desk = SharedDesk::new(alloc, hub, self.pause)?;
        desk.watch(client);
        match self.stay {
            Stay::Short => Ok(desk),
            Stay::Long => {
                desk.wake_late();
                Ok(desk)
            }
        }
    }

    // Carries out the lines of a setup, by a session of its own.
    pub(crate) fn set_up<H: Wait + Enter>(
        &self,
        rt: &H,
        alloc: Global,
        text: &[u8],
    ) -> Result<(), Fault>
        ensures { IsSetUp (IsNewDesk (arc_value self.now.hub) self.now.pause)
            ⟦<SharedDesk<P> as Desk>⟧.asks ⟦<SharedDesk<P> as Desk>⟧.ends
            (lines_of text.now) result }
    {
        let mut own = self.open(alloc, None)?;
        let done = set_up(rt, alloc, &mut own, text);
        self.count_lost(rt, &own);
        own.release(rt);
        done?;
        Ok(())
    }

    // Counts the wills that the desk's end couldn't carry out.
    pub(crate) fn count_lost<H: Wait>(&self, rt: &H, desk: &SharedDesk<P>) {
        if let Some(lost) = &self.lost {
            lost.add(rt, desk.lost_wills(), desk.lost_names());
        }
    }
}

impl<P: Pause + Copy> Settles for HubDesks<P> {
    fn settle(&self) {
        self.hub.settle();
    }
}

impl<P: Pause + Copy> Desks for HubDesks<P> {
    ghost Own = { SharedDesk P };

    ghost opens = { λ desks. IsNewDesk (arc_value desks.hub) desks.pause };

    ghost stay = { λ desks. desks.stay };

    ghost asks = { ⟦<SharedDesk<P> as Desk>⟧.asks };

    ghost ends = { ⟦<SharedDesk<P> as Desk>⟧.ends };

    fn share(&self) -> Result<HubDesks<P>, AllocError> {
        let hub = Arc::try_clone(&self.hub)?;
        let lost = match &self.lost {
            Some(lost) => Some(lost.share()?),
            None => None,
        };
        Ok(HubDesks {
            hub,
            pause: self.pause,
            stay: self.stay,
            lost,
        })
    }

    fn serve<H: Wait + Enter, R: Source, W: Sink>(
        &self,
        rt: &H,
        alloc: Global,
        reader: &mut R,
        writer: &mut W,
    ) -> Result<u64, FrontError> {
        let Ok(mut desk) = self.open(alloc, reader.client()) else {
            return Err(FrontError::Memory);
        };
        let served = serve_staying(rt, alloc, self.stay, self, &mut desk, reader, writer);
        self.count_lost(rt, &desk);
        desk.release(rt);
        served
    }
}

/// Asks the gate for at most this many sessions, and serves each on a thread of its own, by a desk of its own over the hub,
/// with a copy of the pause for its waits. All run at the same time, and all have ended when it returns. At an error
/// their results are lost.
pub fn serve_all<H, R, W, G, P>(
    rt: &H,
    alloc: Global,
    hub: Arc<Hub, Global>,
    gate: &mut G,
    sessions: u64,
    pause: P,
) -> Result<Report, ServeError>
where
    H: Threads + Wait + Enter + Copy + Send + 'static,
    R: Source + Send + Drop + 'static,
    W: Sink + Send + Drop + 'static,
    G: Gate<R, W>,
    P: Pause + Copy + Send + 'static,
    // The gate isn't asked again after it failed or was over, and is closed once after the last asking. Each session
    // that it gave has a result, in the gate's order. The result is one of serving exactly that session's reader and
    // writer.
    ensures report { IfOk result (λ report. IsReport
        Short (IsNewDesk (arc_value hub) pause)
        ⟦<SharedDesk<P> as Desk>⟧.asks ⟦<SharedDesk<P> as Desk>⟧.ends
        (record { remaining = R.remaining; reads = R.reads; faults = R.faults })
        (record { contents = W.contents; faults = W.faults })
        G.gives G.closes sessions gate.old gate.new report.results.items report.gate_failed) }
    ensures most { IfOk result (λ report. vec_len report.results ≤ sessions) }
    ensures err { IfErr result (λ error. ThenCloses G.closes
        (λ last. StopsEarly G.gives sessions gate.old last error) gate.new) }
{
    let stay = Stay::Short;
    let desks = HubDesks {
        hub,
        pause,
        stay,
        lost: None,
    };
    serve_each(rt, alloc, &desks, gate, sessions)
}
