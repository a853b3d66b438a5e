//! Sessions that only look.
ghost use Rattle.std.specs.Arc.{arc_value};
ghost use Rattle.hub_rights.specs.declared.onlooker.Onlooker.{Onlooker};
ghost use Rattle.hub_shared.specs.Desks.{IsNewDesk};
ghost use Rattle.hub_shared.specs.declared.shared_desk.SharedDesk.{SharedDesk};

use crate::desks::HubDesks;
use hub_gather::{Enter, serve_staying};
use hub_io::{FrontError, Sink, Source};
use hub_requests::Desk;
use hub_rights::Onlooker;
use hub_server::Desks;
use hub_shared::SharedDesk;
use hub_wait::Pause;
use std::alloc::{AllocError, Global};
use std::sync::Wait;

/// Opens a desk over the hub for each session, which only looks. Such a session leaves no will, so none can be lost.
#[derive(Drop)]
pub(crate) struct LookDesks<P: Pause + Copy> {
    pub(crate) desks: HubDesks<P>,
}

impl<P: Pause + Copy> Desks for LookDesks<P> {
    ghost Own = { Onlooker (SharedDesk P) };

    ghost opens = { λ look desk. IsNewDesk (arc_value look.desks.hub) look.desks.pause desk.below };

    ghost stay = { λ look. look.desks.stay };

    ghost asks = { ⟦<Onlooker<SharedDesk<P>> as Desk>⟧.asks };

    ghost ends = { ⟦<Onlooker<SharedDesk<P>> as Desk>⟧.ends };

    fn share(&self) -> Result<LookDesks<P>, AllocError> {
        let desks = self.desks.share()?;
        Ok(LookDesks { desks })
    }

    fn serve<H: Wait + Enter, R: Source, W: Sink>(
        &self,
        rt: &H,
        alloc: Global,
        reader: &mut R,
        writer: &mut W,
    ) -> Result<u64, FrontError> {
        let Ok(own) = self.desks.open(alloc, reader.client()) else {
            return Err(FrontError::Memory);
        };
        let mut desk = Onlooker::over(own);
        let desks = &self.desks;
        let served = serve_staying(rt, alloc, desks.stay, desks, &mut desk, reader, writer);
        let Onlooker { below } = desk;
        below.release(rt);
        served
    }
}
