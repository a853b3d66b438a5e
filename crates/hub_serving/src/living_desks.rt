//! Sessions at the first door of a hub that lives.
ghost use Rattle.std.specs.Prelude.{◌≡◌};
ghost use Rattle.std.specs.Arc.{arc_value};
ghost use Rattle.hub_rights.specs.Limits.{left_of};
ghost use Rattle.hub_rights.specs.declared.limited.Limited.{Limited};
ghost use Rattle.hub_serving.specs.Noting.{AsksBelow, EndsBelow, below};
ghost use Rattle.hub_serving.specs.declared.noting.Noting.{Noting};
ghost use Rattle.hub_shared.specs.Desks.{IsNewDesk};
ghost use Rattle.hub_shared.specs.declared.shared_desk.SharedDesk.{SharedDesk};

use crate::desks::HubDesks;
use crate::noting::{NotedNames, Noting};
use hub_gather::{Enter, serve_staying};
use hub_io::{FrontError, Sink, Source};
use hub_requests::Desk;
use hub_rights::Limited;
use hub_server::Desks;
use hub_shared::SharedDesk;
use hub_wait::Pause;
use std::alloc::{AllocError, Global};
use std::sync::Wait;

/// Opens a desk over the hub for each session, which makes at most so many fifodirs, and notes where publishers are refused as full.
#[derive(Drop)]
pub(crate) struct LivingDesks<P: Pause + Copy> {
    pub(crate) desks: HubDesks<P>,
    /// How many fifodirs a session may make.
    pub(crate) names: u64,
    pub(crate) full: NotedNames,
}

impl<P: Pause + Copy> Desks for LivingDesks<P> {
    ghost Own = { Noting (Limited (SharedDesk P)) };

    ghost opens = { λ living desk. IsNewDesk (arc_value living.desks.hub) living.desks.pause
        (below desk).below × (left_of (below desk) ≡ living.names) };

    ghost stay = { λ living. living.desks.stay };

    ghost asks = { AsksBelow ⟦<Limited<SharedDesk<P>> as Desk>⟧.asks };

    ghost ends = { EndsBelow ⟦<Limited<SharedDesk<P>> as Desk>⟧.ends };

    fn share(&self) -> Result<LivingDesks<P>, AllocError> {
        let desks = self.desks.share()?;
        let full = self.full.share()?;
        let names = self.names;
        Ok(LivingDesks { desks, names, full })
    }

    fn serve<H: Wait + Enter, R: Source, W: Sink>(
        &self,
        rt: &H,
        alloc: Global,
        reader: &mut R,
        writer: &mut W,
    ) -> Result<u64, FrontError> {
        let Ok(full) = self.full.share() else {
            return Err(FrontError::Memory);
        };
        let Ok(own) = self.desks.open(alloc, reader.client()) else {
            return Err(FrontError::Memory);
        };
        let mut desk = Noting::over(Limited::over(own, self.names), full);
        let desks = &self.desks;
        let served = serve_staying(rt, alloc, desks.stay, desks, &mut desk, reader, writer);
        let below = desk.apart().into_below();
        desks.count_lost(rt, &below);
        below.release(rt);
        served
    }
}
