//! The places of the sockets of a hub: the first one, and the one at which sessions only look.
ghost use Rattle.std.specs.Prelude.{◌≡◌, IfOk, is_some};

use crate::doors::Doors;
use hub_endings::{Fault, HubLine, LookFault};
use hub_options::HubOptions;
use hub_place::{InPlace, Place, take_place};
use std::alloc::Global;
use std::fs::{File, Files};
use std::net::Net;

/// The places of a hub's sockets.
#[derive(Drop)]
pub(crate) struct Places<'a> {
    pub(crate) first: Place<'a>,
    /// That of the second socket, at which sessions only look. None: there is none.
    pub(crate) look: Option<Place<'a>>,
}

/// That all sockets of a hub were put in their places. Only [`Places::put`] makes one.
#[derive(Drop)]
pub(crate) struct AllInPlace {
    first: InPlace,
    look: Option<InPlace>,
}

// Takes the place of the second socket, if the options name one.
fn take_look<'a, H: Files<File = File> + Net>(
    rt: &H,
    alloc: Global,
    first: &Place<'a>,
    options: &HubOptions<'a>,
) -> Result<Option<Place<'a>>, Fault>
    ensures { IfOk result (λ look. is_some look ≡ is_some options.now.look) }
{
    let Some(look) = options.look else {
        return Ok(None);
    };
    match take_place(rt, alloc, look.socket) {
        Ok(place) => Ok(Some(place)),
        Err(Fault::Taken) if first.is_at(rt, alloc, look.socket) => {
            Err(Fault::Look(LookFault::Same))
        }
        Err(fault) => Err(fault.at_look()),
    }
}

impl<'a> Places<'a> {
    /// Takes the place of each socket that the options name, if no server has it.
    pub(crate) fn take<H: Files<File = File> + Net>(
        rt: &H,
        alloc: Global,
        options: &HubOptions<'a>,
    ) -> Result<Places<'a>, Fault>
        ensures { IfOk result (λ places. is_some places.look ≡ is_some options.now.look) }
    {
        let first = take_place(rt, alloc, options.socket)?;
        match take_look(rt, alloc, &first, options) {
            Ok(look) => Ok(Places { first, look }),
            Err(fault) => {
                first.leave(rt);
                Err(fault)
            }
        }
    }

    // Puts the second socket in its place, if there is one.
    fn put_look<H: Files + Net>(&self, rt: &H, doors: &Doors) -> Result<Option<InPlace>, Fault>
        requires { is_some doors.now.look ≡ is_some self.now.look }
        ensures { IfOk result (λ there. is_some there ≡ is_some self.now.look) }
    {
        let Some(door) = &doors.look else {
            return Ok(None);
        };
        let Some(place) = &self.look else {
            return Ok(None);
        };
        match place.put(rt, &door.keeper, door.sessions) {
            Ok(there) => Ok(Some(there)),
            Err(fault) => Err(fault.at_look()),
        }
    }

    /// Puts each socket in its place, once both doors have their threads. The first one comes last: who reaches it finds the other one.
    pub(crate) fn put<H: Files + Net>(
        &self,
        rt: &H,
        doors: &Doors,
        sessions: u64,
    ) -> Result<AllInPlace, Fault>
        requires first { doors.now.first.sessions ≡ sessions }
        requires look { is_some doors.now.look ≡ is_some self.now.look }
        ensures { IfOk result (λ there. is_some there.look ≡ is_some self.now.look) }
    {
        let look = self.put_look(rt, doors)?;
        let first = self.first.put(rt, &doors.first.keeper, sessions)?;
        Ok(AllInPlace { first, look })
    }

    /// Sees to it that each socket is in its place. Returns the lines of those that were away and are back.
    pub(crate) fn keep<H: Files>(
        &self,
        rt: &H,
        there: &AllInPlace,
    ) -> Result<[Option<HubLine>; 2], Fault> {
        let mut lines = [None; 2];
        if self.first.keep(rt, &there.first)? {
            lines[0] = Some(HubLine::Restored);
        }
        if let (Some(place), Some(there)) = (&self.look, &there.look) {
            match place.keep(rt, there) {
                Ok(true) => lines[1] = Some(HubLine::LookRestored),
                Ok(false) => {}
                Err(fault) => return Err(fault.at_look()),
            }
        }
        Ok(lines)
    }

    /// Removes the private folders.
    pub(crate) fn leave<H: Files>(&self, rt: &H) {
        self.first.leave(rt);
        if let Some(look) = &self.look {
            look.leave(rt);
        }
    }
}
