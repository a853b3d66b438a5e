//! Laws of a desk: each is the contract of a function that does nothing.
ghost use Rattle.hub_names.specs.declared.hub.Hub.{Hub};
ghost use Rattle.hub_names.specs.declared.fifodirs.Fifodirs.{Fifodirs};
ghost use Rattle.hub_handles.specs.declared.handles.Handles.{Handles};
ghost use Rattle.hub_shared.specs.Named.{StaysNamed};
ghost use Rattle.hub_shared.specs.Sound.{ArePassesSound};

/// A session of a hub has each handle at the fifodir that the hub had under the name that the handle was made for, and
/// each publisher too. It begins so, and each request keeps it so.
pub fn handles_are_named()
    ensures { (hub : Hub) → StaysNamed hub }
{}

/// What a pass of a session has seen is at most the total of its fifodir, and lawful if the fifodir is a service's.
pub fn passes_are_sound()
    ensures { (fs : Fifodirs) (hs : Handles) → ArePassesSound fs hs }
{}
