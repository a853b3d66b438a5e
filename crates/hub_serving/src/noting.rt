//! What the desks of a hub note of publishers that were refused as full.
ghost use Rattle.std.specs.Prelude.{◌≡◌, ◌⊎◌, option_map};
ghost use Rattle.hub_serving.specs.Noting.{AsksBelow, EndsBelow, below, full_name, is_noted, published_name, with_noted};

use hub_requests::{Desk, Enter, MOST_NAMES, Name, Refusal, Reply, Request};
use std::alloc::{AllocError, Global};
use std::mem;
use std::sync::{Arc, Mutex, Wait};

/// The names of fifodirs at which something has happened, until somebody takes them. What threads share isn't seen by contracts.
#[derive(Drop)]
pub(crate) struct NotedNames {
    names: Arc<Mutex<Vec<Name>>, Global>,
}

impl NotedNames {
    pub(crate) fn new(alloc: Global) -> Result<NotedNames, AllocError> {
        let names = Arc::new(alloc, Mutex::new(Vec::new(alloc)))?;
        Ok(NotedNames { names })
    }

    /// A share for another thread.
    pub(crate) fn share(&self) -> Result<NotedNames, AllocError> {
        let names = Arc::try_clone(&self.names)?;
        Ok(NotedNames { names })
    }

    pub(crate) fn note<H: Wait>(&self, rt: &H, name: &Name) {
        put(&mut self.names.lock(rt), name);
    }

    /// Takes the names that were noted since they were last taken, each once.
    pub(crate) fn take<H: Wait>(&self, rt: &H, alloc: Global) -> Vec<Name> {
        let mut names = self.names.lock(rt);
        mem::replace(&mut *names, Vec::new(alloc))
    }
}

/// Whether the name is one of these.
pub(crate) fn is_among(names: &[Name], name: &Name) -> bool
    ensures { result ≡ is_noted names.now name.now }
{
    names.iter().any(|noted| noted == name)
}

// Notes a name, unless it is there, the names are as many as a hub has, or memory ran out.
fn put(names: &mut Vec<Name>, name: &Name)
    ensures { (names.new.items ≡ with_noted names.old.items name.now)
        ⊎ (names.new.items ≡ names.old.items) }
{
    if names.len() >= MOST_NAMES || is_among(names, name) {
        return;
    }
    if let Ok(copy) = name.copy() {
        let _ = names.push(copy);
    }
}

// The name of the fifodir at which a publisher was refused as full, if this reply to this request says so.
fn full_name<'a>(request: &'a Request, reply: &Reply) -> Option<&'a Name>
    ensures { option_map (λ name. name.now) result ≡ full_name request.now reply.now }
{
    match reply {
        Reply::No(Refusal::Full) => published_name(request),
        _ => None,
    }
}

// The name of the fifodir at which a request publishes, if it does.
fn published_name(request: &Request) -> Option<&Name>
    ensures { option_map (λ name. name.now) result ≡ published_name request.now }
{
    match request {
        Request::Pub { name, .. } | Request::Tell { name, .. } => Some(name),
        _ => None,
    }
}

/// A desk over another one, which notes the names at which its publishers are refused as full. It answers what the desk below
/// answers. Like that one it can't be dropped: `apart` gives back the desk below, to be released.
pub(crate) struct Noting<D> {
    below: D,
    full: NotedNames,
}

impl<D> Noting<D> {
    pub(crate) fn over(desk: D, full: NotedNames) -> Noting<D>
        ensures { below result ≡ desk }
    {
        Noting { below: desk, full }
    }

    /// The desk below.
    pub(crate) fn apart(self) -> D
        ensures { result ≡ below self }
    {
        let Noting { below, full: _ } = self;
        below
    }
}

impl<D: Desk> Desk for Noting<D> {
    ghost asks = { AsksBelow D.asks };

    ghost ends = { EndsBelow D.ends };

    fn ask<H: Wait + Enter>(&mut self, rt: &H, request: &Request) -> Reply {
        let reply = self.below.ask(rt, request);
        if let Some(name) = full_name(request, &reply) {
            self.full.note(rt, name);
        }
        reply
    }

    fn end<H: Wait>(&mut self, rt: &H) {
        self.below.end(rt);
    }
}
