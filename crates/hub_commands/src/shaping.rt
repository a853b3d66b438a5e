//! What fifodirs are to be: the request that makes one, and the text for people.
ghost use Rattle.std.specs.Prelude.{◌≡◌, IfOk};
ghost use Rattle.hub_commands.specs.Making.{evicts, is_alike, request_for, sort_text, unlike_text};

use hub_options::Shape;
use hub_record::{Kind, Policy};
use hub_requests::{About, Name, Request};
use std::alloc::{AllocError, Global};

fn evicts(policy: Policy) -> bool
    ensures { result ≡ evicts policy }
{
    policy == Policy::Evict
}

/// The request that makes a fifodir of this shape.
pub(crate) fn request_for(shape: Shape, name: Name) -> Request
    ensures { result ≡ request_for shape name }
{
    let Shape { waiting, total, .. } = shape;
    let evict = evicts(shape.policy);
    match shape.kind {
        Kind::Plain => Request::Dir {
            name,
            waiting,
            total,
            evict,
        },
        Kind::Service => Request::Svc {
            name,
            waiting,
            total,
            notifies: shape.notifies,
            evict,
        },
    }
}

/// Whether what is there is of the wanted kind and, if it is a service's, reports its readiness or doesn't, as wanted. How much it takes,
/// and what it does if that is too much, doesn't count.
pub(crate) fn is_alike(there: About, wanted: Shape) -> bool
    ensures { result ≡ is_alike there wanted }
{
    match (there.kind, wanted.kind) {
        (Kind::Plain, Kind::Plain) => true,
        (Kind::Service, Kind::Service) => there.notifies == wanted.notifies,
        _ => false,
    }
}

// What a fifodir is.
fn sort_text(kind: Kind, notifies: bool) -> &'static [u8]
    ensures { result.now ≡ sort_text kind notifies }
{
    match (kind, notifies) {
        (Kind::Plain, _) => b"a plain fifodir",
        (Kind::Service, true) => b"a service with readiness",
        (Kind::Service, false) => b"a service without readiness",
    }
}

/// What is said of a fifodir that isn't as it is wanted.
pub(crate) fn unlike_text(alloc: Global, there: About, wanted: Shape) -> Result<Vec<u8>, AllocError>
    ensures { IfOk result (λ it. it.items ≡ unlike_text there wanted) }
{
    let mut text = Vec::from_slice(alloc, b"is ")?;
    text.extend_from_slice(sort_text(there.kind, there.notifies))?;
    text.extend_from_slice(b", not ")?;
    text.extend_from_slice(sort_text(wanted.kind, wanted.notifies))?;
    Ok(text)
}
