//! A session's waits: the posts of one, and what it is answered.
ghost use Rattle.std.specs.Prelude.{◌≡◌, ◌≤◌, ◌+◌, length, map, vec_len, vec_capacity, IfOk, IfErr, OnOk, false};
ghost use Rattle.hub_requests.specs.declared.bounds.TheConstants.{MOST_SERVICES};
ghost use Rattle.hub_names.specs.Fifodirs.{KeepsAll};
ghost use Rattle.hub_shared.specs.Waits.{AreFound, AreOpened, ArePosts, AreSeen, IsPostRefused, IsUnseen, number_met};

use hub_fifodir::Enter;
use hub_letters::Want;
use hub_names::{Fifodirs, Hub, Made};
use hub_record::Kind;
use hub_requests::{Name, Numbers, Refusal, Reply};
use hub_wait::{Pause, Post, Span, Verdict, svwait};
use std::alloc::Global;
use std::sync::Wait;

/// The posts of one wait, with room for the numbers that it may be answered. They aren't `Drop`, and only `settle`
/// takes them.
pub struct Posts {
    posts: Vec<Post>,
    numbers: Vec<Option<u64>>,
    ghost empty: { vec_len numbers ≡ 0 },
    ghost fits: { vec_len posts ≤ vec_capacity numbers },
    ghost few: { vec_len posts ≤ MOST_SERVICES },
}

impl Posts {
    ghost use Rattle.hub_shared.specs.OpenPosts.{posts_of};
    ghost use Rattle.hub_shared.specs.Waits.{IsWaitRefused, Settles};

    /// Opens a post for each name, in their order, or none.
    pub fn open<H: Wait + Enter>(
        rt: &H,
        alloc: Global,
        fifodirs: &mut Fifodirs,
        hub: &Hub,
        want: Want,
        names: &[Name],
    ) -> Result<Posts, Refusal>
        requires { length names.now ≤ MOST_SERVICES }
        ensures services { OnOk result (AreSeen fifodirs.new names.now false) }
        ensures opened { IfOk result (λ opened. ArePosts fifodirs.new want names.now
            (posts_of opened)) }
        ensures refused { IfErr result (IsWaitRefused hub.now fifodirs.new names.now) }
        ensures kept { KeepsAll hub.now fifodirs.old fifodirs.new }
    {
        let Ok(mut found) = Vec::with_capacity(alloc, names.len()) else {
            return Err(Refusal::Memory);
        };
        if find_each(rt, fifodirs, hub, names, &mut found)? {
            return Err(Refusal::Kind);
        }
        let Ok(numbers) = Vec::with_capacity(alloc, names.len()) else {
            return Err(Refusal::Memory);
        };
        let Ok(mut posts) = Vec::with_capacity(alloc, names.len()) else {
            return Err(Refusal::Memory);
        };
        match open_each(rt, want, found, &mut posts) {
            Ok(()) => Ok(Posts { posts, numbers }),
            Err(refusal) => {
                end_each(rt, posts);
                Err(refusal)
            }
        }
    }

    /// Waits, and ends the posts.
    pub fn settle<H: Wait, P: Pause + Drop>(
        self,
        rt: &H,
        span: Span,
        turns: u64,
        mut pause: P,
    ) -> Reply
        ensures { Settles span (posts_of self) result }
    {
        let Posts { mut posts, numbers } = self;
        let reply = match svwait(rt, &mut posts, span, turns, &mut pause) {
            Verdict::Yes => Reply::Yes(numbers_met(&posts, numbers)),
            Verdict::Never => Reply::Never,
            Verdict::Late => Reply::Late,
        };
        end_each(rt, posts);
        reply
    }
}

/// Finds the fifodir of each name, in their order, and tells whether one of them is plain.
fn find_each<H: Wait>(
    rt: &H,
    fifodirs: &mut Fifodirs,
    hub: &Hub,
    names: &[Name],
    found: &mut Vec<Made>,
) -> Result<bool, Refusal>
    requires empty { vec_len found.old ≡ 0 }
    requires fits { length names.now ≤ vec_capacity found.old }
    ensures seen { IfOk result (AreSeen fifodirs.new names.now) }
    ensures found { OnOk result (AreFound fifodirs.new names.now found.new.items) }
    ensures few { vec_len found.new ≤ length names.now }
    ensures missing { IfErr result (IsUnseen hub.now fifodirs.new names.now) }
    ensures kept { KeepsAll hub.now fifodirs.old fifodirs.new }
{
    let mut plain = false;
    for name in names {
        let made = fifodirs.find(rt, hub, name)?;
        match made.dir.kind() {
            Kind::Plain => plain = true,
            Kind::Service => (),
        }
        found.push_reserved(made);
    }
    Ok(plain)
}

/// Opens a post at each of the fifodirs, in their order, until one is refused.
fn open_each<H: Wait + Enter>(
    rt: &H,
    want: Want,
    found: Vec<Made>,
    posts: &mut Vec<Post>,
) -> Result<(), Refusal>
    requires empty { vec_len posts.old ≡ 0 }
    requires fits { vec_len found ≤ vec_capacity posts.old }
    ensures refused { IfErr result (IsPostRefused found.items) }
    ensures opened { OnOk result (AreOpened want found.items posts.new.items) }
    ensures few { vec_len posts.new ≤ vec_len found }
{
    for made in found {
        let post = Post::open(rt, made.dir, want, made.notifies)?;
        posts.push_reserved(post);
    }
    Ok(())
}

/// The number of each post that is met.
fn numbers_met(posts: &[Post], mut room: Vec<Option<u64>>) -> Numbers
    requires empty { vec_len room ≡ 0 }
    requires fits { length posts.now ≤ vec_capacity room }
    requires few { length posts.now ≤ MOST_SERVICES }
    ensures { result ≡ map number_met posts.now }
{
    for post in posts {
        room.push_reserved(number_met(post));
    }
    Numbers::of(room)
}

/// The number of events at which its service is as wanted.
fn number_met(post: &Post) -> Option<u64>
    ensures { result ≡ number_met post.now }
{
    let watch = post.watch();
    if watch.met() { Some(watch.at()) } else { None }
}

/// Ends the posts.
fn end_each<H: Wait>(rt: &H, mut posts: Vec<Post>) {
    while let Some(post) = posts.pop() {
        post.end(rt);
    }
    posts.destroy_empty();
}
