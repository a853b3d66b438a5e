//! The request about several services at once: whether they are as wanted.
ghost use Rattle.std.specs.Prelude.{◌≡◌, ◌≤◌, List, length, true, vec_len, vec_capacity};
ghost use Rattle.std.specs.List.{list_all};
ghost use Rattle.hub_requests.specs.declared.bounds.TheConstants.{MOST_SERVICES};
ghost use Rattle.hub_local.specs.DeskAnswers.{refusal_to_wait};
ghost use Rattle.hub_local.specs.Desks.{Fifodir};
ghost use Rattle.hub_local.specs.Representing.{AreKept, CarriesOut};
ghost use Rattle.hub_requests.specs.declared.reply.Reply.TheVariants.{No};
ghost use Rattle.hub_local.specs.Waits.{without_subscription, without_posts, number_of, verdict_shown, wait_answer, LeftByWait};
ghost use Rattle.hub_local.specs.Opening.{is_there, is_service, refusal_among, OpensPost, OpensAll};

use crate::local_desk::{LocalDesk, LocalFifodir};
use hub_letters::Want;
use hub_record::Status;
use hub_requests::{Name, Names, Numbers, Refusal, Reply};
use hub_wait::{Span, Tally, Verdict, Watch};
use indexmap::IndexMap;

/// What a wait opens at a service: a subscription, which is current while the wait looks, and what it knows of the
/// service.
#[derive(Drop)]
struct LocalPost {
    id: u64,
    watch: Watch,
}

impl LocalDesk {
    /// Answers at once, since nothing can change during a wait of the only session.
    pub(super) fn wait(&mut self, span: Span, want: Want, names: &Names) -> Reply
        requires { length names.now ≤ MOST_SERVICES }
        ensures { CarriesOut self.old true (λ desk. refusal_to_wait desk names.now)
            (λ desk. wait_answer desk span want names.now)
            (λ desk left. LeftByWait desk want names.now left) result self.new }
    {
        let names = names.items();
        if let Some(refusal) = refusal_by_names(&self.fifodirs, names) {
            return Reply::No(refusal);
        }
        let Ok(mut posts) = Vec::with_capacity(self.alloc, names.len()) else {
            return Reply::No(Refusal::Memory);
        };
        let Ok(numbers) = Vec::with_capacity(self.alloc, names.len()) else {
            return Reply::No(Refusal::Memory);
        };
        let opened = open_all(&mut self.fifodirs, names, want, &mut posts);
        give_back(&mut self.fifodirs, names, &posts);
        match opened {
            Ok(()) => verdict_shown(span, &posts, numbers),
            Err(refusal) => Reply::No(refusal),
        }
    }
}

/// The first refusal that comes before those of the posts: a name without a fifodir, or else a plain fifodir.
fn refusal_by_names(fifodirs: &IndexMap<Name, LocalFifodir>, names: &[Name]) -> Option<Refusal>
    ensures { result ≡ refusal_among fifodirs.now.entries names.now }
{
    if !are_there(fifodirs, names) {
        return Some(Refusal::Name);
    }
    if !are_services(fifodirs, names) {
        return Some(Refusal::Kind);
    }
    None
}

fn are_there(fifodirs: &IndexMap<Name, LocalFifodir>, names: &[Name]) -> bool
    ensures { result ≡ list_all (is_there fifodirs.now.entries) names.now }
{
    names.iter().all(|name| fifodirs.contains_key(name))
}

fn are_services(fifodirs: &IndexMap<Name, LocalFifodir>, names: &[Name]) -> bool
    ensures { result ≡ list_all (is_service fifodirs.now.entries) names.now }
{
    names.iter().all(|name| is_service(fifodirs, name))
}

fn is_service(fifodirs: &IndexMap<Name, LocalFifodir>, name: &Name) -> bool
    ensures { result ≡ is_service fifodirs.now.entries name.now }
{
    match fifodirs.get(name) {
        Some(fifodir) => fifodir.reports.is_some(),
        None => false,
    }
}

/// Subscribes, and then reads the status of the service.
fn open(
    fifodirs: &mut IndexMap<Name, LocalFifodir>,
    name: &Name,
    want: Want,
) -> Result<LocalPost, Refusal>
    ensures { (model : List Fifodir) → AreKept fifodirs.old.entries model
        → OpensPost want name.now model result fifodirs.new.entries }
{
    let Some(fifodir) = fifodirs.get_mut(name) else {
        return Err(Refusal::Name);
    };
    match fifodir.kept.subscribe() {
        Ok((id, _mark)) => {
            let status = Status {
                number: fifodir.kept.end(),
                flags: fifodir.kept.flags(),
                closed: fifodir.kept.closed(),
            };
            let watch = Watch::new(want, fifodir.reports.unwrap_or(false), status);
            Ok(LocalPost { id, watch })
        }
        Err(error) => Err(Refusal::from(error)),
    }
}

/// Opens a post for each name in turn, until one is refused.
fn open_all(
    fifodirs: &mut IndexMap<Name, LocalFifodir>,
    names: &[Name],
    want: Want,
    posts: &mut Vec<LocalPost>,
) -> Result<(), Refusal>
    requires empty { vec_len posts.old ≡ 0 }
    requires fits { length names.now ≤ vec_capacity posts.old }
    ensures opens { (model : List Fifodir) → AreKept fifodirs.old.entries model
        → OpensAll want names.now model result fifodirs.new.entries posts.new.items }
    ensures few { vec_len posts.new ≤ length names.now }
{
    for name in names {
        let post = open(fifodirs, name, want)?;
        posts.push_reserved(post);
    }
    Ok(())
}

/// Cancels the subscription of this id, if it is current.
fn cancel_at(fifodirs: &mut IndexMap<Name, LocalFifodir>, name: &Name, id: u64)
    ensures { (model : List Fifodir) → AreKept fifodirs.old.entries model
        → AreKept fifodirs.new.entries (without_subscription model name.now id) }
{
    if let Some(fifodir) = fifodirs.get_mut(name) {
        let _ = fifodir.kept.cancel(id);
    }
}

/// Ends the posts, which were opened for the first of these names.
fn give_back(fifodirs: &mut IndexMap<Name, LocalFifodir>, names: &[Name], posts: &[LocalPost])
    requires { length posts.now ≤ length names.now }
    ensures { (model : List Fifodir) → AreKept fifodirs.old.entries model
        → AreKept fifodirs.new.entries (without_posts model names.now posts.now) }
{
    for i in 0..posts.len() {
        cancel_at(fifodirs, &names[i], posts[i].id);
    }
}

/// The number of events that the post knows, if it is met.
fn number_of(post: &LocalPost) -> Option<u64>
    ensures { result ≡ number_of post.now }
{
    if post.watch.met() {
        Some(post.watch.at())
    } else {
        None
    }
}

/// The verdict of the posts as they are now. The list for their numbers is empty and has room for them.
fn verdict_shown(span: Span, posts: &[LocalPost], mut numbers: Vec<Option<u64>>) -> Reply
    requires empty { vec_len numbers ≡ 0 }
    requires fits { length posts.now ≤ vec_capacity numbers }
    requires few { length posts.now ≤ MOST_SERVICES }
    ensures { result ≡ verdict_shown span posts.now }
{
    let mut tally = Tally::new(span);
    for post in posts {
        tally.add(&post.watch);
        numbers.push_reserved(number_of(post));
    }
    match tally.answer() {
        Some(Verdict::Yes) => Reply::Yes(Numbers::of(numbers)),
        Some(Verdict::Never) => Reply::Never,
        Some(Verdict::Late) | None => Reply::Late,
    }
}
