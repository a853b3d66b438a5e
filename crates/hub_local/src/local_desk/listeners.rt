//! The requests about a listener: begin one, and look for its next hit.
ghost use Rattle.std.specs.Prelude.{◌≡◌, ◌≢◌, ◌<◌, Some, length, false};
ghost use Rattle.hub_listen.specs.Listening.{is_spent};
ghost use Rattle.hub_record.specs.Kept.{Represents};
ghost use Rattle.hub_record.specs.World.{World, Subscription, subscription_in};
ghost use Rattle.hub_local.specs.Hearings.{Hears, HearsOne, TakesOne};
ghost use Rattle.hub_local.specs.Representing.{AsksDesk, AsksWith, HasSubscription};
ghost use Rattle.hub_requests.specs.declared.request.Request.TheVariants.{Listen, Poll};

use crate::local_desk::{LocalDesk, LocalListener};
use hub_letters::{Letter, MOST_GATHERED};
use hub_listen::{Feed, FeedError, ListenError, Listener, Mode};
use hub_record::{Event, Record, Taken};
use hub_requests::{Excerpt, Name, PatternText, Refusal, Reply};

/// What a listener's look at its letters came to.
enum Heard {
    Hit,
    /// There was no hit in the letters that were pending, or in those that there was room for.
    Nothing,
    /// There was no hit, and no letter will come.
    End,
    /// There was no hit, and no letter will come, since the subscription is evicted.
    Evicted,
    /// Memory ran out in the search of the next letter, which is held.
    Lacking,
}

impl LocalDesk {
    pub(super) fn listen(&mut self, name: &Name, mode: Mode, pattern: &PatternText) -> Reply
        ensures { AsksDesk self.old (Listen name.now mode pattern.now) result self.new }
    {
        if let Some(refusal) = self.refusal_to_hold(name) {
            return Reply::No(refusal);
        }
        match Listener::new(self.alloc, pattern.items(), Mode::Repeat) {
            Ok(listener) => self.hold(
                name,
                Some(LocalListener {
                    listener,
                    mode,
                    held: None,
                }),
            ),
            Err(ListenError::Pattern) | Err(ListenError::Large) => Reply::No(Refusal::Pattern),
            Err(ListenError::Memory) => Reply::No(Refusal::Memory),
        }
    }

    pub(super) fn poll(&mut self, id: u64) -> Reply
        ensures { AsksWith false self.old (Poll id) result self.new }
    {
        let Some(holding) = self.holdings.get_mut(&id) else {
            return Reply::No(Refusal::Id);
        };
        let Some(hearing) = &mut holding.hearing else {
            return Reply::No(Refusal::Id);
        };
        if hearing.listener.text().len() >= MOST_GATHERED {
            return Reply::No(Refusal::Overlong);
        }
        let Ok(mut letters) = Vec::with_capacity(self.alloc, MOST_GATHERED) else {
            return Reply::No(Refusal::Memory);
        };
        let Some(fifodir) = self.fifodirs.get_mut(&holding.name) else {
            unreachable!()
        };
        match hear(hearing, &mut fifodir.kept, holding.id) {
            Heard::Nothing => Reply::Nothing,
            Heard::End => Reply::End,
            Heard::Evicted => Reply::Evicted,
            Heard::Lacking => Reply::No(Refusal::Memory),
            Heard::Hit => {
                letters.extend_from_slice(hearing.listener.hit()).unwrap();
                match hearing.mode {
                    Mode::Once => {
                        let _ = self.cancel(id);
                    }
                    Mode::Repeat => {}
                }
                Reply::Hit(Excerpt::of(letters))
            }
        }
    }
}

/// Hears the pending letters one by one, until there is a hit or no room.
fn hear(hearing: &mut LocalListener, kept: &mut Record, id: u64) -> Heard
    requires current { HasSubscription kept.old id }
    requires unspent { is_spent hearing.old.listener ≡ false }
    requires room { length hearing.old.listener.gathered < MOST_GATHERED }
    ensures { (w : World) (s : Subscription) → Represents kept.old w → subscription_in w id ≡ Some s
        → Hears hearing.old w id result hearing.new kept.new }
{
    for _ in hearing.listener.text().len()..MOST_GATHERED {
        match hear_one(hearing, kept, id) {
            None => {}
            Some(heard) => return heard,
        }
    }
    Heard::Nothing
}

/// Hears the letter that is held, or else the next pending one. None if it completes no hit.
fn hear_one(hearing: &mut LocalListener, kept: &mut Record, id: u64) -> Option<Heard>
    requires current { HasSubscription kept.old id }
    requires unspent { is_spent hearing.old.listener ≡ false }
    requires room { length hearing.old.listener.gathered < MOST_GATHERED }
    ensures { (w : World) (s : Subscription) → Represents kept.old w → subscription_in w id ≡ Some s
        → HearsOne hearing.old w id result hearing.new kept.new }
{
    let letter = match hearing.held {
        Some(letter) => letter,
        None => match take_one(kept, id) {
            Ok(letter) => letter,
            Err(heard) => return Some(heard),
        },
    };
    hearing.held = Some(letter);
    match hearing.listener.feed(&[letter]) {
        Ok(Feed::Quiet) => {
            hearing.held = None;
            None
        }
        Ok(Feed::Hit(_)) => {
            hearing.held = None;
            Some(Heard::Hit)
        }
        Err(FeedError::Memory) => Some(Heard::Lacking),
        Ok(Feed::Spent) | Err(FeedError::Overlong) => unreachable!(),
    }
}

/// Takes the next pending event, and returns its letter.
fn take_one(kept: &mut Record, id: u64) -> Result<Letter, Heard>
    requires { HasSubscription kept.old id }
    ensures { (w : World) (s : Subscription) → Represents kept.old w → subscription_in w id ≡ Some s
        → TakesOne w id result kept.new }
{
    let mut room = [Event::FILLER];
    match kept.take_into(id, &mut room) {
        Ok(Taken::Got(_)) => Ok(room[0].letter),
        Ok(Taken::Nothing) => Err(Heard::Nothing),
        Ok(Taken::End) => Err(Heard::End),
        Ok(Taken::Evicted) => Err(Heard::Evicted),
        Err(_) => unreachable!(),
    }
}
