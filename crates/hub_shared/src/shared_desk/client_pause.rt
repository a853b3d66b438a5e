//! The pause of a wait that ends if its client is gone.

use hub_fifodir::{Bell, Looked};
use hub_io::Client;
use hub_wait::{Go, Pause};
use std::sync::Wait;

/// A pause that has no more patience if the client is gone. It looks before each pause of its own but the first: the client was there
/// when it asked for what is waited for.
#[derive(Drop)]
pub struct ClientPause<'a, P> {
    pause: P,
    client: Option<&'a Client>,
    /// Whether it has paused.
    has_paused: bool,
}

impl<P> ClientPause<'_, P> {
    /// A pause that looks after the client, if there is one.
    pub fn new(pause: P, client: Option<&Client>) -> ClientPause<'_, P> {
        ClientPause {
            pause,
            client,
            has_paused: false,
        }
    }

    // Whether the client is gone, as far as it is known.
    fn is_gone(&mut self) -> bool {
        let looks = self.has_paused;
        self.has_paused = true;
        looks && self.client.is_some_and(Client::is_gone)
    }
}

impl<P: Pause> Pause for ClientPause<'_, P> {
    fn pause<R: Wait>(&mut self, rt: &R) -> Go {
        if self.is_gone() {
            return Go::Expired;
        }
        self.pause.pause(rt)
    }

    fn pause_at<R: Wait>(&mut self, rt: &R, bell: &Bell, looked: Looked, left: u64) -> Go {
        if self.is_gone() {
            return Go::Expired;
        }
        self.pause.pause_at(rt, bell, looked, left)
    }
}
