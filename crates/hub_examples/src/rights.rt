// crates.txt: YOURS: hub_rights
use hub_rights::{Desk, Enter, Onlooker};
use std::sync::Wait;

/// The end of a session that only looked. Gives the desk below back.
pub fn end_of_look<H: Wait + Enter, D: Desk>(rt: &H, mut session: Onlooker<D>) -> D {
    session.end(rt);
    let Onlooker { below } = session;
    below
}
