// crates.txt: YOURS: hub_letters
use hub_letters::{Flags, Letter, Stage, Want};

/// Whether a service that has sent just these bytes, such as `b"suU"`, is ready. None if a service can't send them.
pub fn is_ready(bytes: &[u8]) -> Option<bool> {
    let mut stage = Stage::Off;
    let mut flags = Flags::none();
    for byte in bytes {
        let letter = Letter::of(*byte)?;
        stage = stage.next(letter)?;
        flags = flags.after(letter);
    }
    Some(Want::Ready.met(flags, true, false))
}
