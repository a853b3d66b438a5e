//! Lists of words, each with what it means.
ghost use Rattle.std.specs.Prelude.{map};
ghost use Rattle.hub_protocol.specs.Meanings.{IsMeaning, entry_shown};

/// What the word means. None if it isn't in the list.
pub fn meaning_of<T: Copy>(list: &[(&'static [u8], T)], word: &[u8]) -> Option<T>
    ensures { IsMeaning (map entry_shown list.now) word.now result }
{
    for entry in list {
        if entry.0 == word {
            return Some(entry.1);
        }
    }
    None
}
