//! Names of fifodirs.
ghost use Rattle.std.specs.Prelude.{◌≡◌, ℕ, List, IfOk, OnErr, MatchOption, true, false};
ghost use Rattle.std.specs.List.{list_all};
ghost use Rattle.std.specs.Cmp.Rules.{comparing, hashing};
ghost use Rattle.std.proofs.Common.{rules};
ghost use Rattle.hub_requests.specs.Names.{is_name_byte, is_name};

use crate::bounds::LONGEST_NAME;
use std::alloc::{AllocError, Global};
use std::hash::{Hash, Hasher};
use std::marker::Model;

/// The name of a fifodir: 1 to 32 bytes, each an ASCII letter or digit, `_`, `.` or `-`. In contracts it is its bytes.
#[derive(Debug, Drop)]
pub struct Name {
    bytes: Vec<u8>,
}

impl Model for Name {
    ghost Value = { List ℕ };

    ghost view = { λ name. name.bytes.items };

    ghost invariant = { λ name. is_name name.bytes.items ≡ true };
}

impl Name {
    /// The name with this text. None if the text isn't a name. An error says that memory ran out.
    pub fn of(alloc: Global, text: &[u8]) -> Result<Option<Name>, AllocError>
        ensures ok { IfOk result (λ named. MatchOption named (is_name text.now ≡ false)
            (λ name. (is_name text.now ≡ true) × (name ≡ text.now))) }
        ensures err { OnErr result (is_name text.now ≡ true) }
    {
        if !Name::is_name(text) {
            return Ok(None);
        }
        let bytes = Vec::from_slice(alloc, text)?;
        Ok(Some(Name { bytes }))
    }

    /// Whether the text is 1 to 32 bytes of a name.
    pub fn is_name(text: &[u8]) -> bool
        ensures { result ≡ is_name text.now }
    {
        if text.is_empty() || text.len() > LONGEST_NAME {
            return false;
        }
        has_name_bytes(text)
    }

    /// The bytes of the name, borrowed.
    pub fn bytes(&self) -> &[u8]
        ensures { result.now ≡ self.now }
    {
        self.bytes.as_slice()
    }

    /// A copy of the name. An error says that memory ran out.
    pub fn copy(&self) -> Result<Name, AllocError>
        ensures { IfOk result (λ name. name ≡ self.now) }
    {
        let bytes = self.bytes.clone()?;
        Ok(Name { bytes })
    }
}

fn may_be_in_name(byte: u8) -> bool
    ensures { result ≡ is_name_byte byte }
{
    matches!(byte, b'A'..=b'Z' | b'a'..=b'z' | b'0'..=b'9' | b'_' | b'.' | b'-')
}

fn has_name_bytes(text: &[u8]) -> bool
    ensures { result ≡ list_all is_name_byte text.now }
{
    text.iter().all(|b| may_be_in_name(*b))
}

impl PartialEq for Name {
    ghost use Rattle.std.specs.Prelude.{◌==◌};
    ghost use Rattle.std.specs.Str.{bytes_eq};

    ghost eq = { bytes_eq };

    ghost laws = { Prim.search (comparing, rules) };

    fn eq(&self, other: &Name) -> bool {
        self.bytes == other.bytes
    }
}

impl Eq for Name {
    ghost laws = { Prim.search (comparing, rules) };
}

impl Hash for Name {
    ghost use Rattle.std.specs.Hash as fed;

    ghost hash_input = { fed.slice fed.u8 };

    ghost respects_eq = { Prim.search (hashing, rules) };

    fn hash<H: Hasher>(&self, state: &mut H) {
        self.bytes.hash(state);
    }
}
