//! What is told of a fifodir, as an object of JSON on a line of its own.
ghost use Rattle.std.specs.Prelude.{◌≡◌, ◌++◌, ◌∷◌, OnOk, codes};
ghost use Rattle.std.specs.Fmt.{decimal};
ghost use Rattle.std.specs.List.{join_with_byte};
ghost use Rattle.hub_requests.specs.Texts.{word_of_policy};
ghost use Rattle.hub_views.specs.Descriptions.{count_members, limit_members, member, object_of, quoted, state_members, state_value, true_or_false};

use crate::description::Description;
use crate::rows::{kind_word, policy_word};
use crate::states::state_word;
use hub_letters::Flags;
use hub_record::{Kind, Policy};
use hub_requests::About;
use std::alloc::{AllocError, Global};

// Puts a member with this value behind the object.
fn put_member(key: &str, value: &str, object: &mut String) -> Result<(), AllocError>
    ensures { OnOk result (object.new.bytes.items
        ≡ object.old.bytes.items ++ member key.now value.now) }
{
    object.push_str("\"")?;
    object.push_str(key)?;
    object.push_str("\":")?;
    object.push_str(value)
}

// Puts a member behind the object whose value is this text, which needs no escape.
fn put_text(key: &str, text: &str, object: &mut String) -> Result<(), AllocError>
    ensures { OnOk result (object.new.bytes.items
        ≡ object.old.bytes.items ++ member key.now (quoted text.now)) }
{
    put_member(key, "\"", object)?;
    object.push_str(text)?;
    object.push_str("\"")
}

// Puts a comma and a member whose value is this number behind the object.
fn put_number(alloc: Global, key: &str, number: u64, object: &mut String) -> Result<(), AllocError>
    ensures { OnOk result (object.new.bytes.items
        ≡ object.old.bytes.items ++ 44 ∷ member key.now (decimal number)) }
{
    object.push_str(",")?;
    put_member(key, number.to_string(alloc)?.as_str(), object)
}

fn true_or_false(answer: bool) -> &'static str
    ensures { result.now ≡ true_or_false answer }
{
    if answer { "true" } else { "false" }
}

// Puts a comma and a member that says whether it is so behind the object.
fn put_answer(key: &str, answer: bool, object: &mut String) -> Result<(), AllocError>
    ensures { OnOk result (object.new.bytes.items
        ≡ object.old.bytes.items ++ 44 ∷ member key.now (true_or_false answer)) }
{
    object.push_str(",")?;
    put_member(key, true_or_false(answer), object)
}

// Puts a comma and the member of the state behind the object.
fn put_state(kind: Kind, flags: Flags, object: &mut String) -> Result<(), AllocError>
    ensures { OnOk result (object.new.bytes.items
        ≡ object.old.bytes.items ++ 44 ∷ member (codes "state") (state_value kind flags)) }
{
    object.push_str(",")?;
    match kind {
        Kind::Plain => put_member("state", "null", object),
        Kind::Service => put_text("state", state_word(flags), object),
    }
}

// Puts the members on the state of a fifodir behind the object.
fn put_states(it: Description, object: &mut String) -> Result<(), AllocError>
    ensures { OnOk result (object.new.bytes.items
        ≡ object.old.bytes.items ++ 44 ∷ join_with_byte 44 (state_members it)) }
{
    let Description { about, status } = it;
    object.push_str(",")?;
    put_text("kind", kind_word(about.kind), object)?;
    put_state(about.kind, status.flags, object)?;
    put_answer("readiness", about.notifies, object)?;
    put_answer("closed", status.closed, object)
}

// Puts the members that count what is there behind the object.
fn put_counts(alloc: Global, it: Description, object: &mut String) -> Result<(), AllocError>
    ensures { OnOk result (object.new.bytes.items
        ≡ object.old.bytes.items ++ 44 ∷ join_with_byte 44 (count_members it)) }
{
    put_number(alloc, "events", it.status.number, object)?;
    put_number(alloc, "subscribers", it.about.subscriptions, object)?;
    put_number(alloc, "publishers", it.about.publishers, object)?;
    put_number(alloc, "pending", it.about.pending, object)
}

// Puts a comma and the member of the policy behind the object.
fn put_policy(policy: Policy, object: &mut String) -> Result<(), AllocError>
    ensures { OnOk result (object.new.bytes.items
        ≡ object.old.bytes.items ++ 44 ∷ member (codes "policy") (quoted (word_of_policy policy))) }
{
    object.push_str(",")?;
    put_text("policy", policy_word(policy), object)
}

// Puts the members on the limits of a fifodir behind the object.
fn put_limits(alloc: Global, about: About, object: &mut String) -> Result<(), AllocError>
    ensures { OnOk result (object.new.bytes.items
        ≡ object.old.bytes.items ++ 44 ∷ join_with_byte 44 (limit_members about)) }
{
    put_number(alloc, "waiting", about.waiting, object)?;
    put_number(alloc, "total", about.total, object)?;
    put_policy(about.policy, object)
}

/// Puts the object of a fifodir with this name behind the others. A name needs no escape: it has letters, digits, `_`, `.` and `-`.
pub fn put_object(
    alloc: Global,
    name: &str,
    it: Description,
    objects: &mut String,
) -> Result<(), AllocError>
    ensures { OnOk result (objects.new.bytes.items
        ≡ objects.old.bytes.items ++ object_of name.now it) }
{
    objects.push_str("{")?;
    put_text("name", name, objects)?;
    put_states(it, objects)?;
    put_counts(alloc, it, objects)?;
    put_limits(alloc, it.about, objects)?;
    objects.push_str("}\n")
}
