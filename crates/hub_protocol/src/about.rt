//! What the pieces of the reply to an `about` say.
ghost use Rattle.std.specs.Prelude.{◌≡◌, ◌≢◌, ◌∷◌, [], ℕ, Bool, List, MatchOption};
ghost use Rattle.std.specs.Fmt.{decimal};
ghost use Rattle.hub_record.specs.declared.Kind.{Kind as kind};
ghost use Rattle.hub_record.specs.declared.limits.Policy.{Policy as policy};
ghost use Rattle.hub_requests.specs.declared.about.About.{About as about};
ghost use Rattle.hub_requests.specs.Texts.{pieces_about, text_of_flag, word_of_kind, word_of_policy};
ghost use Rattle.hub_protocol.specs.Lines.{pieces_of};
ghost use Rattle.hub_protocol.specs.Replies.{IsCount, IsSoundAbout};

use crate::line::{Rest, first_piece};
use crate::meanings::meaning_of;
use crate::reply_pieces::number_of;
use hub_record::{Kind, Policy};
use hub_requests::About;

const KINDS: &[(&[u8], Kind)] = &[(b"dir", Kind::Plain), (b"svc", Kind::Service)];

/// The kind that this word tells.
pub fn kind_of(word: &[u8]) -> Option<Kind>
    ensures { MatchOption result ((k : kind) → word.now ≢ word_of_kind k)
        (λ k. word.now ≡ word_of_kind k) }
{
    meaning_of(KINDS, word)
}

/// What all that is left tells of a fifodir of this kind.
pub fn about_in(kind: Kind, rest: Rest<'_>) -> Option<About>
    ensures { MatchOption result
        ((it : about) → IsSoundAbout it → word_of_kind kind ∷ pieces_of rest.entry ≢ pieces_about it)
        (λ it. IsSoundAbout it × (word_of_kind kind ∷ pieces_of rest.entry ≡ pieces_about it)) }
{
    let (notifies, rest) = flag_in(rest)?;
    let (waiting, total, policy, rest) = limits_in(rest)?;
    let (subscriptions, publishers, pending) = usage_in(rest)?;
    Some(About {
        kind,
        notifies,
        waiting,
        total,
        policy,
        subscriptions,
        publishers,
        pending,
    })
}

// How many events may be pending, how many there may be in all, and what happens if more would be pending.
fn limits_in(rest: Rest<'_>) -> Option<(u64, u64, Policy, Rest<'_>)>
    ensures { MatchOption result
        ((waiting total : ℕ) (p : policy) (more : List (List ℕ)) → IsCount waiting → IsCount total
        → pieces_of rest.entry ≢ decimal waiting ∷ decimal total ∷ word_of_policy p ∷ more)
        (λ l. IsCount l.0 × IsCount l.1 × (pieces_of rest.entry
        ≡ decimal l.0 ∷ decimal l.1 ∷ word_of_policy l.2 ∷ pieces_of l.3)) }
{
    let (waiting, total, rest) = numbers_in(rest)?;
    let (policy, rest) = policy_in(rest)?;
    Some((waiting, total, policy, rest))
}

// How many subscriptions and publishers there are, and how many events are pending. Nothing is left behind them.
fn usage_in(rest: Rest<'_>) -> Option<(u64, u64, u64)>
    ensures { MatchOption result
        ((subscriptions publishers pending : ℕ) → IsCount subscriptions → IsCount publishers
        → IsCount pending → pieces_of rest.entry
        ≢ decimal subscriptions ∷ decimal publishers ∷ decimal pending ∷ [])
        (λ u. IsCount u.0 × IsCount u.1 × IsCount u.2
        × (pieces_of rest.entry ≡ decimal u.0 ∷ decimal u.1 ∷ decimal u.2 ∷ [])) }
{
    let (subscriptions, publishers, rest) = numbers_in(rest)?;
    let pending = last_number(rest)?;
    Some((subscriptions, publishers, pending))
}

fn flag_in(rest: Rest<'_>) -> Option<(bool, Rest<'_>)>
    ensures { MatchOption result
        ((flag : Bool) (more : List (List ℕ)) → pieces_of rest.entry ≢ text_of_flag flag ∷ more)
        (λ p. pieces_of rest.entry ≡ text_of_flag p.0 ∷ pieces_of p.1) }
{
    let Rest::Text(text) = rest else {
        return None;
    };
    let (word, rest) = first_piece(text);
    Some((flag_of(word)?, rest))
}

fn flag_of(word: &[u8]) -> Option<bool>
    ensures { MatchOption result ((flag : Bool) → word.now ≢ text_of_flag flag)
        (λ flag. word.now ≡ text_of_flag flag) }
{
    match word {
        b"0" => Some(false),
        b"1" => Some(true),
        _ => None,
    }
}

fn policy_in(rest: Rest<'_>) -> Option<(Policy, Rest<'_>)>
    ensures { MatchOption result
        ((p : policy) (more : List (List ℕ)) → pieces_of rest.entry ≢ word_of_policy p ∷ more)
        (λ p. pieces_of rest.entry ≡ word_of_policy p.0 ∷ pieces_of p.1) }
{
    let Rest::Text(text) = rest else {
        return None;
    };
    let (word, rest) = first_piece(text);
    Some((policy_of(word)?, rest))
}

const POLICIES: &[(&[u8], Policy)] = &[(b"hold", Policy::Hold), (b"evict", Policy::Evict)];

fn policy_of(word: &[u8]) -> Option<Policy>
    ensures { MatchOption result ((p : policy) → word.now ≢ word_of_policy p)
        (λ p. word.now ≡ word_of_policy p) }
{
    meaning_of(POLICIES, word)
}

// Two numbers, and what is left behind them.
fn numbers_in(rest: Rest<'_>) -> Option<(u64, u64, Rest<'_>)>
    ensures { MatchOption result
        ((first second : ℕ) (more : List (List ℕ)) → IsCount first → IsCount second
        → pieces_of rest.entry ≢ decimal first ∷ decimal second ∷ more)
        (λ p. IsCount p.0 × IsCount p.1
        × (pieces_of rest.entry ≡ decimal p.0 ∷ decimal p.1 ∷ pieces_of p.2)) }
{
    let (first, rest) = number_in(rest)?;
    let (second, rest) = number_in(rest)?;
    Some((first, second, rest))
}

fn number_in(rest: Rest<'_>) -> Option<(u64, Rest<'_>)>
    ensures { MatchOption result
        ((n : ℕ) (more : List (List ℕ)) → IsCount n → pieces_of rest.entry ≢ decimal n ∷ more)
        (λ p. IsCount p.0 × (pieces_of rest.entry ≡ decimal p.0 ∷ pieces_of p.1)) }
{
    let Rest::Text(text) = rest else {
        return None;
    };
    let (digits, rest) = first_piece(text);
    Some((number_of(digits)?, rest))
}

// The number that is all that is left.
fn last_number(rest: Rest<'_>) -> Option<u64>
    ensures { MatchOption result ((n : ℕ) → IsCount n → pieces_of rest.entry ≢ decimal n ∷ [])
        (λ n. IsCount n × (pieces_of rest.entry ≡ decimal n ∷ [])) }
{
    let (number, rest) = number_in(rest)?;
    match rest {
        Rest::Nothing => Some(number),
        Rest::Text(_) => None,
    }
}
