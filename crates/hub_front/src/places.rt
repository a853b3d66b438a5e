//! The places of replies: laws about the definitions alone.
ghost use Rattle.std.specs.Prelude.{◌≡◌, ℕ, List, Option};
ghost use Rattle.hub_requests.specs.declared.reply.Reply.{Reply};
ghost use Rattle.hub_front.specs.Serving.{Run, Finished};
ghost use Rattle.hub_front.specs.Places.{AreInPlace, IsFunction, NoneIsMemory};

use hub_requests::Desk;

/// The replies to lines are the desk's replies to the requests among them, with the refusals in the places of their
/// lines.
pub fn refusals_are_in_place<D: Desk>()
    ensures { (old new : D) (lines : List (List ℕ)) (replies : List Reply)
        → Run D.asks old lines replies new → AreInPlace D.asks old lines replies new }
{}

/// If a desk has one answer to each request, the same lines have the same replies, unless memory runs out.
pub fn same_lines_same_replies<D: Desk>()
    ensures { IsFunction D.asks
        → (old new new' : D) (lines : List (List ℕ)) (replies replies' : List Reply)
        → NoneIsMemory replies → NoneIsMemory replies'
        → Run D.asks old lines replies new → Run D.asks old lines replies' new'
        → (replies ≡ replies') × (new ≡ new') }
{}

/// If a desk has one answer to each request, the bytes that a session reads determine what it writes, however they were
/// cut on their way, unless memory runs out.
pub fn same_input_same_output<D: Desk>()
    ensures { IsFunction D.asks → (old new new' : D) (bytes held holds holds' : List ℕ)
        → (has has' : Option (List ℕ)) (n n' : ℕ)
        → (one : Finished D.asks D.ends old new (Some held) (Some holds) (Some bytes) has n)
        → (other : Finished D.asks D.ends old new' (Some held) (Some holds') (Some bytes) has' n')
        → NoneIsMemory one.served.replies → NoneIsMemory other.served.replies
        → (holds ≡ holds') × (n ≡ n') }
{}
