//! Laws of a desk: each is the contract of a function that does nothing.
ghost use Rattle.hub_local.specs.Laws.{AwaitsTellPolls, AwaitsTellTakes, NamesOutliveTheEnd, NamesStay};
ghost use Rattle.hub_local.specs.Replies.{PublishIsOf, SubscribeIsOf};
ghost use Rattle.hub_local.specs.Representing.{RunsAnswer};
ghost use Rattle.hub_local.specs.Waits.{WaitsUseIds};

use crate::local_desk::LocalDesk;

impl LocalDesk {
    /// If no reply of a run is `no memory`, the replies are the model's answers to the requests.
    #[tactic(auto, using(crate::proofs::Running::runs_answer))]
    pub fn runs_answer()
        ensures { RunsAnswer }
    {}

    /// The replies that the model's desk takes from a record are the record's own, and the record has no others.
    #[tactic(auto, using(crate::proofs::RecordReplies::subscribe_is_of, crate::proofs::RecordReplies::publish_is_of))]
    pub fn asks_the_record()
        ensures subscribe { SubscribeIsOf }
        ensures publish { PublishIsOf }
    {}

    /// If an await is late, a take or a poll answers `none`; and if a take answers `none`, an await is late.
    pub fn awaits_tell_what_comes()
        ensures takes { AwaitsTellTakes }
        ensures polls { AwaitsTellPolls }
    {}

    /// A `dir` or `svc` that is carried out puts its name behind all others. No other request, and no refused one, changes the
    /// names, and neither does the end of the session.
    #[tactic(auto, using(crate::proofs::NamesLaws::names_stay, crate::proofs::NamesLaws::names_outlive_the_end))]
    pub fn names_stay()
        ensures asked { NamesStay }
        ensures ended { NamesOutliveTheEnd }
    {}

    /// Whatever a wait answers, it leaves each fifodir as it was, except for ids that are used.
    pub fn waits_use_ids()
        ensures { WaitsUseIds }
    {}
}
