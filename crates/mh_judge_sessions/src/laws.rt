//! Laws of histories that are judged by what their sessions see.
//!
//! A legal history of ours is legal so, under its own rules. One that is legal so has the replies of a heap that
//! never collects or moves, but for a full heap. That comes only if such a heap makes the object. Of a configuration
//! only the rules matter. Each text has such a verdict, and one by which no heap may be full.
ghost use Rattle.mh_judge_sessions.specs.Laws.{FullHeapsAreJudged, LegalHistoriesAreLegalForSessions, OnlyTheRulesMatter, SessionsSeeTheWorld, TextsAreSeenThrough};

use mh_promise::promise::runs_keep_their_promise;
use mh_run_laws::worlds::world_is_never_full;

/// Of a configuration only the rules matter to what sessions see.
#[tactic(auto, using(crate::proofs::RulesLemmas::rules_alone))]
pub fn only_the_rules_matter()
    ensures { OnlyTheRulesMatter }
{}

/// A history that is legal for its sessions answers each as the ever-growing world does, but for a full heap.
#[tactic(auto, using(crate::proofs::LegalLemmas::see_the_world))]
pub fn sessions_see_the_world()
    ensures { SessionsSeeTheWorld }
{
    world_is_never_full();
}

/// A history with the machine's replies is legal for its sessions.
#[tactic(auto, using(crate::proofs::LegalLemmas::legal_for_sessions))]
pub fn legal_histories_are_legal_for_sessions()
    ensures { LegalHistoriesAreLegalForSessions }
{
    runs_keep_their_promise();
    only_the_rules_matter();
}

/// A text of either version has a verdict by what its sessions see.
#[tactic(auto, using(crate::proofs::VerdictLemmas::seen_through))]
pub fn texts_are_seen_through()
    ensures { TextsAreSeenThrough }
{
    only_the_rules_matter();
}

/// A text has a verdict also where no heap may be full. Where one may be, its verdict is the one that it has anyhow.
#[tactic(auto, using(crate::proofs::StrictLemmas::full_judged))]
pub fn full_heaps_are_judged()
    ensures { FullHeapsAreJudged }
{
    texts_are_seen_through();
}
