//! All sessions over one scan chain: what the steps of a wire come to, and that no grant disturbs another.
#![tactic(auto)]

ghost use Rattle.std.specs.Prelude.{◌≡◌, ◌<◌, ℕ, [], length, true};
ghost use Rattle.client_session.specs.Turns.{gone_on};
ghost use Rattle.plays.specs.Plays.{Setting, Play, played, go, after_turn, turn_at};
ghost use Rattle.plays.specs.Marks.{EachWaitsOneCaptureOfAnother, JoinsAreMarked};
ghost use Rattle.chain_model.specs.Chains.{ChainState};
ghost use Rattle.wire_port.specs.Steps.{opens_once};
ghost use Rattle.wire_port.specs.Wires.{WireView};
ghost use Rattle.plays.specs.Given.{SharedAsAlone, IsAtRest, AllGivenAsAlone};
ghost use Rattle.plays.specs.Stands.{HubView, Stands};
ghost use Rattle.plays.specs.Laws.{EachAsAlone, EachWaitsBehind, EachScanIsHeld, EachSeatIsOver, EachReplayIsPlayed, EachReplayRests, EachReplyIsShort};

/// In a play of no steps no session ends.
pub fn no_steps_no_end()
    ensures { (setting : Setting) → (played setting []).ends ≡ [] }
{}

/// Each session's replies are the front of those that a private chain of its grant makes to that grant's own bytes and drops alone;
/// where the grant does not wait, they are all of them, and its seat is that of the private chain.
pub fn each_grant_is_as_alone()
    ensures { EachAsAlone }
{}

/// A grant that waits does so behind another grant's open scan.
pub fn who_waits_waits_behind_an_open_scan()
    ensures { EachWaitsBehind }
{}

/// A grant that goes on in a play does what its turn does by itself.
pub fn a_grant_goes_on_by_its_turn()
    ensures { (setting : Setting) (grant : ℕ) (play : Play) → grant < length play.seats → go setting grant play ≡ after_turn grant play (gone_on setting.layout grant (turn_at play grant)) }
{}

/// From where a grant joins those that wait to its own next capture, each other grant captures at most once.
pub fn each_waits_one_capture_of_another()
    ensures { EachWaitsOneCaptureOfAnother }
{}

/// The marks that this is read off have as many joins as the play counts.
pub fn joins_are_marked()
    ensures { JoinsAreMarked }
{}

/// A grant holds the chain exactly where its seat has a scan open.
pub fn who_scans_holds()
    ensures { EachScanIsHeld }
{}

/// Every seat of every play stays over its group's part of the layout: its device types, its nets, and all lengths,
/// where the device types are those of plans and each device has a pin for each cell of its boundary register.
pub fn seats_are_over_the_layout()
    ensures { EachSeatIsOver }
{}

/// The play of a replay is the play of the steps that it tells, which open no connection twice.
pub fn replays_are_played()
    ensures { EachReplayIsPlayed }
{}

/// After the last line of a replay no session is ready.
pub fn replays_rest()
    ensures { EachReplayRests }
{}

/// A connection is replied three bytes at most for each byte that was taken from it, where the vector length has eight digits at most.
pub fn replies_are_short()
    ensures { EachReplyIsShort }
{}

/// Where a hub, the shared chain and a wire stand for the play of the wire's steps, each peer was given a front of what its grant's private chain
/// replies to the grant's own bytes and drops alone, and all of it where the grant does not wait and the peer took what there was; nobody else was
/// given anything; and the shared devices hold what the private devices hold.
pub fn what_stands_is_shared_as_alone()
    ensures { (setting : Setting) (hub : HubView) (chain : ChainState) (wire : WireView) → opens_once wire.steps ≡ true → Stands setting hub chain wire (played setting wire.steps) → SharedAsAlone setting chain wire }
{}

/// Where peers are given what they are alone, and nothing is left to do for the server, each peer was given all that its grant's private chain replies
/// to it, unless the grant waits, or the peer is gone or takes no more.
pub fn at_rest_all_is_given()
    ensures { (setting : Setting) (chain : ChainState) (wire : WireView) → SharedAsAlone setting chain wire → IsAtRest setting wire → AllGivenAsAlone setting wire }
{}
