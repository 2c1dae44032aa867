// Laws of hubs that stand for a play.
ghost use Rattle.std.specs.Prelude.{◌≡◌, true, false};
ghost use Rattle.std.specs.List.{list_any};
ghost use Rattle.std.specs.declared.option.Option.TheVariants.{Some};
ghost use Rattle.std.specs.declared.option.Option.{Option};
ghost use Rattle.chain_model.specs.Chains.{ChainState};
ghost use Rattle.wire_port.specs.Wires.{WireView};
ghost use Rattle.plays.specs.Plays.{Setting, played};
ghost use Rattle.plays.specs.Stands.{HubView, Stands};
ghost use Rattle.plays.specs.Given.{IsAtRest};
ghost use Rattle.wire_port.specs.declared.wire.Found.{Found};
ghost use Rattle.hub.specs.Standing.{HubStands, FoundNow, opens_none};
ghost use Rattle.hub.specs.Resting.{Rests};

/// A hub that stands so, over a chain and a wire that are told, stands for the play of the wire's steps: its sessions are those of the play's seats,
/// each peer was given what it is to be given, and the shared devices hold what the private devices hold.
pub fn a_hub_stands_for_its_play()
    ensures { (setting : Setting) (hub : HubView) (chain : ChainState) (wire : WireView) → HubStands setting hub (Some chain) (Some wire) → Stands setting hub chain wire (played setting wire.steps) }
{}

/// A poll that found no connection opened leaves a hub standing for its play.
pub fn polls_keep_the_play()
    ensures { (setting : Setting) (hub : HubView) (chain : Option ChainState) (before now : Option WireView) (found : Found) → opens_none found ≡ true → FoundNow found before now → HubStands setting hub chain before → HubStands setting hub chain now }
{}

/// Where no session is ready and all rest, nothing is left to do for the server in the play that a hub stands for.
pub fn a_hub_at_rest_has_nothing_to_do()
    ensures { (setting : Setting) (hub : HubView) (chain : ChainState) (wire : WireView) → HubStands setting hub (Some chain) (Some wire) → Rests hub wire → list_any (λ ready. ready) hub.ready ≡ false → IsAtRest setting wire }
{}
