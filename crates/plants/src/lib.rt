// Small plans of discovery with known answers, as theorems.
#![tactic(auto)]

ghost use Rattle.plants.specs.Plants.{DiscoveryHolds};

// Every row of the table holds of the definitions that the calls are proved with.
pub fn discovery_holds()
    ensures { DiscoveryHolds }
{}
