// Layers: which transitions of a state count. Comparisons and sheets are offered on a layer, never on a bare system.
#![tactic(auto)]

mod known;
pub mod layer;
pub mod layered;
pub mod standing;
