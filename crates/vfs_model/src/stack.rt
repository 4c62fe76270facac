//! Which layers may stand above each other.

ghost use Rattle.std.specs.Prelude.{◌≡◌, ◌↔◌, true};
ghost use Rattle.vfs_model.specs.Stack.{IsGotFrom, IsPermitted, place_for, places};

use crate::Layer;

/// A place in a stack, for a layer of one kind.
#[derive(Clone, Copy, Debug, PartialEq, Eq)]
pub enum Place {
    /// For a trace.
    Trace,
    /// For checksums.
    Cksum,
    /// For an appended database.
    Append,
    /// For chunks.
    Mux,
    /// For a quota.
    Quota,
}

/// The places of a stack, the top one first.
pub const PLACES: [Place; 11] = [
    Place::Trace,
    Place::Quota,
    Place::Cksum,
    Place::Trace,
    Place::Quota,
    Place::Append,
    Place::Trace,
    Place::Quota,
    Place::Mux,
    Place::Trace,
    Place::Quota,
];

/// The kind of place that a layer has.
pub fn place_for(layer: &Layer) -> Place
    ensures { result ≡ place_for layer.now }
{
    match layer {
        Layer::Trace => Place::Trace,
        Layer::Cksum { .. } => Place::Cksum,
        Layer::Append => Place::Append,
        Layer::Mux { .. } => Place::Mux,
        Layer::Quota { .. } => Place::Quota,
    }
}

/// Whether layers, the top one first, are got from the places of a stack by leaving places out.
pub fn permitted(layers: &[Layer]) -> bool
    ensures { (result ≡ true) ↔ IsPermitted layers.now }
{
    is_got_from(&PLACES, layers)
}

/// Whether layers are got from places: each layer takes the first place of its kind that is left.
fn is_got_from(places: &[Place], layers: &[Layer]) -> bool
    ensures { (result ≡ true) ↔ IsGotFrom places.now layers.now }
{
    let Some((layer, rest)) = layers.split_first() else {
        return true;
    };
    let Some((place, below)) = places.split_first() else {
        return false;
    };
    if *place == place_for(layer) {
        is_got_from(below, rest)
    } else {
        is_got_from(below, layers)
    }
}
