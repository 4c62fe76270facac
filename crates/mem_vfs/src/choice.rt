//! Which of the images of a device is asked for.

/// Which of two an image takes.
#[derive(Clone, Copy, Debug, PartialEq, Eq)]
pub enum Edge {
    /// What the last sync left.
    Old,
    /// What stands now.
    Present,
}

/// What an image has at the places that a stop may change.
#[derive(Clone, Copy, Debug, PartialEq, Eq)]
pub enum Fill {
    /// What the last sync left, with zeros where it left nothing.
    Old,
    /// What stands now, with zeros where nothing stands.
    Present,
    /// This byte.
    All(u8),
}

/// One image of all files of a device.
#[derive(Clone, Copy, Debug, PartialEq, Eq)]
pub struct ImageChoice {
    /// How long the files are. One that is there again after its deletion is as long as at its last sync.
    pub length: Edge,
    /// What they have at the places that are not synced.
    pub bytes: Fill,
    /// Whether those are there whose names are not synced.
    pub names: Edge,
}
