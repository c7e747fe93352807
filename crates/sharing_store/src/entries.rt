//! An object of the sharing store.

/// Where an object's methods are reserved and where they stand, and with which objects it shares them. An object is filled once they
/// stand where they are reserved; until then it has those of its root, which is filled. Objects name one
/// another by number, since their entries lie in a lent area.
#[derive(Clone, Copy, Default)]
pub struct SharedEntry {
    /// Where its own space begins in the method area.
    pub first: u32,
    pub size: u32,
    /// Where its methods stand: at `first` once it is filled, else where its root's do.
    pub held: u32,
    /// The object that it was made to share with, or itself.
    pub root: u32,
    /// The newest clone that was made to share with it since its last update, or itself.
    pub last: u32,
    /// The clone of the same root made before it, or the root.
    pub previous: u32,
}
