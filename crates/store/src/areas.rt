//! The two lent areas in which every kind of store keeps its objects.
ghost use Rattle.std.specs.Prelude.{◌≡◌, ℕ, ◌≤◌, length};

use crate::closures::Method;

/// An area with an entry for each object and an area with the methods of all of them, both used from the front. Their lengths are the
/// limits; what lies past the counts may be anything.
#[derive(Drop)]
pub struct Areas<'a, E> {
    pub(crate) objects: &'a mut [E],
    pub(crate) methods: &'a mut [Method],
    pub(crate) object_limit: u32,
    pub(crate) method_limit: u32,
    pub(crate) object_count: u32,
    pub(crate) method_count: u32,
    ghost object_room: { object_limit ≤ length objects.now },
    ghost method_room: { method_limit ≤ length methods.now },
    ghost objects_small: { object_limit ≤ 1048576 },
    ghost methods_small: { method_limit ≤ 1048576 },
    ghost objects_fit: { object_count ≤ object_limit },
    ghost methods_fit: { method_count ≤ method_limit },
}
