//! What a flat store holds.
ghost use Rattle.std.specs.Prelude.{◌≡◌, true};
ghost use Rattle.flat_store.specs.Layout.{laid_out as areas_laid_out};

use store::areas::Areas;
use store::layout::Span;

/// A store whose entries are the spans of the objects' methods, one after the other from the front of the method area.
#[derive(Drop)]
pub struct FlatStore<'a> {
    pub(crate) areas: Areas<'a, Span>,
    ghost laid_out: { areas_laid_out areas.objects.now areas.object_count areas.method_count ≡ true },
}
