//! What a sharing store holds.
ghost use Rattle.std.specs.Prelude.{◌≡◌, true};
ghost use Rattle.sharing_store.specs.Views.{laid_out as areas_laid_out, sound};

use crate::entries::SharedEntry;
use store::areas::Areas;

/// A store whose objects have spaces that follow one another from the front of the method area; the methods in them are reserved.
#[derive(Drop)]
pub struct SharingStore<'a> {
    pub(crate) areas: Areas<'a, SharedEntry>,
    ghost laid_out: { areas_laid_out areas.objects.now areas.object_count areas.method_count ≡ true },
    ghost shares: { sound areas.objects.now areas.object_count ≡ true },
}
