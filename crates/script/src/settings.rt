//! What may be set before the first call.
ghost use Rattle.std.specs.Prelude.{◌≡◌, ◌<◌, refl};
ghost use Rattle.script.specs.Settings.{has_trials, store_words, store_word_in, areas, area_in, place, none_set, set_of, with_length, usual_defaults, default_length, at_start, store_of, length_of, HoldsAny};

use crate::named::{Named, OfWord, by_name};

/// The kind of store that a session runs over.
#[derive(Clone, Copy)]
pub enum StoreKind {
    Flat,
    Sharing,
    TrialFlat,
    TrialSharing,
    TrialTrialSharing,
}

impl StoreKind {
    /// Whether the store is a trial layer.
    pub fn has_trials(self) -> bool
        ensures { result ≡ has_trials self }
    {
        !matches!(self, StoreKind::Flat | StoreKind::Sharing)
    }
}

/// The words that name a kind of store: any layers, then what they stand on.
#[derive(Clone, Copy)]
pub(crate) enum StoreWord {
    Flat,
    Sharing,
    Trial,
}

impl Named for StoreWord {
    ghost names = { store_words };

    fn of_name(name: &str) -> Option<StoreWord> {
        match name {
            "flat" => Some(StoreWord::Flat),
            "sharing" => Some(StoreWord::Sharing),
            "trial" => Some(StoreWord::Trial),
            _ => None,
        }
    }

    ghost names_are_low = { refl };
}

impl OfWord for StoreWord {
    ghost in_word = { store_word_in };

    fn of_word(word: &[u8]) -> Option<StoreWord> {
        by_name(word)
    }
}

/// The areas of a session: the three code tables, cells, frames, and the store's object area and method area.
#[derive(Clone, Copy)]
pub enum Area {
    Contents,
    Operations,
    Methods,
    Cells,
    Frames,
    Objects,
    Slots,
}

impl Area {
    /// Its place among the areas.
    fn place(self) -> usize
        ensures place { result ≡ place self }
        ensures within { result < 7 }
    {
        self as usize
    }
}

impl Named for Area {
    ghost names = { areas };

    fn of_name(name: &str) -> Option<Area> {
        match name {
            "contents" => Some(Area::Contents),
            "operations" => Some(Area::Operations),
            "methods" => Some(Area::Methods),
            "cells" => Some(Area::Cells),
            "frames" => Some(Area::Frames),
            "objects" => Some(Area::Objects),
            "slots" => Some(Area::Slots),
            _ => None,
        }
    }

    ghost names_are_low = { refl };
}

impl OfWord for Area {
    ghost in_word = { area_in };

    fn of_word(word: &[u8]) -> Option<Area> {
        by_name(word)
    }
}

/// The lengths that a line sets: of the areas that it names, each by its place.
#[derive(Clone, Copy)]
pub struct Lengths {
    set: [Option<u32>; 7],
}

impl Lengths {
    /// No area's length is set.
    pub fn none() -> Lengths
        ensures { result ≡ none_set }
    {
        Lengths { set: [None; 7] }
    }

    /// The length that is set for an area, if it is.
    pub fn of(self, area: Area) -> Option<u32>
        ensures { result ≡ set_of self area }
    {
        self.set[area.place()]
    }

    /// The same with this length for an area.
    pub fn with(self, area: Area, length: u32) -> Lengths
        ensures { result ≡ with_length self area length }
    {
        let mut set = self.set;
        set[area.place()] = Some(length);
        Lengths { set }
    }
}

/// Each area's length where nothing else is set.
pub const LENGTH: u32 = 4096;

/// What holds where a script sets nothing else: a caller's to choose.
#[derive(Clone, Copy)]
pub struct Defaults {
    pub store: StoreKind,
    pub contents: u32,
    pub operations: u32,
    pub methods: u32,
    pub cells: u32,
    pub frames: u32,
    pub objects: u32,
    pub slots: u32,
}

impl Default for Defaults {
    ghost is_default = { λ d. d ≡ usual_defaults };

    fn default() -> Defaults {
        Defaults {
            store: StoreKind::TrialFlat,
            contents: LENGTH,
            operations: LENGTH,
            methods: LENGTH,
            cells: LENGTH,
            frames: LENGTH,
            objects: LENGTH,
            slots: LENGTH,
        }
    }
}

impl Defaults {
    /// The length of an area.
    fn length(self, area: Area) -> u32
        ensures { result ≡ default_length self area }
    {
        match area {
            Area::Contents => self.contents,
            Area::Operations => self.operations,
            Area::Methods => self.methods,
            Area::Cells => self.cells,
            Area::Frames => self.frames,
            Area::Objects => self.objects,
            Area::Slots => self.slots,
        }
    }
}

/// What a script has set, whether it can still set it, and what holds where it sets nothing.
#[derive(Clone, Copy, Default)]
pub struct Settings {
    pub store: Option<StoreKind>,
    pub lengths: Option<Lengths>,
    pub calls_begun: bool,
    pub defaults: Defaults,
}

impl Settings {
    /// What holds before the first line, by the usual defaults.
    pub fn new() -> Settings
        ensures { result ≡ at_start }
    {
        Settings::default()
    }

    /// The kind of store: the default where none is set.
    pub fn store(self) -> StoreKind
        ensures { result ≡ store_of self }
    {
        self.store.unwrap_or(self.defaults.store)
    }

    /// The length of an area: the default where none is set.
    pub fn length(self, area: Area) -> u32
        ensures { result ≡ length_of self area }
    {
        self.lengths
            .and_then(|lengths| lengths.of(area))
            .unwrap_or(self.defaults.length(area))
    }
}

/// The law of settings: any store and any lengths, each as set or not, before the first call or after it, are those of some settings.
pub fn settings_hold_any()
    ensures { HoldsAny }
{}
