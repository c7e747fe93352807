//! A line into a setting or a call.
ghost use Rattle.std.specs.Prelude.{◌≡◌, drop, vec_items};
ghost use Rattle.words.specs.Words.{left};
ghost use Rattle.script.specs.Lines.{Reads, first_in, alone, one_number_in, all_in, under_two, under_one, store_in, new_area_in, lengths_in, may_set, store_line, lengths_line, asked, trial_call_in, call_in, call_over, is_comment, line_says, ReadsLine};

use crate::calls::{Call, Expected, TrialCall, Unread};
use crate::keywords::{Keyword, TrialVerb, Verb};
use crate::named::OfWord;
use crate::settings::{Area, Lengths, Settings, StoreKind, StoreWord};
use std::alloc::Global;
use words::words::{Words, without_end};

/// The next word, as what is expected there.
fn expect<T: OfWord>(words: &mut Words<'_>, what: Expected) -> Result<T, Expected>
    ensures value { result ≡ first_in T.in_word what (left words.old) }
    ensures rest { left words.new ≡ drop 1 (left words.old) }
{
    words.next().and_then(|word| T::of_word(word)).ok_or(what)
}

/// This, where no word is left.
fn alone<T: Drop>(words: Words<'_>, x: T) -> Result<T, Expected>
    ensures { result ≡ alone x (left words.entry) }
{
    if words.is_empty() {
        Ok(x)
    } else {
        Err(Expected::LineEnd)
    }
}

/// The next word as a number, and no more.
fn only_number(mut words: Words<'_>, what: Expected) -> Result<u32, Expected>
    ensures { result ≡ one_number_in what (left words.entry) }
{
    let n = expect(&mut words, what)?;
    alone(words, n)
}

/// All words that are left, read alike.
fn all<T: OfWord + Drop>(heap: Global, words: Words<'_>, what: Expected) -> Result<Vec<T>, Unread>
    ensures { Reads vec_items (all_in T.in_word what (left words.entry)) result }
{
    let mut all = Vec::new(heap);
    for word in words {
        all.push(T::of_word(word).ok_or(what)?)?;
    }
    Ok(all)
}

/// The kind of store whose name goes on behind two layers.
fn two_layers(mut words: Words<'_>) -> Result<StoreKind, Expected>
    ensures { result ≡ under_two (left words.entry) }
{
    match expect(&mut words, Expected::StoreKind)? {
        StoreWord::Sharing => alone(words, StoreKind::TrialTrialSharing),
        StoreWord::Flat | StoreWord::Trial => Err(Expected::StoreKind),
    }
}

/// The kind of store whose name goes on behind one layer: a function for each depth, since each ends in kinds of its own.
fn one_layer(mut words: Words<'_>) -> Result<StoreKind, Expected>
    ensures { result ≡ under_one (left words.entry) }
{
    match expect(&mut words, Expected::StoreKind)? {
        StoreWord::Flat => alone(words, StoreKind::TrialFlat),
        StoreWord::Sharing => alone(words, StoreKind::TrialSharing),
        StoreWord::Trial => two_layers(words),
    }
}

/// The kind of store that the words that are left name.
fn store_kind(mut words: Words<'_>) -> Result<StoreKind, Expected>
    ensures { result ≡ store_in (left words.entry) }
{
    match expect(&mut words, Expected::StoreKind)? {
        StoreWord::Flat => alone(words, StoreKind::Flat),
        StoreWord::Sharing => alone(words, StoreKind::Sharing),
        StoreWord::Trial => one_layer(words),
    }
}

/// The area of a name, if its length was not set before.
fn new_area(lengths: Lengths, word: &[u8]) -> Result<Area, Expected>
    ensures { result ≡ new_area_in lengths word.now }
{
    let area = Area::of_word(word).ok_or(Expected::AreaName)?;
    match lengths.of(area) {
        Some(_) => Err(Expected::AreaOnce),
        None => Ok(area),
    }
}

/// The lengths that the words that are left name.
fn named_lengths(mut words: Words<'_>) -> Result<Lengths, Expected>
    ensures { result ≡ lengths_in (left words.entry) }
{
    if words.is_empty() {
        return Err(Expected::AreaName);
    }
    let mut lengths = Lengths::none();
    // a turn takes two words, which a `for` over them cannot
    while let Some(word) = words.next() {
        let area = new_area(lengths, word)?;
        let length = expect(&mut words, Expected::AreaLength)?;
        lengths = lengths.with(area, length);
    }
    Ok(lengths)
}

/// A setting can still be made.
fn may_set(settings: Settings, is_set: bool) -> Result<(), Expected>
    ensures { result ≡ may_set settings is_set }
{
    if settings.calls_begun {
        return Err(Expected::SettingFirst);
    }
    if is_set {
        return Err(Expected::SettingOnce);
    }
    Ok(())
}

/// The settings with the store that the words that are left name. (As `lengths_line`, for another setting and by another reader.)
fn store_line(settings: Settings, words: Words<'_>) -> Result<Settings, Expected>
    ensures { result ≡ store_line settings (left words.entry) }
{
    may_set(settings, settings.store.is_some())?;
    Ok(Settings {
        store: Some(store_kind(words)?),
        ..settings
    })
}

/// The settings with the lengths that the words that are left name.
fn lengths_line(settings: Settings, words: Words<'_>) -> Result<Settings, Expected>
    ensures { result ≡ lengths_line settings (left words.entry) }
{
    may_set(settings, settings.lengths.is_some())?;
    Ok(Settings {
        lengths: Some(named_lengths(words)?),
        ..settings
    })
}

/// The trial call of a verb, and of the words that are left.
fn trial_call(verb: TrialVerb, words: Words<'_>) -> Result<TrialCall, Expected>
    ensures { result ≡ trial_call_in verb (left words.entry) }
{
    match verb {
        TrialVerb::Open => alone(words, TrialCall::Open),
        TrialVerb::Keep => Ok(TrialCall::Keep {
            trial: only_number(words, Expected::Trial)?,
        }),
        TrialVerb::PutBack => Ok(TrialCall::PutBack {
            trial: only_number(words, Expected::Trial)?,
        }),
    }
}

/// The call of a verb, and of the words that are left.
fn call_of(heap: Global, verb: Verb, mut words: Words<'_>) -> Result<Call, Unread>
    ensures { Reads asked (call_in verb (left words.entry)) result }
{
    match verb {
        Verb::Check => Ok(Call::Check {
            givens: expect(&mut words, Expected::Givens)?,
            rows: all(heap, words, Expected::Row)?,
        }),
        Verb::Compile => Ok(Call::Compile {
            givens: expect(&mut words, Expected::Givens)?,
            rows: all(heap, words, Expected::Row)?,
        }),
        Verb::List => Ok(Call::List {
            program: only_number(words, Expected::Program)?,
        }),
        Verb::Code => Ok(Call::Code {
            program: only_number(words, Expected::Program)?,
        }),
        Verb::Start => Ok(Call::Start {
            program: expect(&mut words, Expected::Program)?,
            allowance: expect(&mut words, Expected::Allowance)?,
            values: all(heap, words, Expected::Value)?,
        }),
        Verb::Run => Ok(Call::Run {
            reductions: only_number(words, Expected::Reductions)?,
        }),
        Verb::Trial(verb) => Ok(Call::Trial(trial_call(verb, words)?)),
        Verb::Objects => Ok(alone(words, Call::Objects)?),
    }
}

/// The call of a verb, if the store has what it asks for.
fn call_over(heap: Global, store: StoreKind, verb: Verb, words: Words<'_>) -> Result<Call, Unread>
    ensures { Reads asked (call_over store verb (left words.entry)) result }
{
    let call = call_of(heap, verb, words)?;
    if verb.wants_trials() && !store.has_trials() {
        return Err(Unread::Expected(Expected::TrialLayer));
    }
    Ok(call)
}

/// Whether a line that begins with this word is passed over.
fn is_comment(word: &[u8]) -> bool
    ensures { result ≡ is_comment word.now }
{
    matches!(word, [b'#', ..])
}

/// Reads a line, with or without its end: a setting is made, a call is handed on, and an empty line or a comment is passed over.
pub fn read_line(heap: Global, settings: &mut Settings, line: &[u8]) -> Result<Option<Call>, Unread>
    ensures { ReadsLine settings.old (line_says settings.old line.now) result settings.new }
{
    let mut words = Words::new(without_end(line));
    let Some(word) = words.next() else {
        return Ok(None);
    };
    if is_comment(word) {
        return Ok(None);
    }
    match Keyword::of_word(word).ok_or(Expected::Keyword)? {
        Keyword::Store => {
            *settings = store_line(*settings, words)?;
            Ok(None)
        }
        Keyword::Lengths => {
            *settings = lengths_line(*settings, words)?;
            Ok(None)
        }
        Keyword::Call(verb) => {
            let call = call_over(heap, settings.store(), verb, words)?;
            settings.calls_begun = true;
            Ok(Some(call))
        }
    }
}
