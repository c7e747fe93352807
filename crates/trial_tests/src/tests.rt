//! What comes of trials.
use crate::tries::try_calls;
use calculus::code::MethodEntry;
use flat_store::table::FlatStore;
use sharing_store::entries::SharedEntry;
use sharing_store::table::SharingStore;
use std::test::Fail;
use store::closures::{Closure, Method};
use store::layout::Span;
use store::store::Store;
use store_laws::runs::{StoreAnswer, StoreCall, perform_all};
use trial_layer::faults::TrialFault;
use trial_layer::layer::TrialLayer;
use trial_layer::token::Token;

/// The store that a trial layer is put on.
#[derive(Clone, Copy)]
enum Below {
    Flat,
    Sharing,
    LayerOnFlat,
    LayerOnSharing,
}

const EVERY: [Below; 4] = [
    Below::Flat,
    Below::Sharing,
    Below::LayerOnFlat,
    Below::LayerOnSharing,
];

const ENTRIES: [MethodEntry; 2] = [
    MethodEntry { label: 1, list: 10 },
    MethodEntry { label: 2, list: 20 },
];

/// The lists of the first two methods of the first four objects, 0 where there is none.
type Lists = [u32; 8];

fn list_at<S: Store>(store: &S, location: u32, place: u32) -> u32 {
    store
        .method_at(location, place)
        .map_or(0, |method| method.closure.list)
}

fn lists<S: Store>(store: &S) -> Lists {
    [
        list_at(store, 0, 0),
        list_at(store, 0, 1),
        list_at(store, 1, 0),
        list_at(store, 1, 1),
        list_at(store, 2, 0),
        list_at(store, 2, 1),
        list_at(store, 3, 0),
        list_at(store, 3, 1),
    ]
}

/// What comes of some calls on trial: the number of the fault if put back was refused, the same of a second time, and the lists
/// before, during and after the first.
type Outcome = (Result<(), u32>, Result<(), u32>, [Lists; 3]);

// A layer with one object, then the calls on trial, put back or, if that is refused, kept.
fn tried<S: Store + Drop>(below: S, calls: &[StoreCall]) -> Result<Outcome, TrialFault> {
    let mut layer = TrialLayer::new(below);
    let _ = layer.make(&ENTRIES, 5);
    let before = lists(&layer);
    let mut answers = [Ok(StoreAnswer::Updated); 300];
    let token = layer.open()?;
    let _ = perform_all(&mut layer, &ENTRIES, calls, &mut answers);
    let during = lists(&layer);
    let ended = match layer.put_back(token) {
        Ok(()) => Ok(()),
        Err((token, fault)) => {
            layer.keep(token)?;
            Err(fault.number())
        }
    };
    let after = lists(&layer);
    let again = try_calls(&mut layer, &ENTRIES, calls, &mut answers);
    let again = again.map_err(TrialFault::number);
    Ok((ended, again, [before, during, after]))
}

fn tried_on_layer<S: Store + Drop>(below: S, calls: &[StoreCall]) -> Result<Outcome, TrialFault> {
    tried(TrialLayer::new(below), calls)
}

fn tried_on(below: Below, calls: &[StoreCall]) -> Result<Outcome, TrialFault> {
    let mut methods = [Method::default(); 16];
    let mut spans = [Span::default(); 8];
    let mut shared = [SharedEntry::default(); 8];
    match below {
        Below::Flat => tried(FlatStore::new(&mut spans, &mut methods), calls),
        Below::Sharing => tried(SharingStore::new(&mut shared, &mut methods), calls),
        Below::LayerOnFlat => tried_on_layer(FlatStore::new(&mut spans, &mut methods), calls),
        Below::LayerOnSharing => {
            tried_on_layer(SharingStore::new(&mut shared, &mut methods), calls)
        }
    }
}

#[test]
fn put_back(rt: HostRuntime) -> Result<(), Fail> {
    let other = Closure { list: 7, env: 7 };
    let same_place = [StoreCall::Update(0, 0, other); 257];
    let mixed = [
        StoreCall::Update(0, 0, Closure { list: 70, env: 7 }),
        StoreCall::Clone(0),
        StoreCall::Update(0, 0, Closure { list: 71, env: 7 }),
        StoreCall::Update(1, 1, Closure { list: 72, env: 7 }),
        StoreCall::Make {
            first: 1,
            count: 1,
            env: 9,
        },
        StoreCall::Update(2, 0, Closure { list: 73, env: 7 }),
        StoreCall::Update(1, 0, Closure { list: 74, env: 7 }),
        StoreCall::Update(2, 1, other),
        StoreCall::Update(9, 0, other),
        StoreCall::Clone(1),
        StoreCall::Update(0, 1, Closure { list: 75, env: 7 }),
    ];
    let start = [10, 20, 0, 0, 0, 0, 0, 0];
    let updated = [7, 20, 0, 0, 0, 0, 0, 0];
    let changed = [71, 75, 74, 72, 73, 0, 74, 72];
    let newer = [10, 20, 70, 20, 20, 0, 74, 72];
    for below in EVERY {
        assert_eq!(rt;
            tried_on(below, &same_place[0..256])?,
            (Ok(()), Ok(()), [start, updated, start])
        );
        assert_eq!(rt;
            tried_on(below, &same_place)?,
            (Err(30), Err(30), [start, updated, updated])
        );
        assert_eq!(rt;
            tried_on(below, &mixed)?,
            (Ok(()), Ok(()), [start, changed, newer])
        );
    }
    Ok(())
}

// What keep answers to the token of a number, if there is one: nothing, or the number of the fault.
fn kept<S: Store>(layer: &mut TrialLayer<S>, number: u32) -> Option<Result<(), u32>> {
    let token = Token::of(number)?;
    Some(layer.keep(token).map_err(TrialFault::number))
}

// The same of put back, with the number of the token that it hands back. That one is spent on keep, which is refused as well.
fn put_back_by<S: Store>(layer: &mut TrialLayer<S>, number: u32) -> Option<Result<(), (u32, u32)>> {
    let token = Token::of(number)?;
    Some(match layer.put_back(token) {
        Ok(()) => Ok(()),
        Err((token, fault)) => {
            let back = token.number();
            let _ = layer.keep(token);
            Err((fault.number(), back))
        }
    })
}

// The number of the trial that is opened, or that of the fault. The token is spent on another layer.
fn opened<S: Store, T: Store>(
    layer: &mut TrialLayer<S>,
    aside: &mut TrialLayer<T>,
) -> Result<u32, u32> {
    match layer.open() {
        Ok(token) => {
            let number = token.number();
            let _ = aside.keep(token);
            Ok(number)
        }
        Err(fault) => Err(fault.number()),
    }
}

#[test]
fn tokens(rt: HostRuntime) {
    let mut spans = [Span::default(); 1];
    let mut methods = [Method::default(); 1];
    let mut others = [Span::default(); 1];
    let mut their_methods = methods;
    let mut layer = TrialLayer::new(FlatStore::new(&mut spans, &mut methods));
    let mut aside = TrialLayer::new(FlatStore::new(&mut others, &mut their_methods));
    assert_eq!(rt; kept(&mut layer, 0), None);
    assert_eq!(rt; kept(&mut layer, 1), Some(Err(29)));
    assert_eq!(rt; put_back_by(&mut layer, 1), Some(Err((29, 1))));
    assert_eq!(rt; opened(&mut layer, &mut aside), Ok(1));
    assert_eq!(rt; opened(&mut layer, &mut aside), Err(27));
    assert_eq!(rt; kept(&mut layer, 1), Some(Ok(())));
    assert_eq!(rt; opened(&mut layer, &mut aside), Ok(2));
    assert_eq!(rt; kept(&mut layer, 1), Some(Err(29)));
    assert_eq!(rt; kept(&mut layer, 3), Some(Err(29)));
    assert_eq!(rt; put_back_by(&mut layer, 1), Some(Err((29, 1))));
    assert_eq!(rt; put_back_by(&mut layer, 3), Some(Err((29, 3))));
    assert_eq!(rt; put_back_by(&mut layer, 2), Some(Ok(())));
}
