//! A tree is walked beside the places of its parts: the place of what is looked at is the first of a list.
ghost use Rattle.std.specs.Prelude.{◌≡◌, IfOk, drop};
ghost use Rattle.sql_check.specs.Walk as walk;

use sql_grammar::Places;

/// The byte at which the first begins; 0 where there is none.
#[tactic(auto, using(crate::proofs::PlaceForms::start_is))]
pub fn start(places: &[Places]) -> u32
    ensures { result ≡ walk.start places.now }
{
    match places {
        [Places::At(byte, _), ..] => *byte,
        [] => 0,
    }
}

/// The places of the parts of one.
pub fn parts(place: &Places) -> &[Places]
    ensures { result.now ≡ walk.parts_of place.now }
{
    match place {
        Places::At(_, parts) => parts.as_slice(),
    }
}

/// The places of the parts of the first.
pub fn inner(places: &[Places]) -> &[Places]
    ensures { result.now ≡ walk.inner places.now }
{
    match places.split_first() {
        Some((first, _)) => parts(first),
        None => places,
    }
}

/// The places behind the first.
pub fn rest(places: &[Places]) -> &[Places]
    ensures { result.now ≡ walk.rest places.now }
{
    match places {
        [_, more @ ..] => more,
        [] => places,
    }
}

/// The places behind so many.
pub fn beyond(count: usize, places: &[Places]) -> &[Places]
    ensures { result.now ≡ drop count places.now }
{
    if count < places.len() {
        &places[count..]
    } else {
        &places[places.len()..]
    }
}
