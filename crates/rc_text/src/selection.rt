//! Members of a value by their places, which are counted from 1.
ghost use Rattle.std.specs.Prelude.{◌≡◌, map, IfOk};
ghost use Rattle.rc_model.specs.Run.Lists.{from_place, front, member, selected, selected_by, up_to};
ghost use Rattle.rc_text.specs.Texts.{text_bytes};

use crate::numbers::number_of;
use crate::texts::Text;
use std::alloc::{AllocError, Global};

/// Selects the members that subscripts `m`, `m-n` and `m-` name, in the order of the subscripts.
pub fn select(alloc: Global, value: &[Text], subscripts: &[Text]) -> Result<Vec<Text>, AllocError>
    ensures { IfOk result (λ members.
        map text_bytes members.items ≡ selected (map text_bytes value.now) (map text_bytes subscripts.now)) }
{
    let mut members = Vec::new(alloc);
    for subscript in subscripts {
        members.extend_with_clones(selected_by(value, subscript.as_str()))?;
    }
    Ok(members)
}

fn selected_by<'a>(value: &'a [Text], subscript: &str) -> &'a [Text]
    ensures { map text_bytes result.now ≡ selected_by (map text_bytes value.now) subscript.now }
{
    match subscript.split_once('-') {
        Some((first, last)) => from_place(front(value, last), number_of(first)),
        None => member(value, number_of(subscript)),
    }
}

fn front<'a>(value: &'a [Text], last: &str) -> &'a [Text]
    ensures { map text_bytes result.now ≡ front (map text_bytes value.now) last.now }
{
    if last.is_empty() {
        value
    } else {
        up_to(value, number_of(last))
    }
}

#[tactic(auto, using(crate::proofs::Places::member_of_front))]
fn member(value: &[Text], place: Option<u32>) -> &[Text]
    ensures { map text_bytes result.now ≡ member (map text_bytes value.now) place }
{
    from_place(up_to(value, place), place)
}

#[tactic(auto, using(crate::proofs::Places::cuts))]
fn up_to(value: &[Text], last: Option<u32>) -> &[Text]
    ensures { map text_bytes result.now ≡ up_to (map text_bytes value.now) last }
{
    match last {
        Some(place) if (place as usize) < value.len() => &value[..place as usize],
        Some(_) => value,
        None => &value[..0],
    }
}

#[tactic(auto, using(crate::proofs::Places::cuts))]
fn from_place(value: &[Text], first: Option<u32>) -> &[Text]
    ensures { map text_bytes result.now ≡ from_place (map text_bytes value.now) first }
{
    match first {
        Some(place) if 0 < place && place as usize <= value.len() => &value[place as usize - 1..],
        _ => &value[..0],
    }
}
