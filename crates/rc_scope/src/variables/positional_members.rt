//! Members of a value, by decimal place.

ghost use Rattle.std.specs.Prelude.{◌≡◌, ◌<◌, ◌≤◌, ◌^◌, MatchOption, length, map, true, Some};
ghost use Rattle.std.specs.List.{list_all};
ghost use Rattle.rc_model.specs.Run.Lists.{member};
ghost use Rattle.rc_model.specs.Run.Numbers.{is_digit, digits_value};
ghost use Rattle.rc_text.specs.Texts.{text_bytes};

use rc_text::Text;

/// Parses digits as a number, or returns none if it is above every length.
#[tactic(auto, using(crate::proofs::Places::place_read))]
fn place_of(digits: &str) -> Option<usize>
    requires digits { list_all is_digit digits.now ≡ true }
    requires some { 0 < length digits.now }
    ensures { MatchOption result (2 ^ 64 ≤ digits_value 0 digits.now) (λ n. n ≡ digits_value 0 digits.now) }
{
    digits.parse().ok()
}

/// The member at the decimal place, counted from 1.
#[tactic(auto, using(crate::proofs::Places::no_member, crate::proofs::Places::one_member))]
pub(crate) fn member<'a>(value: &'a [Text], digits: &str) -> &'a [Text]
    requires digits { list_all is_digit digits.now ≡ true }
    requires some { 0 < length digits.now }
    ensures { map text_bytes result.now ≡ member (map text_bytes value.now) (Some (digits_value 0 digits.now)) }
{
    let count = value.len();
    match place_of(digits) {
        None => &value[..0],
        Some(0) => &value[..0],
        Some(place) => {
            if count < place {
                return &value[..0];
            }
            &value[place - 1..place]
        }
    }
}
