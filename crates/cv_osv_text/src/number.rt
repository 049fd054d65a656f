//! Numbers of JSON as serde_json reads them, by the same scanner of numerals.
ghost use Rattle.std.specs.Prelude.{◌≡◌, ◌<◌, ◌==◌, length, slice_index, option_map, IsTrue, true, false};
ghost use Rattle.std.specs.Option.{option_and_then};
ghost use Rattle.serde_json.specs.Find.{as_number, as_u64};
ghost use Rattle.serde_json.specs.Read.{float_of, number_from, number_of};
ghost use Rattle.serde_json.specs.View.{number_view};
ghost use Rattle.cv_osv_text.specs.Tree.{number_or};

use fast_float::Numeral;
use serde_json::Number;

/// The number that a text of a tree is, if serde_json has it in range.
pub(crate) fn read_number(text: &str) -> Option<Number>
    ensures { option_map number_view result ≡ number_of text.now }
{
    let bytes = text.as_bytes();
    if has_minus(bytes) {
        read_negative(&Numeral::scan(&bytes[1..]))
    } else {
        read_unsigned(&Numeral::scan(bytes))
    }
}

/// The whole number from 0 to 2^64 - 1 that a text of a tree is, if it is one. A number that is out of range counts as 0.
pub(crate) fn read_whole(text: &str) -> Option<u64>
    ensures { result ≡ option_and_then as_u64 (as_number (number_or (number_of text.now))) }
{
    match read_number(text) {
        Some(number) => number.as_u64(),
        None => Some(0),
    }
}

fn has_minus(bytes: &[u8]) -> bool
    ensures value { result ≡ (slice_index bytes.now 0 == 45) }
    ensures len { IsTrue result → 0 < length bytes.now }
{
    !bytes.is_empty() && bytes[0] == b'-'
}

fn read_unsigned(numeral: &Numeral<'_>) -> Option<Number>
    ensures { option_map number_view result ≡ number_from false numeral.now }
{
    match numeral.to_u64() {
        Some(number) => Some(Number::from(number)),
        None => read_float(false, numeral),
    }
}

fn read_negative(numeral: &Numeral<'_>) -> Option<Number>
    ensures { option_map number_view result ≡ number_from true numeral.now }
{
    if let Some(number) = numeral.to_i64(true) {
        if number < 0 {
            return Some(Number::from(number));
        }
    }
    read_float(true, numeral)
}

fn read_float(is_negative: bool, numeral: &Numeral<'_>) -> Option<Number>
    ensures { option_map number_view result ≡ float_of is_negative numeral.now }
{
    Number::from_f64(numeral.to_float::<f64>(is_negative))
}
