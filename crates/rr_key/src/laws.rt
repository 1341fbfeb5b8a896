//! The laws of the definitions themselves: functions with empty bodies, whose contracts state them.

ghost use Rattle.std.specs.Prelude.{◌≡◌, ◌↔◌, ℕ, List, ◌++◌, length, take, None, true, false};
ghost use Rattle.std.specs.List.Sorted.{IsPermutation};
ghost use Rattle.std.specs.Map.{keys_of};
ghost use Rattle.rr_text.specs.Bytes.{has_repeat};
ghost use Rattle.rr_key.specs.Making.{Names, series_of, making_fault};
ghost use Rattle.rr_key.specs.Name.{MayFollow};
ghost use Rattle.rr_key.specs.Reading.{is_key_text};
ghost use Rattle.rr_key.specs.Series.{Series, IsSeries, IsKeyText, key_text};
ghost use Rattle.rr_key.specs.Unit.{escape, unescape, name_len};

use crate::class::Class;

/// A name and the units that write it: the name reads back; in a text whose next byte may follow a
/// name, its units are the name that is found there; and the units at the beginning of any text are
/// those that write what they are read as.
pub fn a_name_is_written_in_one_way(class: Class)
    ensures back { (name : List ℕ) → unescape class (escape class name) ≡ name }
    ensures ends { (name rest : List ℕ) → MayFollow class name rest
        → name_len class (escape class name ++ rest) ≡ length (escape class name) }
    ensures units { (text : List ℕ)
        → escape class (unescape class (take (name_len class text) text))
        ≡ take (name_len class text) text }
{}

/// Names without a fault make a series that has a key, whatever the order of their tags.
pub fn tags_stand_in_any_order()
    ensures made { (names : Names) → making_fault names ≡ None → IsSeries (series_of names) }
    ensures moved { (measurement field : List ℕ) (tags others : List (List ℕ × List ℕ))
        → IsPermutation tags others → has_repeat (keys_of tags) ≡ false
        → series_of (record { measurement = measurement; tags = tags; field = field })
        ≡ series_of (record { measurement = measurement; tags = others; field = field }) }
{}

/// One pass over a text decides whether it is a key text.
pub fn key_texts_are_decidable()
    ensures { (text : List ℕ) → (is_key_text text ≡ true) ↔ IsKeyText text }
{}

/// A text is the key text of at most one series: key and text determine each other.
pub fn a_key_text_is_of_one_series()
    ensures { (series other : Series) → IsSeries series → IsSeries other
        → key_text series ≡ key_text other → series ≡ other }
{}
