//! The laws of the definitions themselves: functions with empty bodies, whose contracts state them.

ghost use Rattle.std.specs.Prelude.{◌≡◌, ◌≢◌, ◌↔◌, ℕ, List, Result, Err};
ghost use Rattle.rr_text.specs.Bytes.{HasNoLineFeed};
ghost use Rattle.rr_line.specs.declared.fault.LineFault.{LineFault};
ghost use Rattle.rr_line.specs.declared.fault.LineFault.TheVariants.{Memory};
ghost use Rattle.rr_line.specs.declared.precision.Precision.{Precision};
ghost use Rattle.rr_line.specs.Grammar.{IsLineOf, HasFault, IsPointOf};
ghost use Rattle.rr_point.specs.Key.{HasKeys, IsWritable};
ghost use Rattle.rr_point.specs.Point.{PointView};
ghost use Rattle.rr_line.specs.Line.{LineView, point};
ghost use Rattle.rr_line.specs.Reading.{reading};

/// By the grammar each line does exactly one of three things: it says nothing, it says one point,
/// or it has one fault. Running out of memory is not such a fault.
pub fn a_line_is_one_of_three()
    ensures one { (precision : Precision) (line : List ℕ)
        → (parsed : Result LineView LineFault) × IsLineOf precision line parsed
        × ((other : Result LineView LineFault) → IsLineOf precision line other → other ≡ parsed) }
    ensures takes_no_memory { (precision : Precision) (line : List ℕ) (fault : LineFault)
        → HasFault precision line fault → fault ≢ Memory }
{}

/// The reading and the grammar agree.
pub fn reading_is_the_grammar()
    ensures { (precision : Precision) (line : List ℕ) (parsed : Result LineView LineFault)
        → (reading precision line ≡ parsed) ↔ IsLineOf precision line parsed }
{}

/// Each field of a point has a key: its names are names of a key, its tags differ and are few, and
/// its text is short.
pub fn a_field_of_a_point_has_a_key()
    ensures { (precision : Precision) (line : List ℕ) (p : PointView)
        → HasNoLineFeed line → IsPointOf precision line p → HasKeys p }
{}

/// A point that a line says can be written.
pub fn a_point_of_a_line_is_writable()
    ensures { (precision : Precision) (line : List ℕ) (p : PointView)
        → HasNoLineFeed line → IsPointOf precision line p → IsWritable p }
{}
