//! The laws of packed cells: functions with empty bodies, whose contracts state them.
ghost use Rattle.rr_codec.specs.Laws.{ReadingsAreTexts, TextsAreRead, WhatIsTakenIsChecked};

/// The text of some cells is read as these, whatever follows it. So no text is a prefix of another.
pub fn texts_are_read()
    ensures { TextsAreRead }
{}

/// Bytes that are read as some cells are their text, and what follows it. So there is one text for
/// each span.
pub fn readings_are_texts()
    ensures { ReadingsAreTexts }
{}

/// Bytes that [`check`](crate::check) accepts are read by [`decode`](crate::decode), as cells that
/// are valid in their slots and ascend by slot and origin.
pub fn what_is_taken_is_checked()
    ensures { WhatIsTakenIsChecked }
{}
