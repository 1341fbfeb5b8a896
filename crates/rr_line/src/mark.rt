//! The bytes that mark the value of a field, pinned at the end to their ASCII numbers.

/// Begins and ends a text value.
pub(crate) const QUOTE: u8 = b'"';

/// Ends an integer value.
pub(crate) const INTEGER_MARK: u8 = b'i';

/// Ends an unsigned value.
pub(crate) const UNSIGNED_MARK: u8 = b'u';

/// Precedes the digits of a fraction.
pub(crate) const POINT: u8 = b'.';

/// Precedes an exponent.
pub(crate) const EXPONENT_MARK: u8 = b'e';

/// Precedes an exponent, as `e` does.
pub(crate) const GREAT_EXPONENT_MARK: u8 = b'E';

/// May precede an exponent's digits.
pub(crate) const PLUS: u8 = b'+';

const _: () = prove!(QUOTE == 34);

const _: () = prove!(INTEGER_MARK == 105);

const _: () = prove!(UNSIGNED_MARK == 117);

const _: () = prove!(POINT == 46);

const _: () = prove!(EXPONENT_MARK == 101);

const _: () = prove!(GREAT_EXPONENT_MARK == 69);

const _: () = prove!(PLUS == 43);
