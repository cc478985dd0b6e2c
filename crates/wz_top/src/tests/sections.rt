//! Sections that many modules of the tables have.

/// Types: nothing in, nothing out.
pub const TYPES: &[u8] = b"\x01\x04\x01\x60\0\0";

/// One import, a function.
pub const IMPORT: &[u8] = b"\x02\x07\x01\x01e\x01h\0\0";

/// One, two and three functions of that type.
pub const FUNCTION: &[u8] = b"\x03\x02\x01\0";

pub const FUNCTIONS: &[u8] = b"\x03\x03\x02\0\0";

pub const THREE_FUNCTIONS: &[u8] = b"\x03\x04\x03\0\0\0";

/// A table with room for one function.
pub const TABLE: &[u8] = b"\x04\x04\x01\x70\0\x01";

/// A memory of one page.
pub const PAGE: &[u8] = b"\x05\x03\x01\0\x01";

/// A global that starts at 0, and at 42.
pub const GLOBAL: &[u8] = b"\x06\x06\x01\x7F\x01\x41\0\x0B";

pub const GLOBAL_AFTER: &[u8] = b"\x06\x06\x01\x7F\x01\x41\x2A\x0B";

/// Exports: function 0 as the initialisation, function 1 as it, and none.
pub const EXPORT: &[u8] = b"\x07\x14\x01\x10wizer.initialize\0\0";

pub const SECOND_EXPORT: &[u8] = b"\x07\x14\x01\x10wizer.initialize\0\x01";

pub const NO_EXPORT: &[u8] = b"\x07\x01\0";

/// Sets the global to 42.
pub const CODE: &[u8] = b"\x0A\x08\x01\x06\0\x41\x2A\x24\0\x0B";

/// A body that does nothing, and three of them.
pub const EMPTY_CODE: &[u8] = b"\x0A\x04\x01\x02\0\x0B";

pub const THREE_EMPTY: &[u8] = b"\x0A\x0A\x03\x02\0\x0B\x02\0\x0B\x02\0\x0B";

/// A custom section.
pub const CUSTOM: &[u8] = b"\0\x02\x01a";

/// The same, its size in two bytes.
pub const PADDED_CUSTOM: &[u8] = b"\0\x82\0\x01a";

/// A memory that grows by a page and takes 255 at its last byte, as input and as output.
pub const GROWING_INPUT: &[&[u8]] = &[
    TYPES,
    FUNCTION,
    b"\x05\x04\x01\x01\x01\x02",
    EXPORT,
    GROWING_CODE,
];

pub const GROWING_OUTPUT: &[&[u8]] = &[
    TYPES,
    FUNCTION,
    b"\x05\x04\x01\x01\x02\x02",
    NO_EXPORT,
    GROWING_CODE,
    b"\x0B\x09\x01\0\x41\xFF\xFF\x07\x0B\x01\xFF",
];

const GROWING_CODE: &[u8] =
    b"\x0A\x13\x01\x11\0\x41\x01\x40\0\x1A\x41\xFF\xFF\x07\x41\xFF\x01\x3A\0\0\x0B";

/// An initialisation, function 1, that does nothing. Function 2 calls the import, grows the memory
/// by a page and copies the passive segment into it.
pub const COPYING_INPUT: &[&[u8]] = &[
    TYPES,
    IMPORT,
    FUNCTIONS,
    PAGE,
    b"\x07\x1C\x03\x10wizer.initialize\0\x01\x01f\0\x02\x01m\x02\0",
    b"\x0C\x01\x02",
    COPYING_CODE,
    b"\x0B\x0B\x02\0\x41\0\x0B\x01\0\x01\x02\xAB\xCD",
];

pub const COPYING_OUTPUT: &[&[u8]] = &[
    TYPES,
    IMPORT,
    FUNCTIONS,
    PAGE,
    b"\x07\x09\x02\x01f\0\x02\x01m\x02\0",
    b"\x0C\x01\x02",
    COPYING_CODE,
    b"\x0B\x07\x02\x01\0\x01\x02\xAB\xCD",
];

const COPYING_CODE: &[u8] =
    b"\x0A\x18\x02\x02\0\x0B\x13\0\x10\0\x41\x01\x40\0\x1A\x41\0\x41\0\x41\x02\xFC\x08\x01\0\x0B";

/// An initialisation, function 1, that grows the memory by a page, stores 5 at 0 and drops the
/// passive segment. Function 2 calls the import with its argument and adds the byte at 0 to what
/// it gives, function 3 grows the memory by its argument, function 4 adds its argument to itself,
/// and function 5 copies a byte of the segment.
pub const ASKING_INPUT: &[&[u8]] = &[
    ASKING_TYPES,
    b"\x02\x07\x01\x01e\x01h\0\x01",
    ASKING_FUNCTIONS,
    b"\x05\x04\x01\x01\x01\x03",
    b"\x07\x2C\x07\x10wizer.initialize\0\x01\
\x01h\0\0\x01a\0\x02\x01g\0\x03\x01s\0\x04\x01c\0\x05\x01m\x02\0",
    b"\x0C\x01\x01",
    ASKING_CODE,
    b"\x0B\x05\x01\x01\x02\xAB\xCD",
];

pub const ASKING_OUTPUT: &[&[u8]] = &[
    ASKING_TYPES,
    b"\x02\x07\x01\x01e\x01h\0\x01",
    ASKING_FUNCTIONS,
    b"\x05\x04\x01\x01\x02\x03",
    b"\x07\x19\x06\x01h\0\0\x01a\0\x02\x01g\0\x03\x01s\0\x04\x01c\0\x05\x01m\x02\0",
    b"\x0C\x01\x02",
    ASKING_CODE,
    b"\x0B\x09\x02\x01\0\0\x41\0\x0B\x01\x05",
];

const ASKING_TYPES: &[u8] = b"\x01\x0E\x03\x60\0\0\x60\x01\x7F\x01\x7F\x60\x01\x7C\x01\x7C";

const ASKING_FUNCTIONS: &[u8] = b"\x03\x06\x05\0\x01\x01\x02\0";

const ASKING_CODE: &[u8] = b"\x0A\x3C\x05\
\x11\0\x41\x01\x40\0\x1A\x41\0\x41\x05\x3A\0\0\xFC\x09\0\x0B\
\x0C\0\x20\0\x10\0\x41\0\x2D\0\0\x6A\x0B\x06\0\x20\0\x40\0\x0B\
\x07\0\x20\0\x20\0\xA0\x0B\x0C\0\x41\0\x41\0\x41\x01\xFC\x08\0\0\x0B";

/// An initialisation, function 0, that does nothing. Function 1 sets the entry of its argument to
/// function 0, which nothing else declares then; function 2 fills two entries from its argument on
/// with function 1, function 3 copies the first two to there, and function 4 those of the passive
/// segment, functions 2 and 3; function 5 grows the table by its argument, with nulls, and
/// function 6 gives the entry of its argument.
pub const TABLES_INPUT: &[&[u8]] = &[
    TABLES_TYPES,
    TABLES_FUNCTIONS,
    FOUR_ENTRIES,
    b"\x07\x2C\x07\x10wizer.initialize\0\0\
\x01s\0\x01\x01f\0\x02\x01c\0\x03\x01i\0\x04\x01g\0\x05\x01e\0\x06",
    b"\x09\x06\x01\x01\0\x02\x02\x03",
    TABLES_CODE,
];

pub const TABLES_OUTPUT: &[&[u8]] = &[
    TABLES_TYPES,
    TABLES_FUNCTIONS,
    FOUR_ENTRIES,
    b"\x07\x19\x06\x01s\0\x01\x01f\0\x02\x01c\0\x03\x01i\0\x04\x01g\0\x05\x01e\0\x06",
    b"\x09\x0A\x02\x01\0\x02\x02\x03\x03\0\x01\0",
    TABLES_CODE,
];

const TABLES_TYPES: &[u8] =
    b"\x01\x12\x04\x60\0\0\x60\x01\x7F\0\x60\x01\x7F\x01\x7F\x60\x01\x7F\x01\x70";

const TABLES_FUNCTIONS: &[u8] = b"\x03\x08\x07\0\x01\x01\x01\x01\x02\x03";

const FOUR_ENTRIES: &[u8] = b"\x04\x05\x01\x70\x01\x04\x05";

const TABLES_CODE: &[u8] = b"\x0A\x44\x07\x02\0\x0B\x08\0\x20\0\xD2\0\x26\0\x0B\
\x0B\0\x20\0\xD2\x01\x41\x02\xFC\x11\0\x0B\x0C\0\x20\0\x41\0\x41\x02\xFC\x0E\0\0\x0B\
\x0C\0\x20\0\x41\0\x41\x02\xFC\x0C\0\0\x0B\x09\0\xD0\x70\x20\0\xFC\x0F\0\x0B\
\x06\0\x20\0\x25\0\x0B";
