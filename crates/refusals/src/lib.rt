// The numbers of the refusals, made by tools/refusals from crates/refusals/table.txt. `specs/Refusals` has
// the words of document 01 for each.
#![tactic(auto)]

pub const TEXT_TOO_LONG: u32 = 1;

pub const ILL_FORMED_UTF8: u32 = 2;

pub const NO_NODE_ROW: u32 = 3;

pub const NO_NUMBER_ROW: u32 = 4;

pub const TOO_DEEP: u32 = 5;

pub const NON_ASCII_ROOT: u32 = 7;

pub const NO_ROOT: u32 = 8;

pub const UNKNOWN_NAME: u32 = 9;

pub const NO_HEADER: u32 = 10;

pub const UNKNOWN_HEADER: u32 = 11;

pub const NOT_OPENED: u32 = 12;

pub const NOT_CLOSED: u32 = 13;

pub const NO_X: u32 = 14;

pub const NO_Y: u32 = 15;

pub const NO_Z: u32 = 16;

pub const NO_M: u32 = 17;

pub const NO_CHILD: u32 = 18;

pub const UNSUPPORTED_NAME: u32 = 19;

pub const EMPTY_WITHOUT_SPACE: u32 = 20;

pub const NEITHER_PAREN_NOR_EMPTY: u32 = 21;

pub const ILL_FORMED_STORE: u32 = 22;

pub const NO_ROOM: u32 = 23;

pub const NON_ASCII: u32 = 24;

pub const FAULTY_FIELD: u32 = 25;

pub const UNKNOWN_VERSION: u32 = 26;

pub const DOES_NOT_FIT: u32 = 27;

pub const NOTHING_AFTER_PLUS: u32 = 28;

pub const NUMBER_GOES_WRONG: u32 = 29;

pub const NO_FINITE_NUMBER: u32 = 30;

pub const NUMBER_TOO_LARGE: u32 = 31;
