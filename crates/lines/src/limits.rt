// What the console has and lends.

// How many controllers there are.
pub const CONTROLLERS: usize = 16;

// The longest line.
pub const LINE_MAX: usize = 262144;

// The longest output that is lent.
pub const OUT_MAX: usize = 1048576;

// The longest store that is lent.
pub const BUFFER_MAX: usize = 70000;

// The most bytes that the fields of a line stand for: a dot of three bytes and the mark after it make nine.
pub const ARGUMENTS_MAX: usize = LINE_MAX / 4 * 9;

// What every byte of an output is before a call.
pub const OUT_FILL: u8 = 0xEE;
