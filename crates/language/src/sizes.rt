// The sizes of the console's buffers.

// The memory that is there; a command may lend less of it to the calls.
pub const MEMORY_BYTES: usize = 1048576;

// What is peeked at on one line.
pub const PEEK_BYTES: usize = 1024;

// The room for the answer records of a replay.
pub const REPLAY_BYTES: usize = 2048;

// The room that a page walk may be given for addresses, and for counts.
pub const WALK_BYTES: usize = 65536;

// The numbers of a line, and those of an answer: a line of 4,096 bytes has up to 2,048 words.
pub const NUMBERS: usize = 2048;

// An answer with its LF. The longest is a page walk's: its word, three numbers, and two for each of 257 pages.
pub const ANSWER_BYTES: usize = 16384;
