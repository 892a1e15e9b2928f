// A piece of a trace: up to 256 records, each on a line.
ghost use Rattle.std.specs.Prelude.{◌≡◌, ◌≤◌, length};
ghost use Rattle.print.specs.Put.{Put};
ghost use Rattle.transcript.specs.Piece.{piece_text, piece_tally};

use crate::record::put_record;
use crate::summary::Tally;
use trace::{RECORD_BYTES, next_at};

pub const PIECE_BYTES: usize = 4096;

// Room for the lines of every piece.
pub const ROOM_BYTES: usize = 65536;

// The place after the lines, and the records counted.
#[derive(Clone, Copy)]
pub struct Written {
    pub end: usize,
    pub tally: Tally,
}

// The lines of a piece, given its answer records; the records before it are counted.
pub fn put_piece(out: &mut [u8], tally: Tally, trace: &[u8], answers: &[u8]) -> Written
    requires trace_len_bound { (length trace.now ≤ 4096) × (4096 ≤ length answers.now) }
    requires answers_in_bounds { length (piece_text tally trace.now answers.now) ≤ length out.old }
    ensures put { Put out.old 0 (piece_text tally trace.now answers.now) out.new result.end }
    ensures tally_value { result.tally ≡ piece_tally tally trace.now answers.now }
{
    let mut after = tally;
    let mut to = 0;
    for at in (0..trace.len()).step_by(RECORD_BYTES) {
        let end = next_at(trace, at);
        after.count(le::get::<1>(answers, at + 1));
        to = put_record(
            out,
            to,
            after.records,
            &trace[at..end],
            &answers[at..at + RECORD_BYTES],
        );
    }
    Written {
        end: to,
        tally: after,
    }
}
