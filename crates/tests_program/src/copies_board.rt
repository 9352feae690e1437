//! Copies: the board on which begun slices stand. Slices begin, and what comes is filed by its ticket. Each call is made once, and all
//! that is told is one text.

use crate::report::{Case, Report};
use lnbd_board::{Ask, Board, Bound, Change, How, Next, Ticket};
use lnbd_callbacks::Caller;
use lnbd_model::{Bytes, Extent};
use lnbd_plan::Slice;
use std::alloc::Global;
use std::test::Fail;

const HOW: How = How {
    block: 512,
    skip: false,
    zeroes: true,
    allocated: true,
};

const SLICE: Slice = Slice {
    start: 4096,
    length: 1024,
    zero: false,
};

fn none(alloc: Global) -> Bytes {
    Bytes::from_vec(Vec::new(alloc))
}

/// What an ask says.
fn push_ask(alloc: Global, text: &mut String, ask: &Ask) -> Result<(), Fail> {
    match ask {
        Ask::Read { offset, buf } => {
            let count = buf.len();
            text.push_str(format!(in alloc; "read {offset} {count}\n")?.as_str())?;
        }
        _ => text.push_str("changes without a read\n")?,
    }
    Ok(())
}

/// What comes next. Where a block is written or zeroed it is answered, so that the slice goes on.
fn push_next(alloc: Global, text: &mut String, board: &mut Board) -> Result<(), Fail> {
    let (line, bytes) = match board.next(alloc)? {
        Next::Nothing => return Ok(text.push_str("nothing\n")?),
        Next::Over {
            slice,
            source,
            destination,
        } => {
            let line = format!(in alloc; "over {slice} from {source} to {destination}\n")?;
            return Ok(text.push_str(line.as_str())?);
        }
        Next::Asks {
            slice,
            destination,
            change: Change::Write { offset, bytes },
        } => {
            let first = match bytes.as_slice().first() {
                Some(first) => *first as usize,
                None => usize::MAX,
            };
            let count = bytes.len();
            let line = format!(in alloc;
                "{slice} to {destination}: write {offset} {count}, first {first}\n"
            )?;
            (line, bytes)
        }
        Next::Asks {
            slice,
            destination,
            change: Change::Zero {
                offset,
                length,
                flags,
            },
        } => {
            let line = format!(in alloc;
                "{slice} to {destination}: zero {offset} {length} flags {flags}\n"
            )?;
            (line, none(alloc))
        }
    };
    text.push_str(line.as_str())?;
    let _verdict = Ticket::Slice(0).complete(board, 0, bytes);
    Ok(())
}

/// A slice of two blocks, the second zero: it is read, one block written and one zeroed, and then it is over.
const COPIED: &str = "read 4096 1024
1 begun
nothing
0 to 3: write 4096 512, first 7
0 to 3: zero 4608 512 flags 2
over 0 from 1 to 3
0 begun
read 1024 written 512 zeroed 512 skipped 1024
";

/// How many slices are begun.
fn push_count(text: &mut String, board: &Board) -> Result<(), Fail> {
    let count = board.count();
    write!(text, "{count} begun\n")?;
    Ok(())
}

/// Begins a slice, and its read is answered.
fn read_one(alloc: Global, text: &mut String, board: &mut Board) -> Result<(), Fail> {
    let first = board.begin(alloc, SLICE, 1, 3)?;
    push_ask(alloc, text, &first)?;
    push_count(text, board)?;
    push_next(alloc, text, board)?;
    let mut bytes = vec![in alloc; 0u8; 1024]?;
    bytes[0] = 7;
    let _verdict = Ticket::Slice(0).complete(board, 0, Bytes::from_vec(bytes));
    Ok(())
}

fn push_sums(text: &mut String, board: &Board) -> Result<(), Fail> {
    let sums = board.summary(2048);
    let (read, written, zeroed, skipped) = (sums.read, sums.written, sums.zeroed, sums.skipped);
    write!(text, "read {read} written {written} ")?;
    write!(text, "zeroed {zeroed} skipped {skipped}\n")?;
    Ok(())
}

fn copy_one(alloc: Global, text: &mut String, board: &mut Board) -> Result<(), Fail> {
    read_one(alloc, text, board)?;
    for _ in 0..3 {
        push_next(alloc, text, board)?;
    }
    push_count(text, board)?;
    push_sums(text, board)
}

/// Which errors came, and what stands as the board's.
static ERRORS: [(u32, u32); 4] = [(5, 5), (28, 5), (71, 71), (5, 71)];

/// Extents are kept for the request that asked for them.
fn report_told(report: &mut Report, case: Case, board: &mut Board) {
    let extents = [Extent {
        length: 512,
        flags: 3,
    }];
    let _heard = Ticket::Extents.extents(board, b"base:allocation", 0, &extents, 0);
    match board.told() {
        [told] => {
            report.number(case, "length", told.length, 512);
            report.number(case, "flags", told.flags, 3);
        }
        _ => report.holds(case, "one extent", false),
    }
}

fn report_mapped(alloc: Global, report: &mut Report, case: Case, board: &mut Board) {
    let _verdict = Ticket::Extents.complete(board, 0, none(alloc));
    report.holds(case, "mapped", board.is_mapped());
    report.holds(case, "whole", !board.is_short());
    board.forget_map();
    report.holds(case, "map forgotten", !board.is_mapped());
}

/// A flush is noted, and an error that came first stands, but that of faulty content, 71, comes before it.
fn report_flushed(alloc: Global, report: &mut Report, case: Case, board: &mut Board) {
    let _verdict = Ticket::Flush.complete(board, 0, none(alloc));
    report.holds(case, "flushed", board.is_flushed());
    for (came, stands) in ERRORS.iter() {
        let _verdict = Ticket::Flush.complete(board, *came, none(alloc));
        let error = board.error().unwrap_or(0);
        report.number(case, "error", error as u64, *stands as u64);
    }
    report.number(case, "begun", board.begun(), 0);
}

fn file(alloc: Global, report: &mut Report, board: &mut Board) {
    let case = Case {
        shows: "what comes is filed",
        run: 0,
    };
    report_told(report, case, board);
    report_mapped(alloc, report, case, board);
    report_flushed(alloc, report, case, board);
}

/// A slice is bound to the connection with the fewest, the lowest of several.
fn bind(alloc: Global, report: &mut Report) -> Result<(), Fail> {
    let case = Case {
        shows: "slices are bound",
        run: 0,
    };
    let mut bound = Bound::new(alloc, 2)?;
    report.number(case, "first", bound.fewest() as u64, 0);
    bound.bind(0);
    report.number(case, "second", bound.fewest() as u64, 1);
    bound.bind(1);
    bound.release(1);
    report.number(case, "third", bound.fewest() as u64, 1);
    Ok(())
}

/// The steps of a copied slice.
fn report_steps(alloc: Global, report: &mut Report) -> Result<(), Fail> {
    let case = Case {
        shows: "a slice is copied",
        run: 0,
    };
    let mut text = String::new(alloc);
    let mut board = Board::new(alloc, HOW);
    let told = copy_one(alloc, &mut text, &mut board);
    board.end();
    told?;
    report.text(case, "steps", text.as_str(), COPIED);
    Ok(())
}

/// What is filed on a board.
fn report_filed(alloc: Global, report: &mut Report) {
    let mut board = Board::new(alloc, HOW);
    file(alloc, report, &mut board);
    board.end();
}

#[test]
fn slices_stand_on_the_board(rt: HostRuntime) -> Result<(), Fail> {
    let alloc = rt.alloc();
    let mut report = Report::new(alloc);
    report_steps(alloc, &mut report)?;
    report_filed(alloc, &mut report);
    bind(alloc, &mut report)?;
    report.settle(&rt);
    Ok(())
}
