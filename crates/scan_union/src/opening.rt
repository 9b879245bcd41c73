//! The opening of all files under a dtype.
ghost use Rattle.std.specs.Prelude.{◌≡◌, ◌<◌, ◌+◌, ◌^◌, IfOk, IfErr};
ghost use Rattle.scan_opener.specs.Opener.{Given};
ghost use Rattle.scan_widened.specs.Faults.{PolledToEnd};
ghost use Rattle.scan_union.specs.Opens.{OpensFile, IsFileStop, rows_under};
ghost use Rattle.scan_union.specs.Seats.{IsOpenFault, OpensFront, Seated};

use crate::fault::{UnionFault, of_file};
use crate::seat::{Seat, seat_of};
use scan_multi::{LayoutReaderFactory, ScanFile};
use scan_segments::SegmentSource;
use scan_values::DType;
use scan_widen::UnionLayout;
use scan_widened::open_under;
use std::alloc::Global;
use std::ops::Range;

fn rows_of(under: &Option<UnionLayout>) -> u64
    ensures { result ≡ rows_under under.now }
{
    match under {
        Some(under) => under.root.row_count(),
        None => 0,
    }
}

// Opens the file at a place, before whose rows are so many; gives its seat, and the rows with its own.
fn open_file<O: LayoutReaderFactory>(
    alloc: Global,
    dtype: &DType,
    range: &Option<Range<u64>>,
    place: usize,
    before: u64,
    opener: &mut O,
) -> Result<(Seat, u64), UnionFault>
    ensures polls { PolledToEnd (O.opener opener.old) (O.opener opener.new) }
    ensures ok { IfOk result (λ r. OpensFile dtype.now range.now place before (O.opener opener.old) r.0 r.1) }
    ensures err { IfErr result (IsFileStop dtype.now range.now place before (O.opener opener.old) (O.opener opener.new)) }
{
    match open_under(alloc, dtype, range, before, opener) {
        Ok(under) => {
            let rows = before + rows_of(&under);
            Ok((seat_of(alloc, place, under)?, rows))
        }
        Err(fault) => Err(of_file(place, fault)),
    }
}

/// Opens all files in listed order, each to its end, and checks what each gives.
pub(crate) fn open_files<O: LayoutReaderFactory, S: SegmentSource>(
    alloc: Global,
    dtype: &DType,
    range: &Option<Range<u64>>,
    files: &mut Vec<ScanFile<O, S>>,
) -> Result<Vec<Seat>, UnionFault>
    ensures front { OpensFront O.opener S.state files.old.items files.new.items }
    ensures ok { IfOk result (λ seats. Seated O.opener S.state dtype.now range.now files.old.items files.new.items seats.items) }
    ensures err { IfErr result (IsOpenFault O.opener S.state dtype.now range.now files.old.items files.new.items) }
{
    let mut seats = Vec::with_capacity(alloc, files.len())?;
    let mut rows: u64 = 0;
    for place in 0..files.len() {
        let file = &mut files[place];
        let (seat, sum) = open_file(alloc, dtype, range, place, rows, &mut file.opener)?;
        rows = sum;
        seats.push(seat)?;
    }
    Ok(seats)
}
