//! The walk over places: their files are opened, and each is to have its row.
ghost use Rattle.std.specs.Prelude.{◌≡◌, ◌<◌, ◌≢◌, ◌∷◌, [], All, OnOk, IfErr, length, true};
ghost use Rattle.scan_opener.specs.Opener.{OpenerState, OpenerFailed};
ghost use Rattle.scan_partition.specs.Partable.{IsPartable};
ghost use Rattle.scan_seek.specs.KeptData.{unopened};
ghost use Rattle.scan_seek.specs.Keeps.{is_open, IsFlawed, IsKept, HasRow};
ghost use Rattle.scan_seek.specs.declared.opening.OpenFault.{OpenFault};
ghost use Rattle.scan_places.specs.Walks.{kept_at, files_of, AreKept, OpensOne, FailsOpening, OpensAt, FailsAt, FailsRow, HasPlaceRow, Walks, Walked, FailsPlace, FailsPlaces};

use crate::fault::PlaceFault;
use crate::place::Place;
use scan_drive::ScanFile;
use scan_expr::BoundExpression;
use scan_opener::LayoutReaderFactory;
use scan_seek::{Kept, OpenFault, RowStanding, open};
use std::alloc::Global;

/// Opens a file, where that is not done.
fn open_one<O: LayoutReaderFactory>(
    alloc: Global,
    projection: &BoundExpression,
    opener: &mut O,
    kept: &mut Kept,
    file: usize,
) -> Result<(), PlaceFault>
    requires parts { IsPartable projection.now }
    requires kept { IsKept projection.now (O.opener opener.old) kept.old }
    ensures opens { OpensOne O.opener projection.now opener.old opener.new kept.old kept.new }
    ensures open { OnOk result (is_open kept.new ≡ true) }
    ensures fault { IfErr result (FailsOpening file (O.opener opener.old) (O.opener opener.new)) }
{
    if kept.is_open() {
        return Ok(());
    }
    match open(alloc, opener, projection) {
        Ok(opened) => {
            *kept = opened;
            Ok(())
        }
        Err(fault) => Err(fault_of(fault, file)),
    }
}

/// Why the file at a place in the list is not opened.
fn fault_of(fault: OpenFault, file: usize) -> PlaceFault
    ensures { (old new : OpenerState) → (fault ≡ OpenFault.Failed → OpenerFailed old new) → FailsOpening file old new result }
{
    match fault {
        OpenFault::Failed => PlaceFault::Opener { file },
        OpenFault::NoMemory => PlaceFault::NoMemory,
    }
}

/// Opens the file at a place in the list, where that is not done.
fn open_at<O: LayoutReaderFactory, S>(
    alloc: Global,
    projection: &BoundExpression,
    files: &mut Vec<ScanFile<O, S>>,
    kept: &mut Vec<Kept>,
    place: usize,
) -> Result<(), PlaceFault>
    requires parts { IsPartable projection.now }
    requires even { length kept.old.items ≡ length files.old.items }
    requires kept { AreKept O.opener projection.now files.old.items kept.old.items }
    requires below { place < length files.old.items }
    ensures opens { OpensAt O.opener projection.now place files.old.items files.new.items kept.old.items kept.new.items }
    ensures open { OnOk result (is_open (kept_at kept.new.items place) ≡ true) }
    ensures fault { IfErr result (FailsAt O.opener place files.old.items files.new.items) }
{
    let file = &mut files[place];
    let own = &mut kept[place];
    open_one(alloc, projection, &mut file.opener, own, place)
}

/// Whether an opened file has the row of the place of a number.
fn check_row(
    projection: &BoundExpression,
    kept: &Kept,
    number: usize,
    place: Place,
) -> Result<(), PlaceFault>
    requires open { kept.now ≢ unopened }
    requires flawed { IsFlawed projection.now.scope kept.now }
    ensures there { OnOk result (HasRow kept.now place.row) }
    ensures fault { IfErr result (FailsRow projection.now.scope number place kept.now) }
{
    let file = place.file;
    match kept.row(projection.scope(), place.row) {
        RowStanding::There => Ok(()),
        RowStanding::Missing => Err(PlaceFault::NoPlace { place: number }),
        RowStanding::OtherDType => Err(PlaceFault::DTypeMismatch { file }),
        RowStanding::IllFormed(fault) => Err(PlaceFault::Layout { file, fault }),
    }
}

/// Opens the file of the place of a number, and looks whether it has the row.
fn walk_one<O: LayoutReaderFactory, S>(
    alloc: Global,
    projection: &BoundExpression,
    files: &mut Vec<ScanFile<O, S>>,
    kept: &mut Vec<Kept>,
    number: usize,
    place: Place,
) -> Result<(), PlaceFault>
    requires parts { IsPartable projection.now }
    requires even { length kept.old.items ≡ length files.old.items }
    requires kept { AreKept O.opener projection.now files.old.items kept.old.items }
    ensures opens { Walks O.opener projection.now (place.file ∷ []) files.old.items files.new.items kept.old.items kept.new.items }
    ensures walked { OnOk result (Walked (place ∷ []) files.old.items files.new.items kept.old.items kept.new.items) }
    ensures fault { IfErr result (FailsPlace O.opener projection.now number place files.old.items files.new.items) }
{
    if place.file >= files.len() {
        return Err(PlaceFault::NoPlace { place: number });
    }
    match open_at(alloc, projection, files, kept, place.file) {
        Ok(()) => check_row(projection, &kept[place.file], number, place),
        Err(fault) => Err(fault),
    }
}

/// Opens the files of places, in order, each where that is not done, by polls of its opener to the end; and looks whether
/// each file has the row. What is kept of the files is as many as these, and is what their openers give. A file that no place
/// names is not touched, and an opener that has answered is not polled.
///
/// # Errors
/// At the first place at which there is no row: `NoPlace` where there is no such file; `Opener` where the opener's count of
/// faults rose in this call; `DTypeMismatch` and then `Layout` where it gives a layout of another dtype, or one that is not
/// well-formed; `NoPlace` where the file was skipped, or has fewer rows. `NoMemory` may come in place of any answer.
pub fn open_places<O: LayoutReaderFactory, S>(
    alloc: Global,
    projection: &BoundExpression,
    files: &mut Vec<ScanFile<O, S>>,
    kept: &mut Vec<Kept>,
    places: &[Place],
) -> Result<(), PlaceFault>
    requires parts { IsPartable projection.now }
    requires even { length kept.old.items ≡ length files.old.items }
    requires kept { AreKept O.opener projection.now files.old.items kept.old.items }
    ensures opens { Walks O.opener projection.now (files_of places.now) files.old.items files.new.items kept.old.items kept.new.items }
    ensures there { OnOk result (All (HasPlaceRow files.new.items kept.new.items) places.now) }
    ensures fault { IfErr result (FailsPlaces O.opener projection.now places.now files.old.items files.new.items) }
{
    for i in 0..places.len() {
        match walk_one(alloc, projection, files, kept, i, places[i]) {
            Ok(()) => {}
            Err(fault) => return Err(fault),
        }
    }
    Ok(())
}
