//! A service that looks up rows of files that it keeps open.
ghost use Rattle.std.specs.Prelude.{◌≡◌, IfOk, map};
ghost use Rattle.vortex_scan.specs.Values.Val.{marked};
ghost use Rattle.vortex_scan.specs.Values.Values.{val_of};
ghost use Rattle.vortex_scan.specs.Lookup.Replies.{reply_to};
ghost use Rattle.vortex_scan.specs.Words.{IsLawful, told};

use std::alloc::Global;
use vortex_scan::arrays::Value;
use vortex_scan::scan::lookup::{LookupFault, LookupSession, Place};
use vortex_scan::scan::multi::LayoutReaderFactory;
use vortex_scan::segments::{KeyedSegmentCache, SegmentSource};

/// The values of a session's projection at places of its files, one by one in their order. Over lawful objects they are
/// those of the files' layouts and stores at these rows, and no part of them is damaged; and objects that were lawful
/// are lawful when it is asked again.
pub fn values_at<
    O: LayoutReaderFactory + Drop,
    S: SegmentSource + Drop,
    C: KeyedSegmentCache + Drop,
>(
    alloc: Global,
    session: &mut LookupSession<O, S, C>,
    places: &[Place],
) -> Result<Vec<Value>, LookupFault>
    ensures values { IfOk result (λ values. IsLawful O.opener S.state session.old.files (C.cache session.old.cache) →
        map marked (map val_of values.items) ≡
        reply_to session.old.projection (told O.opener S.state session.old.files) places.now) }
    ensures lawful { IsLawful O.opener S.state session.old.files (C.cache session.old.cache) →
        IsLawful O.opener S.state session.new.files (C.cache session.new.cache) }
{
    let found = session.look_up(alloc, places)?;
    Ok(found.into_vec())
}
