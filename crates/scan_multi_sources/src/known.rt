//! Estimates of a sum of numbers some of which are known. After the Rust's `scan::multi`.
ghost use Rattle.std.specs.Prelude.{◌≡◌, ◌+◌, ◌<◌, ◌^◌, map};
ghost use Rattle.scan_multi_sources.specs.ChildView.{child_data};
ghost use Rattle.scan_multi_sources.specs.Children.{child_bytes, child_rows};
ghost use Rattle.scan_multi_sources.specs.Known.{add_known, estimate, known_data, known_of};

use crate::child::MultiLayoutChild;
use scan_sources::Precision;

/// The sum of the numbers that are known so far, up to the greatest u64, and how many they are.
#[derive(Clone, Copy)]
pub(crate) struct Known {
    pub total: u64,
    pub count: usize,
}

/// No number is known.
fn none_known() -> Known
    ensures { result ≡ known_data 0 0 }
{
    Known { total: 0, count: 0 }
}

/// What is known with a further number, where that is known.
fn with_number(known: Known, number: Option<u64>) -> Known
    requires { known.count + 1 < 2 ^ 64 }
    ensures { result ≡ add_known known number }
{
    match number {
        Some(number) => Known {
            total: known.total.saturating_add(number),
            count: known.count + 1,
        },
        None => known,
    }
}

/// What is known of the numbers of rows of files.
pub(crate) fn known_rows<O>(children: &[MultiLayoutChild<O>]) -> Known
    ensures { result ≡ known_of (map child_rows (map child_data children.now)) }
{
    let mut known = none_known();
    for child in children {
        known = with_number(known, child.row_count());
    }
    known
}

/// What is known of their numbers of bytes.
pub(crate) fn known_bytes<O>(children: &[MultiLayoutChild<O>]) -> Known
    ensures { result ≡ known_of (map child_bytes (map child_data children.now)) }
{
    let mut known = none_known();
    for child in children {
        known = with_number(known, child.byte_size());
    }
    known
}

/// What is known of the sum of so many numbers.
pub(crate) fn estimate(known: Known, all: usize) -> Precision<u64>
    ensures { result ≡ estimate known.total known.count all }
{
    if known.count == all {
        return Precision::Exact(known.total);
    }
    if known.count == 0 {
        return Precision::Absent;
    }
    let mean = known.total / known.count as u64;
    Precision::Inexact(mean.saturating_mul(all as u64))
}
