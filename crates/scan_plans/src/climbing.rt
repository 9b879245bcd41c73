// Numbers that are offsets, tested and read at once.
ghost use Rattle.std.specs.Prelude.{◌≡◌, IfOk, IfSome, map, pos, true, unsigned_abs};
ghost use Rattle.scan_values.specs.Val.{int_val};
ghost use Rattle.scan_plans.specs.OffsetReads.{Climbs};

use scan_columns::Column;
use scan_values::NoMemory;
use std::alloc::{AllocError, Global};

/// Whether no number is below 0 nor below the one before it, and the last is not past the greatest, without a way out.
fn climbs(most: u64, numbers: &[i64]) -> bool
    ensures { result ≡ true →
        (map pos (map unsigned_abs numbers.now) ≡ numbers.now) × Climbs most 0 (map unsigned_abs numbers.now) }
{
    let mut good = true;
    let mut before = 0;
    for number in numbers {
        good &= before <= *number;
        before = *number;
    }
    good & (before.unsigned_abs() <= most)
}

/// The numbers without their signs.
fn unsigned(alloc: Global, numbers: &[i64]) -> Result<Vec<u64>, AllocError>
    ensures { IfOk result (λ v. v.items ≡ map unsigned_abs numbers.now) }
{
    numbers.iter().map(|n| n.unsigned_abs()).collect(alloc)
}

/// The offsets that numbers are, where they climb up to a greatest one.
fn climbing(alloc: Global, most: u64, numbers: &[i64]) -> Result<Option<Vec<u64>>, NoMemory>
    ensures { IfOk result (λ o. IfSome o (λ v. (map pos v.items ≡ numbers.now) × Climbs most 0 v.items)) }
{
    if !climbs(most, numbers) {
        return Ok(None);
    }
    Ok(Some(unsigned(alloc, numbers)?))
}

/// The offsets that the values of a column are, where they are numbers that climb up to a greatest one.
pub(crate) fn climbing_column(
    alloc: Global,
    most: u64,
    column: &Column,
) -> Result<Option<Vec<u64>>, NoMemory>
    ensures { IfOk result (λ o. IfSome o (λ v.
        (map int_val (map pos v.items) ≡ column.now.items) × Climbs most 0 v.items)) }
{
    match column.numbers() {
        Some(numbers) => climbing(alloc, most, numbers),
        None => Ok(None),
    }
}
