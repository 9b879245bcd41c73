//! A running sum of integers.
ghost use Rattle.std.specs.Prelude.{◌≡◌, ◌<◌, ◌+◌, ◌^◌, ◌+ℤ◌, ◌++◌, List, IfOk, [], ◌∷◌, unsigned_abs};
ghost use Rattle.scan_values.specs.Val.{Val, int_val};
ghost use Rattle.scan_groups.specs.Totals.{IsSum, in_range, netted, no_sum};

use scan_values::NoMemory;

/// A running sum in three parts, and whether there was a value: what an i64 held as values came, and of the values that
/// it had no room for the sums of the positive and of the negative ones, without their signs.
#[derive(Clone, Copy, Debug, PartialEq, Eq)]
pub(crate) struct Sum {
    pub any: bool,
    pub near: i64,
    pub above: u128,
    pub below: u128,
}

/// A sum and one more number. A sum that no u128 holds is refused as want of memory.
fn sum_with(sum: u128, n: u128) -> Result<u128, NoMemory>
    ensures { IfOk result (λ m. m ≡ sum + n) }
{
    match sum.checked_add(n) {
        Some(sum) => Ok(sum),
        None => Err(NoMemory),
    }
}

/// With more than this, 2^65, no i64 makes a sum an i64 or a u64.
const FAR: u128 = 36_893_488_147_419_103_232;

/// A sum that is an i64 or a u64.
fn in_range(sum: i128) -> Option<i128>
    ensures { result ≡ in_range sum }
{
    if sum < -9_223_372_036_854_775_808 || sum > 18_446_744_073_709_551_615 {
        return None;
    }
    Some(sum)
}

impl Sum {
    /// Of no values.
    pub(crate) fn none() -> Sum
        ensures { result ≡ no_sum }
    {
        Sum {
            any: false,
            near: 0,
            above: 0,
            below: 0,
        }
    }

    /// The sum with one more value.
    pub(crate) fn with(self, n: i128) -> Result<Sum, NoMemory>
        ensures near { IfOk result (λ s. s.near ≡ self.near) }
        ensures more { (vs : List Val) → IsSum self vs → IfOk result (λ s. IsSum s (vs ++ int_val n ∷ [])) }
    {
        let part = n.unsigned_abs();
        if n < 0 {
            Ok(Sum {
                any: true,
                near: self.near,
                above: self.above,
                below: sum_with(self.below, part)?,
            })
        } else {
            Ok(Sum {
                any: true,
                near: self.near,
                above: sum_with(self.above, part)?,
                below: self.below,
            })
        }
    }

    /// Takes one more value, for which an i64 has no room.
    #[inline(never)]
    fn add_far(&mut self, n: i64) -> Result<(), NoMemory>
        ensures { (vs : List Val) → IsSum self.old vs → IfOk result (λ _. IsSum self.new (vs ++ int_val n ∷ [])) }
    {
        *self = self.with(i128::from(n))?;
        Ok(())
    }

    /// Takes one more value.
    #[inline(always)]
    pub(crate) fn add(&mut self, n: i64) -> Result<(), NoMemory>
        ensures { (vs : List Val) → IsSum self.old vs → IfOk result (λ _. IsSum self.new (vs ++ int_val n ∷ [])) }
    {
        match self.near.checked_add(n) {
            Some(near) => {
                self.any = true;
                self.near = near;
                Ok(())
            }
            None => self.add_far(n),
        }
    }

    /// Takes one more value, for which an i64 has room.
    #[inline(always)]
    pub(crate) fn add_short(&mut self, n: i64)
        requires { unsigned_abs (self.old.near +ℤ n) < 2 ^ 63 }
        ensures near { self.new.near ≡ self.old.near +ℤ n }
        ensures more { (vs : List Val) → IsSum self.old vs → IsSum self.new (vs ++ int_val n ∷ []) }
    {
        self.any = true;
        self.near += n;
    }

    /// The sum, where it is an i64 or a u64.
    pub(crate) fn value(self) -> Option<i128>
        ensures { result ≡ in_range (netted self) }
    {
        let near = i128::from(self.near);
        if self.above >= self.below {
            let far = self.above - self.below;
            if far > FAR {
                return None;
            }
            return in_range(near + far as i128);
        }
        let far = self.below - self.above;
        if far > FAR {
            return None;
        }
        in_range(near - far as i128)
    }
}
