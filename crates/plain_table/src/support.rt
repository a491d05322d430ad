//! The columns in which a line has a number that is not 0.
ghost use Rattle.std.specs.Prelude.{◌≡◌, ◌<◌, ◌≤◌, ◌^◌, length, take};
ghost use Rattle.plain_table.specs.Inner.Lines.{IsSupport};

use exact_frac::Frac;

/// Puts the columns in which the line has a number that is not 0 to the front of `out`, in rising order. How many there
/// are.
pub fn find_support(line: &[Frac], out: &mut [u32]) -> usize
    requires count { length out.old ≡ length line.now }
    requires few { length line.now < 2 ^ 32 }
    ensures count { result ≤ length out.new }
    ensures support { IsSupport line.now (take result out.new) }
{
    let mut count = 0;
    for j in 0..line.len() {
        if line[j].is_zero() {
            continue;
        }
        out[count] = j as u32;
        count += 1;
    }
    count
}
