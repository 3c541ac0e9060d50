// Copied to the front of a lent buffer: bytes, or numbers of any other type.
#![tactic(auto)]

ghost use Rattle.std.specs.Prelude.{◌≡◌, ◌++◌, ◌≤◌, length, min, take, drop};

// As many items as both have are copied to the front of `to`; what stands behind them stays. Gives how many.
pub fn put<T: Copy>(from: &[T], to: &mut [T]) -> usize
    ensures count { result ≡ min (length from.now) (length to.old) }
    ensures copied { to.new ≡ take result from.now ++ drop result to.old }
    ensures whole { length from.now ≤ length to.old → to.new ≡ from.now ++ drop (length from.now) to.old }
{
    let count = from.len().min(to.len());
    to[..count].copy_from_slice(&from[..count]);
    count
}
