//! Steps that several files and sinks share.
ghost use Rattle.std.specs.Prelude.{◌≡◌, ◌≤◌, ◌↔◌, ◌-◌, ◌++◌, IsTrue, Contains, length, min, take, drop};
ghost use Rattle.outside.specs.Causes.{count_up};
ghost use Rattle.outside.specs.Outside.{IsBytes};

// Raises a count, which stops at the last number of its type.
pub(crate) fn count_up(count: &mut u64)
    ensures counted { count.new ≡ count_up count.old }
    ensures rises { count.old ≤ count.new }
{
    *count = count.saturating_add(1);
}

// Whether a call is among those that are to fail.
pub(crate) fn is_to_fail(fails: &[u64], call: u64) -> bool
    ensures { IsTrue result ↔ Contains fails.now call }
{
    fails.contains(&call)
}

// Copies bytes from `at` on into the front of the buffer, as many as both allow, and gives how many.
pub(crate) fn copy_from(bytes: &[u8], at: u64, buf: &mut [u8]) -> usize
    ensures count { result ≡ min (length buf.old) (length bytes.now - at) }
    ensures copied { buf.new ≡ take result (drop at bytes.now) ++ drop result buf.old }
    ensures are { IsBytes bytes.now }
{
    let start = (at as usize).min(bytes.len());
    let count = buf.len().min(bytes.len() - start);
    buf[..count].copy_from_slice(&bytes[start..start + count]);
    count
}
