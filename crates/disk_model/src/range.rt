// Whether a range fits.
ghost use Rattle.std.specs.Prelude.{◌+◌, ◌≤◌, ◌↔◌, IsTrue};

pub fn ends_within(at: u64, count: u64, limit: u64) -> bool
    ensures { IsTrue result ↔ (at + count ≤ limit) }
{
    count <= limit && at <= limit - count
}
