//! One number for a client and one of its calls.

ghost use Rattle.std.specs.Prelude.{◌≡◌, ◌+◌, ◌*◌, ◌^◌};
ghost use Rattle.volume_tables.specs.CallKey.{call_key_of};

/// One number for a client and one of its calls. It tells both, and rises with the numbers of a client's calls.
pub fn call_key_of(client: u32, number: u32) -> u64
    ensures { result ≡ call_key_of client number }
{
    client as u64 * 4_294_967_296 + number as u64
}
