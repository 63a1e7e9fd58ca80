//! Times that are asked for.

ghost use Rattle.std.specs.Prelude.{◌≡◌};
ghost use Rattle.fsa_model.specs.SetBasic.{change_set, is_kept, is_left, is_no_time, time_set};

use volume_state::Volume;

// The first value that is no time, 2^63.
const FIRST_NO_TIME: u64 = 0x8000_0000_0000_0000;

// The two values that leave a time, after [MS-FSCC] 'FileBasicInformation': after -1 the requests of the handle move it
// no more, and after -2 they do again. Here they differ in nothing.
// -1
const MOVE_NO_MORE: u64 = 0xFFFF_FFFF_FFFF_FFFF;

// -2
const MOVE_AGAIN: u64 = 0xFFFF_FFFF_FFFF_FFFE;

// Whether it is one of the two values that leave a time.
fn is_kept(time: u64) -> bool
    ensures { result ≡ is_kept time }
{
    time == MOVE_NO_MORE || time == MOVE_AGAIN
}

/// Whether it is no time, and doesn't leave one.
pub fn is_no_time(time: u64) -> bool
    ensures { result ≡ is_no_time time }
{
    time >= FIRST_NO_TIME && !is_kept(time)
}

/// Whether it leaves a time other than that of the last change.
pub fn is_left(time: u64) -> bool
    ensures { result ≡ is_left time }
{
    time == 0 || is_kept(time)
}

/// The time that is set, where it was `old`.
pub fn time_set(asked: u64, old: u64) -> u64
    ensures { result ≡ time_set asked old }
{
    if is_left(asked) { old } else { asked }
}

/// The time of the last change that is set, where it was `old`: 0 sets it to the clock.
pub fn change_set(volume: &Volume, asked: u64, old: u64) -> u64
    ensures { result ≡ change_set volume.now.content asked old }
{
    if asked == 0 {
        volume.clock()
    } else {
        time_set(asked, old)
    }
}
