//! The faults of paths.

/// Why a path is refused. Every fault is answered as OBJECT_NAME_INVALID.
#[derive(Clone, Copy)]
pub enum NameFault {
    /// The path has no `\` at its start, or a component has no unit.
    Empty,
    /// The path has more than 32,760 units, or a component more than 255.
    TooLong,
    /// The unit at this place, counted in the path from 0, is one that no component has; or a
    /// component that begins there is `.` or `..`.
    BadUnit(usize),
    /// The stream part has more than two parts, its stream's name is empty with no `$DATA` after
    /// it, too long or has a unit that is 0 or `/`, or its type isn't `$DATA`.
    BadStream,
}
