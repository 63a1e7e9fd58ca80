//! Reads scripts: the case table and the clients that a volume begins with, and the calls that the
//! clients make, a line each. A script is one or it is refused with its first faulty line.
//!
//! ```text
//! fsa 1
//! client a 7
//! client b 9 10
//! a 1 create =\A.txt 0x3 0x7 create 0x0 0x0 0
//! a 2 write 1 0 x68656c6c6f
//! b 1 create =\a.TXT 0x1 0x7 open 0x0 0x0 0
//! b 2 read 1 0 5
//! ```
//!
//! `read_script(alloc, bytes)` gives the [`Script`] of such bytes: its `clients`, its `table` and
//! its `lines`. Of bytes that are no script it answers [`ReadFault::Bad`] with the first faulty
//! line, counted from 1, and the first kind of its fault: `Cut`, `Syntax`, `Client`, `Number`.
//! `fsa 1\nclient a 7\na 1 flush 01\n` is refused so at line 3, with `Syntax`.
//!
//! It asks nothing of the bytes. It takes time linear in them, and one allocation for each list that
//! the script has, beside two lists with room for as many clients and calls as there are lines.
//!
//! `generate(alloc, seed)` gives the generated script of a seed: 4,096 calls of four clients.
//!
//! Caveats. The verbs are `create`, `close`, `read`, `write`, `flush`, `setend`, `lock`, `unlock`,
//! `oplock`, `ack`, `rename`, `link`, `setdelete`, `query`, `setbasic`, `setsecurity`, `querydir`,
//! `setreparse`, `getreparse`, `deletereparse`, `setquota`, `queryquota`, `cancel`, `tick` and `wait`;
//! another one is `Syntax`. So is an access list of more than 32 entries. The number of requests has no
//! bound here.
//!
//! To add a verb: in the definitions of the lines of its group what its fields say and how they are
//! written, and the verb itself in that group's `.._line`; here a function of the same name and its branch.
#![tactic(auto)]

mod byte_lines;
mod clock_lines;
mod control_lines;
mod dacl;
mod fault;
mod generator;
mod information_lines;
mod law;
mod line;
mod listing_lines;
mod lock_lines;
mod name_lines;
mod names;
mod number;
mod open_lines;
mod oplock_lines;
mod pairs;
mod read;
mod reading;
mod request;
mod script;
mod stage;
mod take;
mod text;
mod wait_lines;
mod word;

pub use fault::{ReadFault, ScriptFault, ScriptKind};
pub use generator::generate;
pub use law::{
    a_generated_script_is_read, a_script_is_read_from_what_spells_it, least_fault, one_reading,
};
pub use read::read_script;
pub use script::Script;
