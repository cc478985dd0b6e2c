//! What a machine asks of its surroundings, and how these answer (Core Specification 2.0,
//! sections 4.3.3, 4.4.6, 4.4.7 and 4.4.10).

use wz_code::NumOp;
use wz_types::{Value, Values};

/// The function of the host that is called: the module's import of this number, or the one that a
/// foreign reference with this number refers to.
#[derive(Clone, Copy, Debug, PartialEq, Eq)]
pub enum HostTarget {
    Import(u32),
    Foreign(u32),
}

/// The growth that is asked for: of which memory by how many pages, or of which table by how many
/// entries.
#[derive(Clone, Copy, Debug, PartialEq, Eq)]
pub enum Growth {
    Memory { index: u32, by: u32 },
    Table { index: u32, by: u32 },
}

/// What a machine waits for: the result of a float operation, growth within its limits, or what a
/// function of the host gives. Operands and arguments stand in the order of pushing.
#[derive(Drop)]
pub enum Ask {
    Float { op: NumOp, operands: Values },
    Grow(Growth),
    Host { target: HostTarget, args: Values },
}

/// The answer to a float operation: its result, or a trap.
#[derive(Clone, Copy, Debug, PartialEq, Eq)]
pub enum FloatReply {
    Gives(Value),
    Trap,
}
