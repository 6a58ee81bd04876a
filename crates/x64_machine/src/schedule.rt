//! Which core takes a step when, and what a step answers.

/// The order in which the cores take their steps.
#[derive(Clone, Copy, Debug)]
pub enum Schedule<'a> {
    /// An entry for each byte: the number of a core. An entry that names no running core does nothing.
    Bytes(&'a [u8]),
    /// So many entries; entry j of them is core j modulo the number of cores.
    RoundRobin(u64),
}

/// Whether the run goes on after a step.
#[derive(Clone, Copy, Debug, PartialEq, Eq)]
pub enum Progress {
    /// The run goes on.
    Running,
    /// The run has ended: no further step changes anything.
    Ended,
}
