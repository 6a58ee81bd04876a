//! The gates: what happens where a core's program counter is a gate's address.
//!
//! [`gate_step`] is the gate step, exactly as the function `gate_step` of `cv_word`'s specs says, over the registers of a core, the
//! memory, the gates' [`World`] and the releasers of all classes. It takes no memory but what a releaser takes itself.
//!
//! The model's releasers answer from tapes. A step is the model's on every tape that begins with what a releaser told during it.
//! What each releaser has heard and told, and what the audit lists, has grown by exactly that (`Plays`). A step ends with `Tape`
//! only where the releaser that it asked has counted a fault and kept the length asked: it is then the model's on every tape that
//! has too little for that request. With any other end each count of faults is as before.
#![tactic(auto)]

mod end;
mod gate;
mod output;
mod refusal;
mod release;
#[cfg(test)]
mod tests;
mod work;
mod world;

pub use cv_word::FaultKind;
pub use end::GateEnd;
pub use gate::gate_step;
pub use world::World;
