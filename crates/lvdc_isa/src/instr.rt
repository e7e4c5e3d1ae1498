use crate::Op;

#[derive(Debug)]
/// An instruction: an operation and the nine bits of its address, 000 to 777 octal.
#[derive(Clone, Copy, PartialEq, Eq)]
pub struct Instr {
    pub op: Op,
    pub address: u16,
}
