use crate::Address;

#[derive(Debug)]
/// What an operand address of an instruction names.
#[derive(Clone, Copy, PartialEq, Eq)]
pub enum Place {
    /// A word of memory.
    Memory(Address),
    /// The product-quotient register.
    Pq,
    /// A word of memory that STO fills with the HOP saver; reading treats it as memory.
    Saver(Address),
}
