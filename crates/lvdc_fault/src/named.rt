use crate::Script;
use lvdc_word::Seq;

/// A script with a name, one of many that a program is run under.
#[derive(Drop)]
pub struct Named {
    pub name: Seq<u8>,
    pub script: Script,
}
