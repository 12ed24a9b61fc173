/// A file that was read.
#[derive(Drop)]
pub(crate) struct Reading {
    pub(crate) name: Vec<u8>,
    pub(crate) bytes: Vec<u8>,
}
