/// A name, and the bytes that it holds.
#[derive(Drop)]
pub(crate) struct MemFile {
    pub(crate) name: String,
    pub(crate) held: Vec<u8>,
}
