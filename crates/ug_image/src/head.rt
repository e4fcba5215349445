/// What precedes the problem.
#[derive(Clone, Copy)]
pub struct Head {
    pub version: u8,
    pub run: u64,
    pub sequence: u64,
}
