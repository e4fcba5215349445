/// Why no image is read.
#[derive(Clone, Copy, PartialEq, Eq)]
pub enum ImageError {
    /// Memory ran out.
    Memory,
    /// The bytes spell no image. The first field that is cut short or breaks a rule begins at this
    /// byte; bytes behind a whole image are such a field.
    BadAt { at: usize },
}
