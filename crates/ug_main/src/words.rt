use std::env::FillError;
use std::rt::Env;

/// The words and the environment without the program's own name, which is the path of any folder:
/// what it is made of must not matter.
#[derive(Drop)]
pub struct Behind<'a, R>(pub &'a R);

impl<R: Env> Env for Behind<'_, R> {
    fn arg(&self, i: usize, buf: &mut [u8]) -> Result<usize, FillError> {
        self.0.arg(i.saturating_add(1), buf)
    }

    fn var(&self, name: &str, buf: &mut [u8]) -> Result<usize, FillError> {
        self.0.var(name, buf)
    }

    fn var_at(&self, i: usize, buf: &mut [u8]) -> Result<usize, FillError> {
        self.0.var_at(i, buf)
    }
}
