ghost use Rattle.std.specs.Prelude.{◌≡◌};
ghost use Rattle.ug_print.specs.Lines.{memory_line, read_fault_line};

/// The line where the source failed. It takes no memory.
pub fn read_fault() -> &'static [u8]
    ensures { result.now ≡ read_fault_line }
{
    b"read fault\n"
}

/// The line where memory was refused. It takes none.
pub fn memory() -> &'static [u8]
    ensures { result.now ≡ memory_line }
{
    b"memory\n"
}
