// Which lines of a script are commands.
ghost use Rattle.std.specs.Prelude.{◌≡◌};
ghost use Rattle.script.specs.Lines.{white, blank, is_command_line};

// Whether a line is a command: a line of nothing but white bytes is none, and neither is a comment, which begins with `#`.
pub fn is_command(line: &[u8]) -> bool
    ensures { result ≡ is_command_line line.now }
{
    if let [b'#', ..] = line {
        return false;
    }
    !is_blank(line)
}

// Whether a line has nothing but white bytes.
fn is_blank(line: &[u8]) -> bool
    ensures { result ≡ blank line.now }
{
    line.iter().all(|byte| is_white(*byte))
}

// Whether a byte is a space, a tab or a carriage return.
fn is_white(byte: u8) -> bool
    ensures { result ≡ white byte }
{
    matches!(byte, b' ' | b'\t' | b'\r')
}
