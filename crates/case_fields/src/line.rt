// The fields of a line.
ghost use Rattle.std.specs.Prelude.{◌≡◌, [], length, get_or};
ghost use Rattle.case_fields.specs.Text.{blank, parts};

// How many fields there are.
pub fn fields(line: &[u8]) -> usize
    ensures { result ≡ length (parts blank line.now) }
{
    line.split(|byte| *byte == b' ').count()
}

// Field k, counted from 0; nothing where there are not so many.
pub fn field(line: &[u8], k: usize) -> &[u8]
    ensures { result.now ≡ get_or (parts blank line.now) k [] }
{
    line.split(|byte| *byte == b' ').nth(k).unwrap_or(&[])
}
