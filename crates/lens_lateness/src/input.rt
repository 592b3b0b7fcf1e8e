// The document and its trace, in one input.
ghost use Rattle.std.specs.Prelude.{◌≡◌, ◌≤◌, true, length};
ghost use Rattle.lens_lateness.specs.Input as spec;

/// How many bytes stand before the first line that begins with `trace `; all of them if there is none.
pub(crate) fn document_end(input: &[u8]) -> usize
    ensures end { result ≡ spec.document_end true input.now }
    ensures within { result ≤ length input.now }
{
    let mut end = 0;
    let mut is_line_start = true;
    'bytes: while end < input.len() {
        if begins_trace(is_line_start, &input[end..]) {
            return end;
        }
        is_line_start = input[end] == b'\n';
        end += 1;
    }
    end
}

/// Whether a line begins here, as the first one of a trace does.
fn begins_trace(is_line_start: bool, text: &[u8]) -> bool
    ensures { result ≡ spec.begins_trace is_line_start text.now }
{
    is_line_start && text.starts_with(b"trace ")
}
