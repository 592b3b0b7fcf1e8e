// Why a text may stop to be JSON.

/// What may be wrong in a text that stops to be JSON at this place.
pub(crate) fn hint(input: &[u8], place: usize) -> &'static str {
    let text = input.trim_ascii_start();
    let (front, rest) = input.split_at(place.min(input.len()));
    let before = front.trim_ascii_end();
    match (text.first(), rest.trim_ascii_start().first()) {
        (None, _) => "The input is empty: give a document on standard input.\n",
        (Some(b'{'), None) | (Some(b'['), None) =>
            "The input ends before the value does: a bracket or a quote isn't closed.\n",
        (Some(b'{'), Some(here)) | (Some(b'['), Some(here)) => hint_in(
            before.ends_with(b","),
            *here,
        ),
        (Some(_), _) => hint_outside(text),
    }
}

/// The same of a text that doesn't begin as JSON.
fn hint_outside(text: &[u8]) -> &'static str {
    if text.starts_with(b"\xEF\xBB\xBF") {
        "The input begins with a byte order mark, which isn't JSON: leave out its first three bytes.\n"
    } else if text.starts_with(b"\xFF\xFE") || text.starts_with(b"\xFE\xFF") {
        "The input is UTF-16: write it as UTF-8.\n"
    } else if text.starts_with(b"trace ") {
        "This is a trace, not a document: kube_replay audit, kube_lens leaders and kube_lens summary read it.\n"
    } else {
        "A document begins with {. This may be YAML: yq -o=json . makes JSON of it.\n"
    }
}

/// The same in a text that begins as JSON, by the byte at the place, which may stand behind a comma.
fn hint_in(is_behind_comma: bool, here: u8) -> &'static str {
    match here {
        b'}' | b']' => closing_hint(is_behind_comma),
        b'\'' => "JSON's quotes are \", not '.\n",
        b'/' | b'#' => "JSON has no comments.\n",
        b'"' => "A comma may be missing before this text.\n",
        b',' => "A comma too many, or a value is missing before it.\n",
        _ => "",
    }
}

fn closing_hint(is_behind_comma: bool) -> &'static str {
    if is_behind_comma {
        "A comma stands before a closing bracket: leave it out.\n"
    } else {
        "A bracket that closes nothing, or another one than is open, or a value is missing before it.\n"
    }
}
