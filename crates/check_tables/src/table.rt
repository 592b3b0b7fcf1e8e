// A table of cases in a text.

/// What the rows of a table are, by its first line.
#[derive(Clone, Copy, Debug, PartialEq, Eq)]
pub(crate) enum Kind {
    /// What both commands write, and the document.
    Both,
    /// What `check` writes, and the document.
    Check,
    /// What `collect` writes, and its input.
    Collect,
    /// What `place` writes, and its input.
    Place,
    /// What `state` writes, the beat, and the document.
    State,
    /// What `audit` writes, and the trace, with `\n` for each line feed.
    Audit,
    /// What both commands write, and a document with many members, in parts.
    Many,
    /// The words of a run that writes the second line.
    Words,
    /// What a run writes that needs no source, and its words.
    Lines,
    /// What a document says, and the document.
    Read,
    /// Who the holder is, and a Lease's identity.
    Holder,
    /// How many items are skipped, the List that is written, and the List that is read.
    Written,
    /// The trace of the document in the second line.
    Trace,
    /// What is written of the input in the second line by the words before it, which are run over sources and sinks that fail.
    Faults,
}

/// The kind, the form of what is run, in which `CASE` stands for what a row has, and the rows.
#[derive(Clone, Copy)]
pub(crate) struct Table<'a> {
    pub(crate) kind: Kind,
    pub(crate) form: &'a str,
    pub(crate) rest: &'a str,
}

pub(crate) fn table_in(text: &str) -> Option<Table<'_>> {
    let (first, below) = text.split_once('\n')?;
    let (form, rest) = below.split_once('\n')?;
    let kind = kind_of(first)?;
    Some(Table { kind, form, rest })
}

fn kind_of(line: &str) -> Option<Kind> {
    match line {
        "both" => Some(Kind::Both),
        "check" => Some(Kind::Check),
        "collect" => Some(Kind::Collect),
        "place" => Some(Kind::Place),
        "state" => Some(Kind::State),
        "audit" => Some(Kind::Audit),
        "many" => Some(Kind::Many),
        "words" => Some(Kind::Words),
        "lines" => Some(Kind::Lines),
        "read" => Some(Kind::Read),
        "holder" => Some(Kind::Holder),
        "written" => Some(Kind::Written),
        "trace" => Some(Kind::Trace),
        "faults" => Some(Kind::Faults),
        _ => None,
    }
}
