// What a line means for the terms of a trace.

/// What a line means for the terms of a trace. An acting line is one of a zone, of a taint or another. `T` is the text of a name.
#[derive(Drop)]
pub enum Role<T> {
    /// It begins a term.
    Leads,
    /// It ends the terms of its actor.
    Ends,
    /// The zone, `REGION/ZONE`, has this rate.
    Zones(T, u32),
    Taints,
    /// It acts in another way.
    Acts,
    /// It means nothing for terms.
    Idles,
}
