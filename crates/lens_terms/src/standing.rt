// How an identity stands.
ghost use Rattle.std.specs.Prelude.{◌≡◌};
ghost use Rattle.lens_terms.specs.Acting as spec;
ghost use Rattle.lens_terms.specs.Gathered.{standing_or};

use crate::turn::Turn;

/// How an identity stands behind some lines: whether it leads, and before which beat a pause has it stand still.
#[derive(Clone, Copy)]
pub struct Standing {
    pub leads: bool,
    pub still: u32,
}

impl Standing {
    /// How an identity stands, by what is known of it.
    pub(crate) fn known(found: Option<Standing>) -> Standing
        ensures { result ≡ standing_or found }
    {
        match found {
            Some(standing) => standing,
            None => Standing {
                leads: false,
                still: 0,
            },
        }
    }

    /// How it stands behind a line of its own at a beat, in a trace that ends before the beat `stop`.
    pub(crate) fn behind(self, stop: u32, beat: u32, turn: Turn) -> Standing
        ensures { result ≡ spec.standing_by stop beat turn self }
    {
        match turn {
            Turn::Leads => Standing {
                leads: true,
                still: self.still,
            },
            Turn::Ends(_) => Standing {
                leads: false,
                still: self.still,
            },
            Turn::Pauses(beats) => Standing {
                leads: self.leads,
                still: self.still.max(resume(stop, beat, beats)),
            },
            Turn::Keeps => self,
        }
    }

    /// The beat in which a line of its own has it act, or act again, if it does.
    pub(crate) fn begins(self, stop: u32, beat: u32, turn: Turn) -> Option<u32>
        ensures { result ≡ spec.begins_by stop beat turn self }
    {
        match turn {
            Turn::Leads => {
                if self.leads {
                    None
                } else {
                    Some(beat.max(self.still))
                }
            }
            Turn::Pauses(beats) => {
                if self.leads {
                    Some(self.still.max(resume(stop, beat, beats)))
                } else {
                    None
                }
            }
            Turn::Ends(_) => None,
            Turn::Keeps => None,
        }
    }
}

/// The beat in which a pause is over that lasts so many from a beat on.
fn resume(stop: u32, beat: u32, beats: u32) -> u32
    ensures { result ≡ spec.resume stop beat beats }
{
    beat.saturating_add(beats).min(stop)
}
