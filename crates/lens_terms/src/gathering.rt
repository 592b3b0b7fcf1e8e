// The terms of lines, gathered from the last line to the first.
ghost use Rattle.std.specs.Prelude.{◌≡◌, ◌+◌, ◌<◌, ◌^◌, ℕ, List, [], ◌∷◌, ◌++◌, map, length, reverse, IfOk, OnOk};
ghost use Rattle.trace_lines.specs.declared.line.Line.{Line};
ghost use Rattle.trace_lines.specs.Reads.{seen};
ghost use Rattle.lens_terms.specs.Gathered.{Stands};
ghost use Rattle.lens_terms.specs.Terms.{shown, terms};

use crate::closing::Closing;
use crate::closings::Closings;
use crate::term::Term;
use crate::turn::{Turn, turn_of};
use kube_base::NoMemory;
use std::alloc::Global;
use trace_lines::Line;

/// What is known of the lines so far, from the last one back.
#[derive(Drop)]
pub(crate) struct Gathering<'a> {
    pub(crate) closings: Closings<'a>,
    pub(crate) terms: Vec<Term<&'a [u8]>>,
}

impl<'a> Gathering<'a> {
    /// Takes the line before those so far, which has this number.
    fn take(&mut self, number: u64, line: &Line<&'a [u8]>) -> Result<(), NoMemory>
        ensures { (ls : List (Line (List ℕ))) → Stands (number + 1) ls self.old
            → OnOk result (Stands number (seen line.now ∷ ls) self.new) }
    {
        match turn_of(&line.says) {
            Turn::Leads => {
                let closing = self.closings.get(line.actor);
                self.terms.push(Term {
                    line: number,
                    actor: line.actor,
                    from: line.beat,
                    closing,
                })?;
                Ok(())
            }
            Turn::Ends(how) => self.closings.insert(
                line.actor,
                Closing {
                    beat: line.beat,
                    how,
                },
            ),
            Turn::Pauses(_) => Ok(()),
            Turn::Keeps => Ok(()),
        }
    }
}

/// The terms of the lines behind a trace's first, in the order in which they begin. One pass over the lines.
pub fn terms_of<'a>(
    alloc: Global,
    lines: &[Line<&'a [u8]>],
) -> Result<Vec<Term<&'a [u8]>>, NoMemory>
    ensures { IfOk result (λ found. map shown found.items ≡ terms 2 (map seen lines.now)) }
{
    let mut gathering = Gathering {
        closings: Closings::new(alloc),
        terms: Vec::new(alloc),
    };
    let mut at = lines.len();
    'lines: while at > 0 {
        at -= 1;
        gathering.take(at as u64 + 2, &lines[at])?;
    }
    reversed(alloc, gathering.terms)
}

/// The same terms from the last to the first.
fn reversed<'a>(alloc: Global, terms: Vec<Term<&'a [u8]>>) -> Result<Vec<Term<&'a [u8]>>, NoMemory>
    ensures { IfOk result (λ turned. turned.items ≡ reverse terms.entry.items) }
{
    let mut rest = terms;
    let mut turned = Vec::new(alloc);
    'terms: while let Some(term) = rest.pop() {
        turned.push(term)?;
    }
    Ok(turned)
}
