// What the methods hand back, by what a call on an entry, a save, a closing or a load gave them.
ghost use Rattle.std.specs.Prelude.{◌≡◌};
ghost use Rattle.card.specs.Calls.{outcome_of, save_outcome_by, load_outcome_by};
ghost use Rattle.card.specs.Closings.{rebuilt};
ghost use Rattle.catalogue_standings.specs.Refusals.{number_in};
ghost use Rattle.image.specs.Effects.{answered};

use crate::{Outcome, Shape};
use catalogue_standings::{Answer, Refusal};
use image::Loaded;
use refusals::Out;

pub fn outcome_of(shape: Shape, out: Out) -> Outcome
    ensures { result ≡ outcome_of shape out }
{
    Outcome {
        shape: Shape {
            blocks: shape.blocks,
            free: out.free,
        },
        answer: out.answer,
    }
}

// The outcome of a save and of a closing.
pub fn save_outcome(shape: Shape, ended: Result<(), Refusal>) -> Outcome
    ensures { result ≡ save_outcome_by shape (number_in ended) }
{
    let answer = match ended {
        Ok(()) => Answer::Done,
        Err(refusal) => refusal.answer(),
    };
    Outcome { shape, answer }
}

// The outcome of a load: n and the free count of the image, or the shape as it was.
pub fn load_outcome(shape: Shape, loaded: Result<Loaded, Refusal>) -> Outcome
    ensures { result ≡ load_outcome_by shape (answered loaded) }
{
    match loaded {
        Ok(loaded) => Outcome {
            shape: Shape {
                blocks: loaded.blocks,
                free: loaded.free,
            },
            answer: Answer::Done,
        },
        Err(refusal) => Outcome {
            shape,
            answer: refusal.answer(),
        },
    }
}

// Builds the summary anew, if the call was accepted (document 02 (l)).
pub fn rebuild(shape: Shape, map: &[u64], summary: &mut [u32], ended: Result<(), Refusal>)
    ensures { summary.new ≡ rebuilt shape map.now summary.old (number_in ended) }
{
    if ended.is_ok() {
        call_summary::rebuild_summary(shape.blocks, shape.free, map, summary);
    }
}
