//! What is done with a script.

ghost use Rattle.std.specs.Prelude.{◌≡◌, IfOk};
ghost use Rattle.call_verdict.specs.Words.{word_bytes};
ghost use Rattle.headline.specs.Words.{verb_of, words_for};

use std::alloc::{AllocError, Global};

/// What is done with a script.
#[derive(Clone, Copy, Debug, PartialEq, Eq)]
pub enum Way {
    /// It is run on the image's units.
    Run,
    /// It is run on a mirror over them, which is repaired then.
    Mirror,
}

impl Way {
    fn verb(self) -> &'static str
        ensures { result.now ≡ verb_of self }
    {
        match self {
            Way::Run => "run",
            Way::Mirror => "mirror",
        }
    }
}

/// The words of the call.
pub(crate) fn words_for(alloc: Global, way: Way) -> Result<Vec<String>, AllocError>
    ensures { IfOk result (λ words. word_bytes words.items ≡ words_for way) }
{
    let mut words = Vec::new(alloc);
    words.push(String::from_str(alloc, way.verb())?)?;
    words.push(String::from_str(alloc, "image")?)?;
    Ok(words)
}
