ghost use Rattle.std.specs.Prelude.{◌≡◌, ◌<◌, ◌≤◌, length, MatchResult};
ghost use Rattle.word.specs.declared.fault.Cause.TheVariants.{TextTooLong};

use word::fault::{Cause, Fault};

/// The text of a sheet, which is not too long.
#[derive(Clone, Copy)]
pub(crate) struct Source<'a> {
    pub(crate) bytes: &'a [u8],
    ghost short: { length bytes.now ≤ 65536 },
}

impl<'a> Source<'a> {
    /// The source with these bytes, of which there may be too many.
    pub(crate) fn new(bytes: &'a [u8]) -> Result<Source<'a>, Fault>
        ensures { MatchResult result (λ source. source.bytes.now ≡ bytes.now) (λ f. (65536 < length bytes.now) × (f.cause ≡ TextTooLong) × (f.line ≡ 0) × (f.column ≡ 0)) }
    {
        if bytes.len() > 65536 {
            return Err(Cause::TextTooLong.at(0, 0));
        }
        Ok(Source { bytes })
    }
}
