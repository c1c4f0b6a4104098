// What is refused of a span: refusal 17.
ghost use Rattle.std.specs.Prelude.{◌≡◌};
ghost use Rattle.refusals.specs.Refusals.{first_of, told};
ghost use Rattle.spans.specs.Span.{span_checks};

use refusals::Refusal;

// Refusal 17, if it applies, for count words from the place on in a strip of `size`. Their end is never worked out: it may not fit a usize.
pub fn span_refusal(size: usize, place: usize, count: usize) -> Result<(), Refusal>
    ensures { told result ≡ first_of (span_checks size place count) }
{
    if size < place {
        return Err(Refusal::SpanOutOfBounds);
    }
    if size - place < count {
        return Err(Refusal::SpanOutOfBounds);
    }
    Ok(())
}
