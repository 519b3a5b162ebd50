// What the displays have acknowledged.
#![tactic(auto)]

ghost use Rattle.std.specs.Prelude.{◌≡◌, ◌≤◌, length};
ghost use Rattle.protocol.specs.Displays.{least_of};
ghost use Rattle.call_acknowledgements.specs.SpanOf.{span_of};

// The least and the greatest of some ids.
#[derive(Clone, Copy, Debug, PartialEq, Eq)]
pub struct Span {
    pub least: u64,
    pub greatest: u64,
}

// The least and the greatest of these ids.
#[tactic(auto, using(crate::proofs::Spans::spans))]
pub fn span_of(ids: &[u64]) -> Span
    requires { 1 ≤ length ids.now }
    ensures { result ≡ span_of ids.now }
{
    let mut span = Span {
        least: ids[0],
        greatest: ids[0],
    };
    for id in &ids[1..] {
        span.least = span.least.min(*id);
        span.greatest = span.greatest.max(*id);
    }
    span
}

// The least of these ids.
pub fn least(ids: &[u64]) -> u64
    requires { 1 ≤ length ids.now }
    ensures { result ≡ least_of ids.now }
{
    span_of(ids).least
}
