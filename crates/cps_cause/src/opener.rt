//! Which line opened what is open.
ghost use Rattle.std.specs.Prelude.{◌≡◌, Some, IfSome, is_some, if◌then◌else◌};
ghost use Rattle.cps_state.specs.Keys.{first_state, is_open, overwritten};
ghost use Rattle.cps_final.specs.Layout.{puts_of};
ghost use Rattle.cps_cause.specs.Opener.{IsOpener};
ghost use Rattle.cps_cause.specs.Code.OpenNow.{IsOpenNow};

use crate::open_now::OpenNow;
use crate::origin::Origin;
use crate::places::Places;
use cps_state::Trace;
use cps_text::Name;

/// How many lines stand above the one that opened what is open behind these; None where nothing is open there.
pub fn opener_of(traces: &[Trace]) -> Option<usize>
    ensures opener { IfSome result (λ above. IsOpener traces.now above) }
    ensures open { is_some result ≡ is_open (overwritten first_state (puts_of traces.now)) }
{
    let much = open_behind(traces).count();
    let mut opener = None;
    let mut opened = OpenNow::new();
    for (above, trace) in traces.iter().enumerate() {
        opener = later(opener, above, opened.count() < much);
        opened = opened.behind(trace.puts());
    }
    opener
}

/// How much is open behind lines.
fn open_behind(traces: &[Trace]) -> OpenNow
    ensures { IsOpenNow (overwritten first_state (puts_of traces.now)) result }
{
    let mut opened = OpenNow::new();
    for trace in traces {
        opened = opened.behind(trace.puts());
    }
    opened
}

/// A line, if less is open before it than in the end; else what was found before.
fn later(opener: Option<usize>, above: usize, is_less: bool) -> Option<usize>
    ensures { result ≡ if is_less then Some above else opener }
{
    if is_less { Some(above) } else { opener }
}

/// What is known behind lines: which of them opened what is open there.
#[derive(Clone, Copy)]
pub struct LinesAbove<'a> {
    /// What each of them does.
    pub traces: &'a [Trace],
}

impl Places for LinesAbove<'_> {
    fn line_of_symbol(&self, _name: Name) -> Option<u32> {
        None
    }

    fn line_of_opening(&self) -> Option<u32> {
        line_of_opener(self.traces)
    }

    fn line_of_end(&self) -> Option<u32> {
        None
    }

    fn line_of_body(&self) -> Option<u32> {
        None
    }

    fn line_of_origin(&self, _origin: Origin) -> Option<u32> {
        None
    }
}

/// The number, from 1, of the line that opened what is open behind these.
pub fn line_of_opener(traces: &[Trace]) -> Option<u32> {
    let above = opener_of(traces)?;
    u32::try_from(above.saturating_add(1)).ok()
}
