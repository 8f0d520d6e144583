// The trace for programs in other languages: the function of `trace`, by C's calling convention. A crate is a library or a static library, hence this one.
#![tactic(auto)]

ghost use Rattle.text.specs.Answer.{Answers};
ghost use Rattle.trace.specs.Trace.{answered};

// The answer, with zeros behind it, and how many bytes it has.
#[unsafe(no_mangle)]
pub extern "C" fn trace_answer(text: &[u8], out: &mut [u8; 372]) -> usize
    ensures { Answers 372 (answered text.now) result out.new }
{
    trace::answer(text, out)
}
