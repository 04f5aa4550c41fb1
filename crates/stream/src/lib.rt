// Plan files. `read` gives any bytes the plan that they are the stream of, or the refusal and its offset; `write`
// puts a plan's stream into a lent output; `rewritten` and `reread` are the two round trips as calls. `kind` has the
// table of body lengths, `reader` and `writer` the records.
#![tactic(auto)]

pub mod kind; // kind.rt
pub mod reader; // reader.rt
pub mod writer; // writer.rt

ghost use Rattle.std.specs.Prelude.{◌≡◌};
ghost use Rattle.stream.specs.Read.{read_of};
ghost use Rattle.stream.specs.Write.{Wrote};
ghost use Rattle.stream.specs.Trip.{Rewritten, Reread, Copied, reread_of};

use plan::Plan;
use records::refusal::{Refusal, Refused};

// The bytes of the longest stream.
pub const LONGEST: usize = 156;

// The plan of a stream; what is read is written back byte for byte.
pub fn read(s: &[u8]) -> Result<Plan, Refused>
    ensures is { result ≡ read_of s.now }
    ensures back { Rewritten s.now result }
{
    reader::check_stream(s)?;
    Ok(reader::plan_at(s))
}

// The plan's stream, put at the front of a lent output; what is written is read back as the same plan. The answer is
// the stream's length in bytes.
pub fn write(plan: Plan, out: &mut [u8]) -> Result<usize, Refusal>
    ensures is { Wrote plan out.old result out.new }
    ensures back { Reread plan result out.new }
{
    plan::check(plan)?;
    if out.len() < writer::stream_length(plan) {
        return Err(Refusal::Room);
    }
    Ok(writer::put_stream(out, plan))
}

// A stream is read and its plan is written: the stream's own bytes again, or its refusal, or 12.
pub fn rewritten(s: &[u8], out: &mut [u8]) -> Result<usize, Refusal>
    ensures { Copied s.now out.old result out.new }
{
    match read(s) {
        Ok(plan) => write(plan, out),
        Err(refused) => Err(refused.why),
    }
}

// A plan is written and its stream is read: the same plan, 0 past f and past n, or its refusal.
pub fn reread(plan: Plan) -> Result<Plan, Refused>
    ensures { result ≡ reread_of plan }
{
    let mut bytes = [0; LONGEST];
    match write(plan, &mut bytes) {
        Ok(size) => read(&bytes[..size]),
        Err(why) => Err(why.at(0)),
    }
}
