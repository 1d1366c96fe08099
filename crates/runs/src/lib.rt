// Runs of the radio side, which the customer's demands speak of. The one function here ties them to the code.
#![tactic(auto)]

ghost use Rattle.std.specs.Prelude.{length};
ghost use Rattle.radio.specs.Call.{Met};
ghost use Rattle.runs.specs.Run.{ours};

use radio::Answer;
use tag::record::TagRecord;

// The frame call, whose contract is the step that the theorems run over.
#[tactic(auto, unfolding(crate::specs::Run::ours))]
pub fn step(
    image: &mut [u8],
    answer: &mut [u8],
    rec: TagRecord,
    frame: &[u8],
    bits: usize,
    parity: bool,
) -> Answer
    ensures { Met (ours image.old rec (record { bytes = frame.now; bits = bits; parity = parity; room = length answer.old })) result
        image.old image.new answer.old answer.new }
{
    radio::frame(image, answer, rec, frame, bits, parity)
}
