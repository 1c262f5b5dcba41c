// Reads a frame.
ghost use Rattle.frame_reader.specs.Frame.{OnlyAnswer, Reads, ReadsAs};

use crate::array::find_call;
use crate::fields::Fields;
use crate::reading::transmission;
use event::Transmission;
use refusal::Refusal;

// The longest text that is read.
pub const LONGEST: usize = 1024;

// The transmission of which the text is a frame, or why it is none: 51 longer than 1,024 bytes, 52 nested deeper than 8,
// 53 not JSON, 54 not a call of TransactionEvent, 55 a read name twice or a required one missing, 56 a value not of its
// form, id and payload at odds, or an unlawful transmission.
pub fn read(text: &[u8]) -> Result<Transmission, Refusal>
    ensures reads { Reads text.now result }
    ensures reads_as { ReadsAs text.now result }
    ensures only { OnlyAnswer text.now result }
{
    if text.len() > LONGEST {
        return Err(Refusal::TextTooLong);
    }
    json_text::check(text)?;
    let call = find_call(text).ok_or(Refusal::NotAFrame)?;
    let fields = Fields::find(call.payload)?;
    transmission(fields, call.id).ok_or(Refusal::BadValue)
}
